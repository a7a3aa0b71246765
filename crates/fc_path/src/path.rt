// Path data: where in an LFB, and what is said of it.
ghost use Rattle.std.specs.Prelude.{◌≡◌, IfOk};

use fc_base::{Code, Duplicate, List, Memory, Octets};
use fc_wire::Ilv;

/// The key of an array entry: the number of the key, and the value that the entry's key has.
#[derive(Debug, PartialEq, Eq, Drop)]
pub struct Key {
    /// The number of the key in the declaration of the array.
    pub ident: u32,
    /// The bytes of the key's value.
    pub value: Octets,
}

/// A PATH-DATA (RFC 5810, section 7.1): steps from where it stands, and what is said of the place that they lead to.
#[cycle(path)]
#[derive(Debug, PartialEq, Eq, Drop)]
pub struct PathData {
    /// The IDs of the steps, from outside to inside; at most 65,535 can be written.
    pub ids: List<u32>,
    /// A last step, by a key.
    pub key: Option<Key>,
    /// What is said of the place.
    pub body: Body,
}

/// What a PATH-DATA says of its place.
#[cycle(path)]
#[derive(Debug, PartialEq, Eq, Drop)]
pub enum Body {
    /// Nothing.
    Nothing,
    /// A whole value (FULLDATA).
    Full(Octets),
    /// Parts of a value (SPARSEDATA).
    Sparse(List<Ilv>),
    /// How an operation ended (RESULT).
    Outcome(Code),
    /// More PATH-DATA, whose steps go on from here.
    Nested(List<PathData>),
}

impl Duplicate for Key {
    fn copy(&self) -> Result<Self, Memory> {
        let value = self.value.copy()?;
        Ok(Key {
            ident: self.ident,
            value,
        })
    }
}

fn copy_key(key: &Option<Key>) -> Result<Option<Key>, Memory>
    ensures { IfOk result (λ other. other ≡ key.now) }
{
    match key {
        None => Ok(None),
        Some(key) => Ok(Some(key.copy()?)),
    }
}

#[cycle(copy)]
fn copy_path(path: &PathData) -> Result<PathData, Memory>
    ensures { IfOk result (λ other. other ≡ path.now) }
{
    let ids = path.ids.copy()?;
    let key = copy_key(&path.key)?;
    let body = copy_body(&path.body)?;
    Ok(PathData { ids, key, body })
}

#[cycle(copy)]
fn copy_body(body: &Body) -> Result<Body, Memory>
    ensures { IfOk result (λ other. other ≡ body.now) }
{
    match body {
        Body::Nothing => Ok(Body::Nothing),
        Body::Full(value) => Ok(Body::Full(value.copy()?)),
        Body::Sparse(ilvs) => Ok(Body::Sparse(ilvs.copy()?)),
        Body::Outcome(code) => Ok(Body::Outcome(*code)),
        Body::Nested(paths) => Ok(Body::Nested(copy_paths(paths)?)),
    }
}

#[cycle(copy)]
fn copy_paths(paths: &List<PathData>) -> Result<List<PathData>, Memory>
    ensures { IfOk result (λ others. others ≡ paths.now) }
{
    let mut others = Vec::with_capacity(paths.alloc(), paths.len())?;
    for path in paths.as_slice() {
        others.push(copy_path(path)?)?;
    }
    Ok(List::from_vec(others))
}

impl Duplicate for PathData {
    fn copy(&self) -> Result<Self, Memory> {
        copy_path(self)
    }
}

impl Duplicate for Body {
    fn copy(&self) -> Result<Self, Memory> {
        copy_body(self)
    }
}
