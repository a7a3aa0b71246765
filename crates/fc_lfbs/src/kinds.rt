// The types of the components of the built-in classes.
ghost use Rattle.std.specs.Prelude.{◌≡◌, ◌∷◌, ◌++◌, [], IfOk, OnOk};
ghost use Rattle.fc_lfbs.specs.Kinds as spec;
ghost use Rattle.fc_lfbs.specs.Kinds.{instance_type, kind_type, opening_type, subject_type, transaction_type, transactions_type};

use fc_base::{Boxed, List, Memory, Text};
use fc_types::{Field, KeyDecl, Ty};
use std::alloc::Global;

/// What the components of the built-in classes are.
#[derive(Clone, Copy, Debug, PartialEq, Eq)]
pub(crate) enum Kind {
    /// A number of one byte.
    Byte,
    /// A number of one byte that is 0 or 1.
    Policy,
    /// A number of 32 bits.
    Word,
    /// A text of at most 40 bytes.
    Name,
    /// At most so many numbers of 32 bits.
    Words(u32),
    /// Instances, each its class and its ID.
    Selectors,
    /// The records of transactions.
    Transactions,
    /// What begins a transaction.
    Opening,
    /// The transaction that an operation is of.
    Subject,
}

/// The types with which an element and a control element read and write the class Mastership.
#[derive(Debug, Drop)]
pub struct Mastership {
    /// An entry of the component Transactions.
    pub listed: Ty,
    /// The component Opening.
    pub opening: Ty,
    /// The component Subject.
    pub subject: Ty,
    /// The component Held.
    pub held: Ty,
}

// A number of one byte.
fn byte_upto(max: u8) -> Ty
    ensures { result ≡ spec.byte_upto max }
{
    Ty::Number {
        bytes: 1,
        signed: false,
        min: 0,
        max: i128::from(max),
    }
}

// A number of 32 bits.
fn word() -> Ty
    ensures { result ≡ spec.word }
{
    Ty::Number {
        bytes: 4,
        signed: false,
        min: 0,
        max: 0xFFFF_FFFF,
    }
}

// An array without keys.
fn array_of(alloc: Global, entry: Ty, entries: u32) -> Result<Ty, Memory>
    ensures { IfOk result (λ ty. ty ≡ spec.array_of entry entries) }
{
    Ok(Ty::Array {
        entry: Boxed::new(alloc, entry)?,
        entries,
        keys: List::new(alloc),
    })
}

fn words(alloc: Global, entries: u32) -> Result<Ty, Memory>
    ensures { IfOk result (λ ty. ty ≡ spec.words entries) }
{
    array_of(alloc, word(), entries)
}

// Appends a field.
fn add(alloc: Global, fields: &mut List<Field>, id: u32, name: &str, ty: Ty) -> Result<(), Memory>
    ensures { OnOk result (fields.new ≡ fields.old ++ spec.field id name.now ty ∷ []) }
{
    let name = Text::from_str(alloc, name)?;
    fields.push(Field { id, name, ty })
}

// An instance: its class and its ID.
fn instance(alloc: Global) -> Result<Ty, Memory>
    ensures { IfOk result (λ ty. ty ≡ instance_type) }
{
    let mut fields = List::new(alloc);
    add(alloc, &mut fields, 1, "class", word())?;
    add(alloc, &mut fields, 2, "instance", word())?;
    Ok(Ty::Struct { fields })
}

// A transaction by its epoch and its number.
fn subject(alloc: Global) -> Result<Ty, Memory>
    ensures { IfOk result (λ ty. ty ≡ subject_type) }
{
    let mut fields = List::new(alloc);
    add(alloc, &mut fields, 1, "epoch", word())?;
    add(alloc, &mut fields, 2, "number", word())?;
    Ok(Ty::Struct { fields })
}

// A record of a transaction: what names it, its state, and its participants.
fn transaction(alloc: Global) -> Result<Ty, Memory>
    ensures { IfOk result (λ ty. ty ≡ transaction_type) }
{
    let mut fields = List::new(alloc);
    add(alloc, &mut fields, 1, "epoch", word())?;
    add(alloc, &mut fields, 2, "number", word())?;
    add(alloc, &mut fields, 3, "state", word())?;
    add(alloc, &mut fields, 4, "participants", words(alloc, 64)?)?;
    Ok(Ty::Struct { fields })
}

// What begins a transaction: what names it, its participants, and the instances that it changes, of which none stands for all.
fn opening(alloc: Global) -> Result<Ty, Memory>
    ensures { IfOk result (λ ty. ty ≡ opening_type) }
{
    let mut fields = List::new(alloc);
    add(alloc, &mut fields, 1, "epoch", word())?;
    add(alloc, &mut fields, 2, "number", word())?;
    add(alloc, &mut fields, 3, "participants", words(alloc, 64)?)?;
    let instances = array_of(alloc, instance(alloc)?, 4_096)?;
    add(alloc, &mut fields, 4, "instances", instances)?;
    Ok(Ty::Struct { fields })
}

// The key that tells records apart: the epoch and the number.
fn transaction_key(alloc: Global) -> Result<List<KeyDecl>, Memory>
    ensures { IfOk result (λ keys. keys ≡ spec.transaction_key ∷ []) }
{
    let mut fields = List::new(alloc);
    fields.push(1)?;
    fields.push(2)?;
    let mut keys = List::new(alloc);
    keys.push(KeyDecl { id: 1, fields })?;
    Ok(keys)
}

fn transactions(alloc: Global) -> Result<Ty, Memory>
    ensures { IfOk result (λ ty. ty ≡ transactions_type) }
{
    let entry = transaction(alloc)?;
    let keys = transaction_key(alloc)?;
    Ok(Ty::Array {
        entry: Boxed::new(alloc, entry)?,
        entries: 4_096,
        keys,
    })
}

/// The type of a kind of component.
pub(crate) fn type_of(alloc: Global, kind: Kind) -> Result<Ty, Memory>
    ensures { IfOk result (λ ty. ty ≡ kind_type kind) }
{
    match kind {
        Kind::Byte => Ok(byte_upto(255)),
        Kind::Policy => Ok(byte_upto(1)),
        Kind::Word => Ok(word()),
        Kind::Name => Ok(Ty::String { length: 40 }),
        Kind::Words(entries) => words(alloc, entries),
        Kind::Selectors => array_of(alloc, instance(alloc)?, 65_536),
        Kind::Transactions => transactions(alloc),
        Kind::Opening => opening(alloc),
        Kind::Subject => subject(alloc),
    }
}

/// The types of the components of the class Mastership that elements and control elements exchange.
pub fn mastership_types(alloc: Global) -> Result<Mastership, Memory>
    ensures listed { IfOk result (λ types. types.listed ≡ transaction_type) }
    ensures opening { IfOk result (λ types. types.opening ≡ opening_type) }
    ensures subject { IfOk result (λ types. types.subject ≡ subject_type) }
    ensures held { IfOk result (λ types. types.held ≡ transactions_type) }
{
    Ok(Mastership {
        listed: transaction(alloc)?,
        opening: opening(alloc)?,
        subject: subject(alloc)?,
        held: transactions(alloc)?,
    })
}
