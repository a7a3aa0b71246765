// Building PATH-DATA from what lines say.
ghost use Rattle.std.specs.Prelude.{◌≡◌, ◌≤◌, ◌<◌, ◌+◌, length, option_map, IfOk, OnOk};
ghost use Rattle.fc_lines.specs.LineReading.{body_said, ilv_at, key_of, leaf_said, outcome_at, steps_said};
ghost use Rattle.fc_lines.specs.TextPlaces.{Reads};
ghost use Rattle.fc_text.specs.HeadedReading.{body_of, leaf_of, path_of, paths_of};
ghost use Rattle.fc_text.specs.TextReading.{body_at, body_by, last_body, many_at, path_line as path_at};

use fc_base::{Code, List, Memory, Octets};
use fc_lines::{
    BodyLine, HexWord, LeafLine, Lines, Numbered, Numbers, PathLine, TextFault, body_line,
    code_line, ilv_line, is_bare, leaf_line, path_line,
};
use fc_path::{Body, Key, OperKind, PathData};
use fc_wire::Ilv;
use std::alloc::Global;

// The bytes of a word.
fn octets_of(alloc: Global, word: &HexWord) -> Result<Octets, Memory>
    ensures { IfOk result (λ octets. octets ≡ word.now) }
{
    let mut bytes = Vec::with_capacity(alloc, word.len())?;
    word.append_to(&mut bytes)?;
    Ok(Octets::from_vec(bytes))
}

// The IDs of a PATH-DATA.
fn ids_of(alloc: Global, mut numbers: Numbers) -> Result<List<u32>, Memory>
    ensures { IfOk result (λ ids. ids ≡ numbers.entry) }
{
    let mut ids = List::new(alloc);
    'ids: while let Some(id) = numbers.next() {
        ids.push(id)?;
    }
    Ok(ids)
}

// The key of a PATH-DATA, if it has one.
fn key_in(alloc: Global, said: Option<Numbered>) -> Result<Option<Key>, Memory>
    ensures { IfOk result (λ key. key ≡ option_map key_of said.entry) }
{
    match said {
        None => Ok(None),
        Some(Numbered { number, bytes }) => {
            let value = octets_of(alloc, &bytes)?;
            Ok(Some(Key {
                ident: number,
                value,
            }))
        }
    }
}

// The line of an ILV at a level.
fn read_ilv(alloc: Global, level: usize, lines: &mut Lines) -> Result<Ilv, TextFault>
    requires { level ≤ 20 }
    ensures exact { Reads result (ilv_at level lines.old) lines.new }
    ensures less { OnOk result (length lines.new.lines < length lines.old.lines) }
{
    let said = ilv_line(level, lines)?;
    let value = octets_of(alloc, &said.bytes)?;
    Ok(Ilv {
        ident: said.number,
        value,
    })
}

// The lines of ILVs at a level.
fn read_ilvs(alloc: Global, level: usize, lines: &mut Lines) -> Result<List<Ilv>, TextFault>
    requires { level ≤ 20 }
    ensures exact { Reads result (many_at level (ilv_at level) lines.old) lines.new }
    ensures less { OnOk result (length lines.new.lines ≤ length lines.old.lines) }
{
    let mut ilvs = List::new(alloc);
    'lines: while lines.stands_at(level) {
        let ilv = read_ilv(alloc, level, lines)?;
        ilvs.push(ilv)?;
    }
    Ok(ilvs)
}

/// The line of a code at a level.
pub fn read_outcome(level: usize, lines: &mut Lines) -> Result<Code, TextFault>
    requires { level ≤ 20 }
    ensures exact { Reads result (outcome_at level lines.old) lines.new }
    ensures less { OnOk result (length lines.new.lines < length lines.old.lines) }
{
    let code = code_line(level, lines)?;
    Ok(Code(code))
}

// The body at a level whose first line says this, and that holds no PATH-DATA.
fn read_leaf(
    alloc: Global,
    level: usize,
    said: LeafLine,
    lines: &mut Lines,
) -> Result<Body, TextFault>
    requires { level < 20 }
    ensures exact { Reads result (leaf_of level (leaf_said said.entry) lines.old) lines.new }
    ensures less { OnOk result (length lines.new.lines ≤ length lines.old.lines) }
{
    match said {
        LeafLine::Full(word) => {
            let value = octets_of(alloc, &word)?;
            Ok(Body::Full(value))
        }
        LeafLine::Sparse => {
            let ilvs = read_ilvs(alloc, level + 1, lines)?;
            Ok(Body::Sparse(ilvs))
        }
        LeafLine::Outcome(code) => Ok(Body::Outcome(Code(code))),
    }
}

// A body at a level, inside of which no more PATH-DATA may stand.
#[tactic(auto, unfolding(crate::specs::TextReading::last_body))]
fn read_last_body(
    alloc: Global,
    kind: OperKind,
    level: usize,
    lines: &mut Lines,
) -> Result<Body, TextFault>
    requires { level < 20 }
    ensures exact { Reads result (last_body kind level lines.old) lines.new }
    ensures less { OnOk result (length lines.new.lines ≤ length lines.old.lines) }
{
    if kind.takes_nothing() {
        return Ok(Body::Nothing);
    }
    let said = leaf_line(kind, level, lines)?;
    read_leaf(alloc, level, said, lines)
}

// The PATH-DATA at a level whose line says this, inside of which so many levels of others may stand.
#[cycle(read)]
#[tactic(auto, unfolding(crate::specs::HeadedReading::path_of))]
fn read_path(
    alloc: Global,
    kind: OperKind,
    depth: usize,
    level: usize,
    said: PathLine,
    lines: &mut Lines,
) -> Result<PathData, TextFault>
    requires { level + depth < 19 }
    ensures exact { Reads result (path_of (body_at kind depth) level (steps_said said.entry) lines.old) lines.new }
    ensures less { OnOk result (length lines.new.lines ≤ length lines.old.lines) }
{
    let ids = ids_of(alloc, said.ids)?;
    let key = key_in(alloc, said.key)?;
    let body = read_body(alloc, kind, depth, level + 1, lines)?;
    Ok(PathData { ids, key, body })
}

// The line of a PATH-DATA at a level, and what stands below it.
#[cycle(read)]
fn read_path_line(
    alloc: Global,
    kind: OperKind,
    depth: usize,
    level: usize,
    lines: &mut Lines,
) -> Result<PathData, TextFault>
    requires { level + depth < 19 }
    ensures exact { Reads result (path_at (body_at kind depth) level lines.old) lines.new }
    ensures less { OnOk result (length lines.new.lines < length lines.old.lines) }
{
    let said = path_line(level, lines)?;
    read_path(alloc, kind, depth, level, said, lines)
}

// The body at a level whose first line says this, and so many levels of PATH-DATA in each that it holds.
#[cycle(read)]
fn read_headed_body(
    alloc: Global,
    kind: OperKind,
    depth: usize,
    level: usize,
    said: BodyLine,
    lines: &mut Lines,
) -> Result<Body, TextFault>
    requires { level + depth < 19 }
    ensures exact { Reads result (body_of (body_at kind depth) level (body_said said.entry) lines.old) lines.new }
    ensures less { OnOk result (length lines.new.lines ≤ length lines.old.lines) }
{
    match said {
        BodyLine::Leaf(said) => read_leaf(alloc, level, said, lines),
        BodyLine::Path(said) => {
            let paths = read_paths(alloc, kind, depth, level, said, lines)?;
            Ok(Body::Nested(paths))
        }
    }
}

// The body at a level of a PATH-DATA, inside of which PATH-DATA may stand, and so many levels of others in each.
#[cycle(read)]
#[tactic(auto, unfolding(crate::specs::TextReading::body_by))]
fn read_open_body(
    alloc: Global,
    kind: OperKind,
    depth: usize,
    level: usize,
    lines: &mut Lines,
) -> Result<Body, TextFault>
    requires { level + depth < 19 }
    ensures exact { Reads result (body_by kind (body_at kind depth) level lines.old) lines.new }
    ensures less { OnOk result (length lines.new.lines ≤ length lines.old.lines) }
{
    if is_bare(kind, level, lines) {
        return Ok(Body::Nothing);
    }
    let said = body_line(kind, level, lines)?;
    read_headed_body(alloc, kind, depth, level, said, lines)
}

// The body at a level of a PATH-DATA, inside of which so many levels of others may stand.
#[cycle(read)]
fn read_body(
    alloc: Global,
    kind: OperKind,
    depth: usize,
    level: usize,
    lines: &mut Lines,
) -> Result<Body, TextFault>
    requires { level + depth < 20 }
    ensures exact { Reads result (body_at kind depth level lines.old) lines.new }
    ensures less { OnOk result (length lines.new.lines ≤ length lines.old.lines) }
{
    if depth == 0 {
        return read_last_body(alloc, kind, level, lines);
    }
    read_open_body(alloc, kind, depth - 1, level, lines)
}

/// The PATH-DATA at a level, the line of the first of which says this, inside of which so many levels of others may stand.
#[cycle(read)]
#[tactic(auto, unfolding(crate::specs::HeadedReading::paths_of))]
pub fn read_paths(
    alloc: Global,
    kind: OperKind,
    depth: usize,
    level: usize,
    said: PathLine,
    lines: &mut Lines,
) -> Result<List<PathData>, TextFault>
    requires { level + depth < 19 }
    ensures exact { Reads result (paths_of (body_at kind depth) level (steps_said said.entry) lines.old) lines.new }
    ensures less { OnOk result (length lines.new.lines ≤ length lines.old.lines) }
{
    let mut paths = List::new(alloc);
    let path = read_path(alloc, kind, depth, level, said, lines)?;
    paths.push(path)?;
    'lines: while lines.stands_at(level) {
        let path = read_path_line(alloc, kind, depth, level, lines)?;
        paths.push(path)?;
    }
    Ok(paths)
}
