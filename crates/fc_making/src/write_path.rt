// Writing PATH-DATA while their lines are read.
ghost use Rattle.std.specs.Prelude.{◌≡◌, ◌≤◌, ◌<◌, ◌+◌, length, map, OnOk};
ghost use Rattle.fc_path.specs.Canon.{body_written, ilv_written, joined, path_written, sparse_written};
ghost use Rattle.fc_lines.specs.LineReading.{body_said, ilv_at, leaf_said, steps_said};
ghost use Rattle.fc_text.specs.HeadedReading.{body_of, leaf_of, path_of, paths_of};
ghost use Rattle.fc_text.specs.TextReading.{body_at, body_by, last_body, many_at, path_line as path_at};
ghost use Rattle.fc_making.specs.Writes.{Writes};

use crate::unwritten::Unwritten;
use crate::words::{write_full, write_ilv, write_steps};
use fc_base::Code;
use fc_lines::{
    BodyLine, LeafLine, Lines, PathLine, body_line, ilv_line, is_bare, leaf_line, path_line,
};
use fc_path::{OperKind, write_outcome};
use fc_wire::{PATH_DATA, SPARSE_DATA, TlvWriter};

// The line of an ILV at a level.
fn write_ilv_line(to: &mut TlvWriter, level: usize, lines: &mut Lines) -> Result<(), Unwritten>
    requires { level ≤ 20 }
    ensures exact { Writes result (ilv_at level lines.old) lines.new ilv_written to.old to.new }
    ensures less { OnOk result (length lines.new.lines < length lines.old.lines) }
{
    let said = ilv_line(level, lines)?;
    write_ilv(to, said)?;
    Ok(())
}

// The lines of ILVs at a level.
fn write_ilvs(to: &mut TlvWriter, level: usize, lines: &mut Lines) -> Result<(), Unwritten>
    requires { level ≤ 20 }
    ensures exact { Writes result (many_at level (ilv_at level) lines.old) lines.new (λ ilvs. joined (map ilv_written ilvs)) to.old to.new }
    ensures less { OnOk result (length lines.new.lines ≤ length lines.old.lines) }
{
    'lines: while lines.stands_at(level) {
        write_ilv_line(to, level, lines)?;
    }
    Ok(())
}

// A SPARSEDATA, whose ILVs stand at a level.
fn write_sparse(to: &mut TlvWriter, level: usize, lines: &mut Lines) -> Result<(), Unwritten>
    requires { level ≤ 20 }
    ensures exact { Writes result (many_at level (ilv_at level) lines.old) lines.new sparse_written to.old to.new }
    ensures less { OnOk result (length lines.new.lines ≤ length lines.old.lines) }
{
    let begun = to.begin(SPARSE_DATA)?;
    write_ilvs(to, level, lines)?;
    to.end(begun)?;
    Ok(())
}

// The body at a level whose first line says this, and that holds no PATH-DATA.
#[inline(always)]
fn write_leaf(
    to: &mut TlvWriter,
    level: usize,
    said: LeafLine,
    lines: &mut Lines,
) -> Result<(), Unwritten>
    requires { level < 20 }
    ensures exact { Writes result (leaf_of level (leaf_said said.entry) lines.old) lines.new body_written to.old to.new }
    ensures less { OnOk result (length lines.new.lines ≤ length lines.old.lines) }
{
    match said {
        LeafLine::Full(word) => {
            write_full(to, word)?;
            Ok(())
        }
        LeafLine::Sparse => write_sparse(to, level + 1, lines),
        LeafLine::Outcome(code) => {
            write_outcome(to, Code(code))?;
            Ok(())
        }
    }
}

// A body at a level, inside of which no more PATH-DATA may stand.
#[inline(always)]
fn write_last_body(
    to: &mut TlvWriter,
    kind: OperKind,
    level: usize,
    lines: &mut Lines,
) -> Result<(), Unwritten>
    requires { level < 20 }
    ensures exact { Writes result (last_body kind level lines.old) lines.new body_written to.old to.new }
    ensures less { OnOk result (length lines.new.lines ≤ length lines.old.lines) }
{
    if kind.takes_nothing() {
        return Ok(());
    }
    let said = leaf_line(kind, level, lines)?;
    write_leaf(to, level, said, lines)
}

// The PATH-DATA at a level whose line says this, inside of which so many levels of others may stand.
#[cycle(write)]
fn write_path(
    to: &mut TlvWriter,
    kind: OperKind,
    depth: usize,
    level: usize,
    said: PathLine,
    lines: &mut Lines,
) -> Result<(), Unwritten>
    requires { level + depth < 19 }
    ensures exact { Writes result (path_of (body_at kind depth) level (steps_said said.entry) lines.old) lines.new path_written to.old to.new }
    ensures less { OnOk result (length lines.new.lines ≤ length lines.old.lines) }
{
    let begun = to.begin(PATH_DATA)?;
    write_steps(to, said)?;
    write_body(to, kind, depth, level + 1, lines)?;
    to.end(begun)?;
    Ok(())
}

// The line of a PATH-DATA at a level, and what stands below it.
#[inline(always)]
#[cycle(write)]
fn write_path_line(
    to: &mut TlvWriter,
    kind: OperKind,
    depth: usize,
    level: usize,
    lines: &mut Lines,
) -> Result<(), Unwritten>
    requires { level + depth < 19 }
    ensures exact { Writes result (path_at (body_at kind depth) level lines.old) lines.new path_written to.old to.new }
    ensures less { OnOk result (length lines.new.lines < length lines.old.lines) }
{
    let said = path_line(level, lines)?;
    write_path(to, kind, depth, level, said, lines)
}

// The body at a level whose first line says this, and so many levels of PATH-DATA in each that it holds.
#[inline(always)]
#[cycle(write)]
fn write_headed_body(
    to: &mut TlvWriter,
    kind: OperKind,
    depth: usize,
    level: usize,
    said: BodyLine,
    lines: &mut Lines,
) -> Result<(), Unwritten>
    requires { level + depth < 19 }
    ensures exact { Writes result (body_of (body_at kind depth) level (body_said said.entry) lines.old) lines.new body_written to.old to.new }
    ensures less { OnOk result (length lines.new.lines ≤ length lines.old.lines) }
{
    match said {
        BodyLine::Leaf(said) => write_leaf(to, level, said, lines),
        BodyLine::Path(said) => write_paths(to, kind, depth, level, said, lines),
    }
}

// The body at a level of a PATH-DATA, inside of which PATH-DATA may stand, and so many levels of others in each.
#[inline(always)]
#[cycle(write)]
fn write_open_body(
    to: &mut TlvWriter,
    kind: OperKind,
    depth: usize,
    level: usize,
    lines: &mut Lines,
) -> Result<(), Unwritten>
    requires { level + depth < 19 }
    ensures exact { Writes result (body_by kind (body_at kind depth) level lines.old) lines.new body_written to.old to.new }
    ensures less { OnOk result (length lines.new.lines ≤ length lines.old.lines) }
{
    if is_bare(kind, level, lines) {
        return Ok(());
    }
    let said = body_line(kind, level, lines)?;
    write_headed_body(to, kind, depth, level, said, lines)
}

// The body at a level of a PATH-DATA, inside of which so many levels of others may stand.
#[inline(always)]
#[cycle(write)]
fn write_body(
    to: &mut TlvWriter,
    kind: OperKind,
    depth: usize,
    level: usize,
    lines: &mut Lines,
) -> Result<(), Unwritten>
    requires { level + depth < 20 }
    ensures exact { Writes result (body_at kind depth level lines.old) lines.new body_written to.old to.new }
    ensures less { OnOk result (length lines.new.lines ≤ length lines.old.lines) }
{
    if depth == 0 {
        return write_last_body(to, kind, level, lines);
    }
    write_open_body(to, kind, depth - 1, level, lines)
}

/// The PATH-DATA at a level, the line of the first of which says this, inside of which so many levels of others may stand.
#[cycle(write)]
pub fn write_paths(
    to: &mut TlvWriter,
    kind: OperKind,
    depth: usize,
    level: usize,
    said: PathLine,
    lines: &mut Lines,
) -> Result<(), Unwritten>
    requires { level + depth < 19 }
    ensures exact { Writes result (paths_of (body_at kind depth) level (steps_said said.entry) lines.old) lines.new (λ paths. joined (map path_written paths)) to.old to.new }
    ensures less { OnOk result (length lines.new.lines ≤ length lines.old.lines) }
{
    write_path(to, kind, depth, level, said, lines)?;
    'lines: while lines.stands_at(level) {
        write_path_line(to, kind, depth, level, lines)?;
    }
    Ok(())
}
