// Building operations and selects from what lines say.
ghost use Rattle.std.specs.Prelude.{◌≡◌, ◌≤◌, ◌<◌, length, OnOk};
ghost use Rattle.fc_lines.specs.TextPlaces.{Reads};
ghost use Rattle.fc_text.specs.TextReading.{many_at, oper_at as oper_in, operation_at, operation_paths_at, select_at as select_in, some_at};

use crate::read_path::{read_outcome, read_paths};
use fc_base::{List, Shared};
use fc_lines::{Lines, TextFault, operation_line, path_line, select_line};
use fc_path::{Oper, OperKind, Operation, PathData, Select};
use std::alloc::Global;

/// So many PATH-DATA may stand in one another.
pub const DEPTH: usize = 16;

// The PATH-DATA of an operation, of which there is at least one.
fn read_operation_paths(
    alloc: Global,
    kind: OperKind,
    level: usize,
    lines: &mut Lines,
) -> Result<List<PathData>, TextFault>
    requires { level ≤ 3 }
    ensures exact { Reads result (operation_paths_at kind level lines.old) lines.new }
    ensures less { OnOk result (length lines.new.lines < length lines.old.lines) }
{
    let said = path_line(level, lines)?;
    read_paths(alloc, kind, DEPTH - 1, level, said, lines)
}

// What stands below the line of an operation, from a level on.
fn read_operation(
    alloc: Global,
    operation: Operation,
    level: usize,
    lines: &mut Lines,
) -> Result<Oper, TextFault>
    requires { level ≤ 3 }
    ensures exact { Reads result (operation_at operation level lines.old) lines.new }
    ensures less { OnOk result (length lines.new.lines ≤ length lines.old.lines) }
{
    match operation {
        Operation::Paths(kind) => {
            let paths = read_operation_paths(alloc, kind, level, lines)?;
            Ok(Oper::Paths(kind, Shared::of(paths)?))
        }
        Operation::Commit => Ok(Oper::Commit),
        Operation::Trcomp => Ok(Oper::Trcomp),
        Operation::CommitResponse => {
            let code = read_outcome(level, lines)?;
            Ok(Oper::CommitResponse(code))
        }
    }
}

// An operation at a level of a message of a type.
fn read_oper(alloc: Global, message: u8, level: usize, lines: &mut Lines) -> Result<Oper, TextFault>
    requires { level ≤ 2 }
    ensures exact { Reads result (oper_in message level lines.old) lines.new }
    ensures less { OnOk result (length lines.new.lines < length lines.old.lines) }
{
    let operation = operation_line(message, level, lines)?;
    read_operation(alloc, operation, level + 1, lines)
}

// The operations at a level, of which there is at least one.
#[tactic(auto, unfolding(crate::specs::TextReading::some_at))]
fn read_opers(
    alloc: Global,
    message: u8,
    level: usize,
    lines: &mut Lines,
) -> Result<List<Oper>, TextFault>
    requires { level ≤ 2 }
    ensures exact { Reads result (some_at level (oper_in message level) lines.old) lines.new }
    ensures less { OnOk result (length lines.new.lines ≤ length lines.old.lines) }
{
    let mut opers = List::new(alloc);
    let oper = read_oper(alloc, message, level, lines)?;
    opers.push(oper)?;
    'lines: while lines.stands_at(level) {
        let oper = read_oper(alloc, message, level, lines)?;
        opers.push(oper)?;
    }
    Ok(opers)
}

// An LFBselect at a level of a message of a type.
fn read_select(
    alloc: Global,
    message: u8,
    level: usize,
    lines: &mut Lines,
) -> Result<Select, TextFault>
    requires { level ≤ 1 }
    ensures exact { Reads result (select_in message level lines.old) lines.new }
    ensures less { OnOk result (length lines.new.lines < length lines.old.lines) }
{
    let (class, instance) = select_line(level, lines)?;
    let opers = read_opers(alloc, message, level + 1, lines)?;
    Ok(Select {
        class,
        instance,
        opers,
    })
}

/// The LFBselects at a level of a message of a type.
pub fn read_selects(
    alloc: Global,
    message: u8,
    level: usize,
    lines: &mut Lines,
) -> Result<List<Select>, TextFault>
    requires { level ≤ 1 }
    ensures exact { Reads result (many_at level (select_in message level) lines.old) lines.new }
    ensures less { OnOk result (length lines.new.lines ≤ length lines.old.lines) }
{
    let mut selects = List::new(alloc);
    'lines: while lines.stands_at(level) {
        let select = read_select(alloc, message, level, lines)?;
        selects.push(select)?;
    }
    Ok(selects)
}

/// The same, of which there is at least one.
#[tactic(auto, unfolding(crate::specs::TextReading::some_at))]
pub fn read_some_selects(
    alloc: Global,
    message: u8,
    level: usize,
    lines: &mut Lines,
) -> Result<List<Select>, TextFault>
    requires { level ≤ 1 }
    ensures exact { Reads result (some_at level (select_in message level) lines.old) lines.new }
    ensures less { OnOk result (length lines.new.lines ≤ length lines.old.lines) }
{
    let mut selects = List::new(alloc);
    let select = read_select(alloc, message, level, lines)?;
    selects.push(select)?;
    'lines: while lines.stands_at(level) {
        let select = read_select(alloc, message, level, lines)?;
        selects.push(select)?;
    }
    Ok(selects)
}
