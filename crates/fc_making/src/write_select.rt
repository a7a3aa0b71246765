// Writing operations and selects while their lines are read.
ghost use Rattle.std.specs.Prelude.{◌≡◌, ◌≤◌, ◌<◌, ◌++◌, length, map, OnOk};
ghost use Rattle.fc_wire.specs.Bytes.{u32_bytes};
ghost use Rattle.fc_wire.specs.Writing.{writing};
ghost use Rattle.fc_path.specs.Canon.{joined, oper_written, path_written, select_written};
ghost use Rattle.fc_text.specs.TextReading.{many_at, oper_at, operation_at, operation_paths_at, select_at, some_at};
ghost use Rattle.fc_making.specs.Writes.{Writes, operation_written};

use crate::unwritten::Unwritten;
use crate::write_path::write_paths;
use fc_base::{Code, Memory};
use fc_lines::{Lines, code_line, operation_line, path_line, select_line};
use fc_path::{OperKind, Operation, write_leaf, write_response};
use fc_text::DEPTH;
use fc_wire::{COMMIT, SELECT, TRCOMP, TlvWriter};

// The PATH-DATA of an operation, of which there is at least one.
fn write_all_paths(
    to: &mut TlvWriter,
    kind: OperKind,
    level: usize,
    lines: &mut Lines,
) -> Result<(), Unwritten>
    requires { level ≤ 3 }
    ensures exact { Writes result (operation_paths_at kind level lines.old) lines.new (λ paths. joined (map path_written paths)) to.old to.new }
    ensures less { OnOk result (length lines.new.lines < length lines.old.lines) }
{
    let said = path_line(level, lines)?;
    write_paths(to, kind, DEPTH - 1, level, said, lines)
}

// An operation that holds PATH-DATA.
fn write_holding(
    to: &mut TlvWriter,
    kind: OperKind,
    level: usize,
    lines: &mut Lines,
) -> Result<(), Unwritten>
    requires { level ≤ 3 }
    ensures exact { Writes result (operation_paths_at kind level lines.old) lines.new (operation_written kind) to.old to.new }
    ensures less { OnOk result (length lines.new.lines < length lines.old.lines) }
{
    let begun = to.begin(kind.number())?;
    write_all_paths(to, kind, level, lines)?;
    to.end(begun)?;
    Ok(())
}

// What stands below the line of an operation, from a level on.
fn write_operation(
    to: &mut TlvWriter,
    operation: Operation,
    level: usize,
    lines: &mut Lines,
) -> Result<(), Unwritten>
    requires { level ≤ 3 }
    ensures exact { Writes result (operation_at operation level lines.old) lines.new oper_written to.old to.new }
    ensures less { OnOk result (length lines.new.lines ≤ length lines.old.lines) }
{
    match operation {
        Operation::Paths(kind) => write_holding(to, kind, level, lines),
        Operation::Commit => {
            write_leaf(to, COMMIT, &[])?;
            Ok(())
        }
        Operation::Trcomp => {
            write_leaf(to, TRCOMP, &[])?;
            Ok(())
        }
        Operation::CommitResponse => {
            let code = code_line(level, lines)?;
            write_response(to, Code(code))?;
            Ok(())
        }
    }
}

// An operation at a level of a message of a type.
fn write_oper(
    to: &mut TlvWriter,
    message: u8,
    level: usize,
    lines: &mut Lines,
) -> Result<(), Unwritten>
    requires { level ≤ 2 }
    ensures exact { Writes result (oper_at message level lines.old) lines.new oper_written to.old to.new }
    ensures less { OnOk result (length lines.new.lines < length lines.old.lines) }
{
    let operation = operation_line(message, level, lines)?;
    write_operation(to, operation, level + 1, lines)
}

// The operations at a level, of which there is at least one.
fn write_opers(
    to: &mut TlvWriter,
    message: u8,
    level: usize,
    lines: &mut Lines,
) -> Result<(), Unwritten>
    requires { level ≤ 2 }
    ensures exact { Writes result (some_at level (oper_at message level) lines.old) lines.new (λ opers. joined (map oper_written opers)) to.old to.new }
    ensures less { OnOk result (length lines.new.lines ≤ length lines.old.lines) }
{
    write_oper(to, message, level, lines)?;
    'lines: while lines.stands_at(level) {
        write_oper(to, message, level, lines)?;
    }
    Ok(())
}

// The class and the instance of an LFBselect.
fn put_names(to: &mut TlvWriter, class: u32, instance: u32) -> Result<(), Memory>
    ensures { OnOk result (to.new ≡ writing (to.old.text ++ (u32_bytes class ++ u32_bytes instance)) to.old.places) }
{
    to.put_u32(class)?;
    to.put_u32(instance)
}

// An LFBselect at a level of a message of a type.
fn write_select(
    to: &mut TlvWriter,
    message: u8,
    level: usize,
    lines: &mut Lines,
) -> Result<(), Unwritten>
    requires { level ≤ 1 }
    ensures exact { Writes result (select_at message level lines.old) lines.new select_written to.old to.new }
    ensures less { OnOk result (length lines.new.lines < length lines.old.lines) }
{
    let (class, instance) = select_line(level, lines)?;
    let begun = to.begin(SELECT)?;
    put_names(to, class, instance)?;
    write_opers(to, message, level + 1, lines)?;
    to.end(begun)?;
    Ok(())
}

/// The LFBselects at a level of a message of a type.
pub fn write_selects(
    to: &mut TlvWriter,
    message: u8,
    level: usize,
    lines: &mut Lines,
) -> Result<(), Unwritten>
    requires { level ≤ 1 }
    ensures exact { Writes result (many_at level (select_at message level) lines.old) lines.new (λ selects. joined (map select_written selects)) to.old to.new }
    ensures less { OnOk result (length lines.new.lines ≤ length lines.old.lines) }
{
    'lines: while lines.stands_at(level) {
        write_select(to, message, level, lines)?;
    }
    Ok(())
}

/// The same, of which there is at least one.
pub fn write_some_selects(
    to: &mut TlvWriter,
    message: u8,
    level: usize,
    lines: &mut Lines,
) -> Result<(), Unwritten>
    requires { level ≤ 1 }
    ensures exact { Writes result (some_at level (select_at message level) lines.old) lines.new (λ selects. joined (map select_written selects)) to.old to.new }
    ensures less { OnOk result (length lines.new.lines ≤ length lines.old.lines) }
{
    write_select(to, message, level, lines)?;
    'lines: while lines.stands_at(level) {
        write_select(to, message, level, lines)?;
    }
    Ok(())
}
