// Messages to text.
ghost use Rattle.std.specs.Prelude.{◌≡◌, ◌++◌, ◌+◌, Some, codes, OnOk, OnErr, IfOk};
ghost use Rattle.std.specs.List.{flat_map};
ghost use Rattle.fc_showing.specs.Appending.{Keeps};
ghost use Rattle.fc_text.specs.Text.{body_text, code_text, content_text, fields_text, full_text, head_text, id_text, ilv_text, indent, key_text, message_text, number_text, oper_line, oper_text, path_line, path_text, response_text, select_line, select_text, selects_text, sparse_text};

use crate::append::{extend, push};
use crate::decimal::push_decimal;
use crate::hexes::push_word;
use crate::names::{message_name, operation_name};
use fc_base::{
    Code, Memory, digits_of_eight, digits_of_four, eight_digits, sixteen_digits, two_digits,
};
use fc_msg::{Message, MsgBody};
use fc_path::{Body, Key, Oper, PathData, Select};
use fc_wire::Ilv;

/// Appends the text of the message (this profile's own): a line with its type, sender, addressee, correlator and flags, whose
/// free bits are zero, and the lines of its body, each level of which is indented by two spaces more. After an `Err` nothing
/// has changed.
pub fn show(message: &Message, into: &mut Vec<u8>) -> Result<(), Memory>
    ensures ok { OnOk result (into.new.items ≡ into.old.items ++ message_text message.now) }
    ensures err { OnErr result (into.new.items ≡ into.old.items) }
{
    let start = into.len();
    match push_message(into, message) {
        Ok(()) => Ok(()),
        Err(fault) => {
            into.truncate(start);
            Err(fault)
        }
    }
}

// The text of the message. After an `Err` some of it may stand there.
#[tactic(auto, unfolding(fc_text::specs::Text::message_text))]
fn push_message(into: &mut Vec<u8>, message: &Message) -> Result<(), Memory>
    ensures text { OnOk result (into.new.items ≡ into.old.items ++ message_text message.now) }
    ensures kept { Keeps into.old.items into.new.items }
{
    push_head(into, message)?;
    push_content(into, &message.body)
}

// The line of the header.
#[tactic(auto, unfolding(fc_text::specs::Text::head_text))]
fn push_head(into: &mut Vec<u8>, message: &Message) -> Result<(), Memory>
    ensures text { OnOk result (into.new.items ≡ into.old.items ++ head_text message.now) }
    ensures kept { Keeps into.old.items into.new.items }
{
    extend(into, message_name(&message.body).as_bytes())?;
    extend(into, &fields(message))
}

/// What stands in that line behind the name.
#[inline(never)]
pub fn fields(message: &Message) -> [u8; 64]
    ensures { result ≡ fields_text message.now }
{
    let source = eight_digits(message.source);
    let dest = eight_digits(message.dest);
    let corr = sixteen_digits(message.corr);
    let flags = eight_digits(message.flags.word());
    [
        b' ', b'f', b'r', b'o', b'm', b'=', source[0], source[1], source[2], source[3], source[4],
        source[5], source[6], source[7], b' ', b't', b'o', b'=', dest[0], dest[1], dest[2],
        dest[3], dest[4], dest[5], dest[6], dest[7], b' ', b'c', b'o', b'r', b'r', b'=', corr[0],
        corr[1], corr[2], corr[3], corr[4], corr[5], corr[6], corr[7], corr[8], corr[9], corr[10],
        corr[11], corr[12], corr[13], corr[14], corr[15], b' ', b'f', b'l', b'a', b'g', b's', b'=',
        flags[0], flags[1], flags[2], flags[3], flags[4], flags[5], flags[6], flags[7], b'\n',
    ]
}

// The lines of a body.
fn push_content(into: &mut Vec<u8>, body: &MsgBody) -> Result<(), Memory>
    ensures text { OnOk result (into.new.items ≡ into.old.items ++ content_text body.now) }
    ensures kept { Keeps into.old.items into.new.items }
{
    match body {
        MsgBody::Setup(selects) => push_selects(into, selects.as_slice()),
        MsgBody::SetupResponse(result) => push_number(into, b"  result ", *result),
        MsgBody::Teardown(reason) => push_number(into, b"  reason ", *reason),
        MsgBody::Config(selects) => push_selects(into, selects.as_slice()),
        MsgBody::ConfigResponse(selects) => push_selects(into, selects.as_slice()),
        MsgBody::Query(selects) => push_selects(into, selects.as_slice()),
        MsgBody::QueryResponse(selects) => push_selects(into, selects.as_slice()),
        MsgBody::Event(selects) => push_selects(into, selects.as_slice()),
        MsgBody::Heartbeat => Ok(()),
    }
}

/// A line with a number.
pub fn push_number(into: &mut Vec<u8>, name: &[u8], number: u32) -> Result<(), Memory>
    ensures text { OnOk result (into.new.items ≡ into.old.items ++ number_text name.now number) }
    ensures kept { Keeps into.old.items into.new.items }
{
    extend(into, name)?;
    push_decimal(into, number)?;
    push(into, b'\n')
}

fn push_selects(into: &mut Vec<u8>, selects: &[Select]) -> Result<(), Memory>
    ensures text { OnOk result (into.new.items ≡ into.old.items ++ selects_text selects.now) }
    ensures kept { Keeps into.old.items into.new.items }
{
    for select in selects {
        push_select(into, select)?;
    }
    Ok(())
}

fn push_select(into: &mut Vec<u8>, select: &Select) -> Result<(), Memory>
    ensures text { OnOk result (into.new.items ≡ into.old.items ++ select_text select.now) }
    ensures kept { Keeps into.old.items into.new.items }
{
    push_select_line(into, select.class, select.instance)?;
    push_opers(into, select.opers.as_slice())
}

/// The line of an LFBselect.
pub fn push_select_line(into: &mut Vec<u8>, class: u32, instance: u32) -> Result<(), Memory>
    ensures text { OnOk result (into.new.items ≡ into.old.items ++ select_line class instance) }
    ensures kept { Keeps into.old.items into.new.items }
{
    extend(into, &names(class, instance))
}

// The line of an LFBselect.
#[inline(always)]
fn names(class: u32, instance: u32) -> [u8; 24]
    ensures { result ≡ select_line class instance }
{
    let class = eight_digits(class);
    let instance = eight_digits(instance);
    [
        b' ',
        b' ',
        b'l',
        b'f',
        b'b',
        b' ',
        class[0],
        class[1],
        class[2],
        class[3],
        class[4],
        class[5],
        class[6],
        class[7],
        b' ',
        instance[0],
        instance[1],
        instance[2],
        instance[3],
        instance[4],
        instance[5],
        instance[6],
        instance[7],
        b'\n',
    ]
}

fn push_opers(into: &mut Vec<u8>, opers: &[Oper]) -> Result<(), Memory>
    ensures text { OnOk result (into.new.items ≡ into.old.items ++ flat_map oper_text opers.now) }
    ensures kept { Keeps into.old.items into.new.items }
{
    for oper in opers {
        push_oper(into, oper)?;
    }
    Ok(())
}

fn push_oper(into: &mut Vec<u8>, oper: &Oper) -> Result<(), Memory>
    ensures text { OnOk result (into.new.items ≡ into.old.items ++ oper_text oper.now) }
    ensures kept { Keeps into.old.items into.new.items }
{
    match oper {
        Oper::Paths(kind, paths) => {
            push_line(into, operation_name(*kind).as_bytes())?;
            push_paths(into, 3, paths.as_slice())
        }
        Oper::Commit => push_line(into, b"COMMIT"),
        Oper::Trcomp => push_line(into, b"TRCOMP"),
        Oper::CommitResponse(code) => push_response(into, *code),
    }
}

/// The lines of a COMMIT-RESPONSE.
pub fn push_response(into: &mut Vec<u8>, code: Code) -> Result<(), Memory>
    ensures text { OnOk result (into.new.items ≡ into.old.items ++ response_text code) }
    ensures kept { Keeps into.old.items into.new.items }
{
    push_line(into, b"COMMIT-RESPONSE")?;
    push_code(into, 3, code)
}

/// The line of an operation.
#[tactic(auto, unfolding(fc_text::specs::Text::oper_line))]
pub fn push_line(into: &mut Vec<u8>, name: &[u8]) -> Result<(), Memory>
    ensures text { OnOk result (into.new.items ≡ into.old.items ++ oper_line name.now) }
    ensures kept { Keeps into.old.items into.new.items }
{
    extend(into, b"    ")?;
    extend(into, name)?;
    push(into, b'\n')
}

// Two spaces for each level. The levels that are met most are appended at once.
#[inline(always)]
fn push_indent(into: &mut Vec<u8>, level: usize) -> Result<(), Memory>
    ensures text { OnOk result (into.new.items ≡ into.old.items ++ indent level) }
    ensures kept { Keeps into.old.items into.new.items }
{
    if level == 3 {
        return extend(into, b"      ");
    }
    if level == 4 {
        return extend(into, b"        ");
    }
    if level == 5 {
        return extend(into, b"          ");
    }
    push_spaces(into, level)
}

// Two spaces for each level, one level after the other.
fn push_spaces(into: &mut Vec<u8>, level: usize) -> Result<(), Memory>
    ensures text { OnOk result (into.new.items ≡ into.old.items ++ indent level) }
    ensures kept { Keeps into.old.items into.new.items }
{
    for _ in 0..level {
        extend(into, b"  ")?;
    }
    Ok(())
}

/// The line of a code.
#[tactic(auto, unfolding(fc_text::specs::Text::code_text))]
pub fn push_code(into: &mut Vec<u8>, level: usize, code: Code) -> Result<(), Memory>
    ensures text { OnOk result (into.new.items ≡ into.old.items ++ code_text level code) }
    ensures kept { Keeps into.old.items into.new.items }
{
    push_indent(into, level)?;
    extend(into, b"code ")?;
    extend(into, &two_digits(code.0))?;
    push(into, b'\n')
}

/// The level below. It is out of memory where there are more than can be counted.
pub fn below(level: usize) -> Result<usize, Memory>
    ensures { IfOk result (λ n. n ≡ level + 1) }
{
    match level.checked_add(1) {
        Some(level) => Ok(level),
        None => Err(Memory),
    }
}

#[cycle(show)]
fn push_paths(into: &mut Vec<u8>, level: usize, paths: &[PathData]) -> Result<(), Memory>
    ensures text { OnOk result (into.new.items ≡ into.old.items ++ flat_map (λ path. path_text path level) paths.now) }
    ensures kept { Keeps into.old.items into.new.items }
{
    for path in paths {
        push_path(into, level, path)?;
    }
    Ok(())
}

// The lines of a PATH-DATA at a level.
#[cycle(show)]
fn push_path(into: &mut Vec<u8>, level: usize, path: &PathData) -> Result<(), Memory>
    ensures text { OnOk result (into.new.items ≡ into.old.items ++ path_text path.now level) }
    ensures kept { Keeps into.old.items into.new.items }
{
    push_path_line(into, level, path.ids.as_slice(), &path.key)?;
    let level = below(level)?;
    push_body(into, level, &path.body)
}

#[cycle(show)]
fn push_body(into: &mut Vec<u8>, level: usize, body: &Body) -> Result<(), Memory>
    ensures text { OnOk result (into.new.items ≡ into.old.items ++ body_text body.now level) }
    ensures kept { Keeps into.old.items into.new.items }
{
    match body {
        Body::Nothing => Ok(()),
        Body::Full(value) => push_full(into, level, value.as_slice()),
        Body::Sparse(ilvs) => push_sparse(into, level, ilvs.as_slice()),
        Body::Outcome(code) => push_code(into, level, *code),
        Body::Nested(paths) => push_paths(into, level, paths.as_slice()),
    }
}

/// The first word of the line of a PATH-DATA. That at the third level, which is met most, is appended at once.
#[inline(always)]
pub fn push_path_word(into: &mut Vec<u8>, level: usize) -> Result<(), Memory>
    ensures text { OnOk result (into.new.items ≡ into.old.items ++ (indent level ++ codes "path")) }
    ensures kept { Keeps into.old.items into.new.items }
{
    if level == 3 {
        return extend(into, b"      path");
    }
    push_indent(into, level)?;
    extend(into, b"path")
}

// The line of a PATH-DATA.
#[tactic(auto, unfolding(fc_text::specs::Text::path_line))]
fn push_path_line(
    into: &mut Vec<u8>,
    level: usize,
    ids: &[u32],
    key: &Option<Key>,
) -> Result<(), Memory>
    ensures text { OnOk result (into.new.items ≡ into.old.items ++ path_line level ids.now key.now) }
    ensures kept { Keeps into.old.items into.new.items }
{
    push_path_word(into, level)?;
    push_ids(into, ids)?;
    push_key(into, key)?;
    push(into, b'\n')
}

fn push_ids(into: &mut Vec<u8>, ids: &[u32]) -> Result<(), Memory>
    ensures text { OnOk result (into.new.items ≡ into.old.items ++ flat_map id_text ids.now) }
    ensures kept { Keeps into.old.items into.new.items }
{
    for id in ids {
        push(into, b' ')?;
        push_decimal(into, *id)?;
    }
    Ok(())
}

fn push_key(into: &mut Vec<u8>, key: &Option<Key>) -> Result<(), Memory>
    ensures text { OnOk result (into.new.items ≡ into.old.items ++ key_text key.now) }
    ensures kept { Keeps into.old.items into.new.items }
{
    match key {
        None => Ok(()),
        Some(key) => push_key_words(into, key.ident, key.value.as_slice()),
    }
}

/// The words of a key in the line of a PATH-DATA.
#[inline(always)]
pub fn push_key_words(into: &mut Vec<u8>, ident: u32, value: &[u8]) -> Result<(), Memory>
    ensures text { OnOk result (into.new.items ≡ into.old.items ++ key_text (Some (record { ident = ident; value = value.now }))) }
    ensures kept { Keeps into.old.items into.new.items }
{
    extend(into, b" key ")?;
    push_decimal(into, ident)?;
    push(into, b' ')?;
    push_word(into, value)
}

// The line of a whole value.
#[tactic(auto, unfolding(fc_text::specs::Text::full_text))]
fn push_full(into: &mut Vec<u8>, level: usize, value: &[u8]) -> Result<(), Memory>
    ensures text { OnOk result (into.new.items ≡ into.old.items ++ full_text level value.now) }
    ensures kept { Keeps into.old.items into.new.items }
{
    push_indent(into, level)?;
    extend(into, b"full ")?;
    push_word(into, value)?;
    push(into, b'\n')
}

// The line of a whole value of four bytes, at the fourth level.
#[inline(always)]
fn four_bytes(value: &[u8; 4]) -> [u8; 22]
    ensures { result ≡ full_text 4 value.now }
{
    let d = digits_of_four(value);
    [
        b' ', b' ', b' ', b' ', b' ', b' ', b' ', b' ', b'f', b'u', b'l', b'l', b' ', d[0], d[1],
        d[2], d[3], d[4], d[5], d[6], d[7], b'\n',
    ]
}

// The line of a whole value of eight bytes, at the fourth level.
#[inline(always)]
fn eight_bytes(value: &[u8; 8]) -> [u8; 30]
    ensures { result ≡ full_text 4 value.now }
{
    let d = digits_of_eight(value);
    [
        b' ', b' ', b' ', b' ', b' ', b' ', b' ', b' ', b'f', b'u', b'l', b'l', b' ', d[0], d[1],
        d[2], d[3], d[4], d[5], d[6], d[7], d[8], d[9], d[10], d[11], d[12], d[13], d[14], d[15],
        b'\n',
    ]
}

// The line of a whole value of eight bytes at the fourth level, or of another one.
#[inline(always)]
fn push_eight(into: &mut Vec<u8>, value: &[u8]) -> Result<(), Memory>
    ensures text { OnOk result (into.new.items ≡ into.old.items ++ full_text 4 value.now) }
    ensures kept { Keeps into.old.items into.new.items }
{
    if let Some((eight, more)) = value.split_first_chunk::<8>() {
        if more.is_empty() {
            return extend(into, &eight_bytes(eight));
        }
    }
    push_full(into, 4, value)
}

// The line of a whole value at the fourth level. That of four bytes, which is met most, is appended at once.
#[inline(always)]
fn push_value(into: &mut Vec<u8>, value: &[u8]) -> Result<(), Memory>
    ensures text { OnOk result (into.new.items ≡ into.old.items ++ full_text 4 value.now) }
    ensures kept { Keeps into.old.items into.new.items }
{
    if let Some((four, more)) = value.split_first_chunk::<4>() {
        if more.is_empty() {
            return extend(into, &four_bytes(four));
        }
    }
    push_eight(into, value)
}

/// The line of a whole value. Those of four and of eight bytes at the fourth level are appended at once.
#[inline(always)]
pub fn push_whole(into: &mut Vec<u8>, level: usize, value: &[u8]) -> Result<(), Memory>
    ensures text { OnOk result (into.new.items ≡ into.old.items ++ full_text level value.now) }
    ensures kept { Keeps into.old.items into.new.items }
{
    if level == 4 {
        return push_value(into, value);
    }
    push_full(into, level, value)
}

/// The line above the ILVs of a SPARSEDATA. That at the fourth level, which is met most, is appended at once.
pub fn push_sparse_line(into: &mut Vec<u8>, level: usize) -> Result<(), Memory>
    ensures text { OnOk result (into.new.items ≡ into.old.items ++ (indent level ++ codes "sparse\n")) }
    ensures kept { Keeps into.old.items into.new.items }
{
    if level == 4 {
        return extend(into, b"        sparse\n");
    }
    push_indent(into, level)?;
    extend(into, b"sparse\n")
}

#[tactic(auto, unfolding(fc_text::specs::Text::sparse_text))]
fn push_sparse(into: &mut Vec<u8>, level: usize, ilvs: &[Ilv]) -> Result<(), Memory>
    ensures text { OnOk result (into.new.items ≡ into.old.items ++ sparse_text level ilvs.now) }
    ensures kept { Keeps into.old.items into.new.items }
{
    push_sparse_line(into, level)?;
    let level = below(level)?;
    push_ilvs(into, level, ilvs)
}

fn push_ilvs(into: &mut Vec<u8>, level: usize, ilvs: &[Ilv]) -> Result<(), Memory>
    ensures text { OnOk result (into.new.items ≡ into.old.items ++ flat_map (ilv_text level) ilvs.now) }
    ensures kept { Keeps into.old.items into.new.items }
{
    for ilv in ilvs {
        push_ilv(into, level, ilv)?;
    }
    Ok(())
}

fn push_ilv(into: &mut Vec<u8>, level: usize, ilv: &Ilv) -> Result<(), Memory>
    ensures text { OnOk result (into.new.items ≡ into.old.items ++ ilv_text level ilv.now) }
    ensures kept { Keeps into.old.items into.new.items }
{
    push_part(into, level, ilv.ident, ilv.value.as_slice())
}

/// The line of an ILV.
#[inline(always)]
#[tactic(auto, unfolding(fc_text::specs::Text::ilv_text))]
pub fn push_part(into: &mut Vec<u8>, level: usize, ident: u32, value: &[u8]) -> Result<(), Memory>
    ensures text { OnOk result (into.new.items ≡ into.old.items ++ ilv_text level (record { ident = ident; value = value.now })) }
    ensures kept { Keeps into.old.items into.new.items }
{
    push_indent(into, level)?;
    extend(into, b"ilv ")?;
    push_decimal(into, ident)?;
    push(into, b' ')?;
    push_word(into, value)?;
    push(into, b'\n')
}
