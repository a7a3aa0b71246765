// What each kind of line says, lent without memory: it is checked when its line is read, so that the first word that does not
// fit is told, and whoever wants a value takes it from what is lent.
ghost use Rattle.std.specs.Prelude.{◌≡◌, ◌≤◌, ◌<◌, ◌&&◌, not, length, OnOk};
ghost use Rattle.std.specs.Result.{IsErrOf};
ghost use Rattle.fc_path.specs.Kinds.{takes_nothing};
ghost use Rattle.fc_lines.specs.TextPlaces.{Gives, Lends, Reads, ReadsAs};
ghost use Rattle.fc_lines.specs.LineWords.{stands_at};
ghost use Rattle.fc_lines.specs.LineReading.{body_head, body_head_at, body_said, code_in, head_at, ilv_at, ilv_of, key_in, key_of, leaf_head, leaf_head_at, leaf_said, lfb_at, name_at, number_at, outcome_at, steps_at, steps_in, steps_said};
ghost use Rattle.fc_lines.specs.declared.fault.TextFault.TheVariants.{Memory};

use crate::TextFault;
use crate::hex_word::HexWord;
use crate::label::Label;
use crate::lines::Lines;
use crate::numbers::Numbers;
use crate::values::decimal_of;
use crate::words::{Word, Words, is};
use fc_path::{OperKind, Operation};

/// What the line of a message says.
#[derive(Clone, Copy, Debug)]
pub struct Head {
    /// The type of the message.
    pub kind: u8,
    /// The ID of the source.
    pub source: u32,
    /// The ID of the destination.
    pub dest: u32,
    /// The correlator.
    pub corr: u64,
    /// The word of the flags, whose free bits may stand.
    pub flags: u32,
}

/// A number and bytes, as a key and an ILV have them.
#[derive(Debug, Drop)]
pub struct Numbered<'a> {
    /// The number of the key or of the ILV, of 32 bits.
    pub number: u32,
    /// The bytes of its value.
    pub bytes: HexWord<'a>,
}

/// What the line of a PATH-DATA says.
#[derive(Debug, Drop)]
pub struct PathLine<'a> {
    /// The IDs of the steps, from outside to inside.
    pub ids: Numbers<'a>,
    /// A last step, by a key.
    pub key: Option<Numbered<'a>>,
}

/// What the first line of the body of a PATH-DATA says, which holds no others.
#[derive(Debug, Drop)]
pub enum LeafLine<'a> {
    /// A whole value.
    Full(HexWord<'a>),
    /// That parts of a value follow, each in a line of its own one level deeper.
    Sparse,
    /// How an operation ended.
    Outcome(u8),
}

/// What the first line of the body of a PATH-DATA says, in which others may stand.
#[derive(Debug, Drop)]
pub enum BodyLine<'a> {
    /// What it says where none stands in it.
    Leaf(LeafLine<'a>),
    /// The first of the PATH-DATA in it. Others may follow at the same level.
    Path(PathLine<'a>),
}

/// The line of a message, at level 0. Else `At` the first word that does not fit, or column 1 where no line stands at that
/// level.
#[inline(always)]
#[tactic(auto, unfolding(crate::specs::LineReading::head_at))]
pub fn head_line(lines: &mut Lines) -> Result<Head, TextFault>
    ensures exact { Reads result (head_at lines.old) lines.new }
    ensures less { OnOk result (length lines.new.lines < length lines.old.lines) }
    ensures sure { IsErrOf result Memory → ⊥ }
{
    let mut words = lines.open(0)?;
    let kind = words.message()?;
    let source = words.labelled_eight(Label::From)?;
    let dest = words.labelled_eight(Label::To)?;
    let corr = words.labelled_sixteen(Label::Corr)?;
    let flags = words.labelled_eight(Label::Flags)?;
    lines.close(words)?;
    Ok(Head {
        kind,
        source,
        dest,
        corr,
        flags,
    })
}

/// The line of a number behind a name, at level 1. Else `At` the first word that does not fit, or column 1 where no line stands
/// at that level.
#[tactic(auto, unfolding(crate::specs::LineReading::number_at))]
pub fn number_line(name: &[u8], lines: &mut Lines) -> Result<u32, TextFault>
    ensures exact { Reads result (number_at name.now lines.old) lines.new }
    ensures less { OnOk result (length lines.new.lines < length lines.old.lines) }
    ensures sure { IsErrOf result Memory → ⊥ }
{
    let mut words = lines.open(1)?;
    words.exactly(name)?;
    let number = words.decimal()?;
    lines.close(words)?;
    Ok(number)
}

/// The line of an LFBselect at a level: its class and its instance. Else `At` the first word that does not fit, or column 1
/// where no line stands at that level, of 0 to 20.
#[tactic(auto, unfolding(crate::specs::LineReading::lfb_at))]
pub fn select_line(level: usize, lines: &mut Lines) -> Result<(u32, u32), TextFault>
    requires { level ≤ 20 }
    ensures exact { Reads result (lfb_at level lines.old) lines.new }
    ensures less { OnOk result (length lines.new.lines < length lines.old.lines) }
    ensures sure { IsErrOf result Memory → ⊥ }
{
    let mut words = lines.open(level)?;
    words.exactly(b"lfb")?;
    let class = words.eight_digits()?;
    let instance = words.eight_digits()?;
    lines.close(words)?;
    Ok((class, instance))
}

/// The line of an operation at a level, which may stand in a message of a type. Else `At` the first word that does not fit, or
/// column 1 where no line stands at that level, of 0 to 20.
#[tactic(auto, unfolding(crate::specs::LineReading::name_at))]
pub fn operation_line(message: u8, level: usize, lines: &mut Lines) -> Result<Operation, TextFault>
    requires { level ≤ 20 }
    ensures exact { Reads result (name_at message level lines.old) lines.new }
    ensures less { OnOk result (length lines.new.lines < length lines.old.lines) }
    ensures sure { IsErrOf result Memory → ⊥ }
{
    let mut words = lines.open(level)?;
    let operation = words.operation(message)?;
    lines.close(words)?;
    Ok(operation)
}

/// The line of an ILV at a level. Else `At` the first word that does not fit, or column 1 where no line stands at that level, of
/// 0 to 20.
#[inline(always)]
#[tactic(auto, unfolding(crate::specs::LineReading::ilv_at))]
pub fn ilv_line<'a>(level: usize, lines: &mut Lines<'a>) -> Result<Numbered<'a>, TextFault>
    requires { level ≤ 20 }
    ensures exact { ReadsAs ilv_of result (ilv_at level lines.old) lines.new }
    ensures less { OnOk result (length lines.new.lines < length lines.old.lines) }
    ensures sure { IsErrOf result Memory → ⊥ }
{
    let mut words = lines.open(level)?;
    words.exactly(b"ilv")?;
    let number = words.decimal()?;
    let bytes = words.octets()?;
    lines.close(words)?;
    Ok(Numbered { number, bytes })
}

// A code, with which its line ends.
#[tactic(auto, unfolding(crate::specs::LineReading::code_in))]
fn read_code<'a>(mut words: Words<'a>, lines: &mut Lines<'a>) -> Result<u8, TextFault>
    ensures exact { Gives result (code_in words.entry.0) }
    ensures behind { OnOk result (lines.new ≡ words.entry.1) }
    ensures sure { IsErrOf result Memory → ⊥ }
{
    let code = words.two_digits()?;
    lines.close(words)?;
    Ok(code)
}

/// The line of a code at a level. Else `At` the first word that does not fit, or column 1 where no line stands at that level, of
/// 0 to 20.
#[tactic(auto, unfolding(crate::specs::LineReading::outcome_at))]
pub fn code_line(level: usize, lines: &mut Lines) -> Result<u8, TextFault>
    requires { level ≤ 20 }
    ensures exact { Reads result (outcome_at level lines.old) lines.new }
    ensures less { OnOk result (length lines.new.lines < length lines.old.lines) }
    ensures sure { IsErrOf result Memory → ⊥ }
{
    let mut words = lines.open(level)?;
    words.exactly(b"code")?;
    read_code(words, lines)
}

// The number and the value of a key, with which its line ends.
#[inline(always)]
#[tactic(auto, unfolding(crate::specs::LineReading::key_in))]
fn read_key<'a>(mut words: Words<'a>, lines: &mut Lines<'a>) -> Result<Numbered<'a>, TextFault>
    ensures exact { Lends key_of result (key_in words.entry.0) }
    ensures behind { OnOk result (lines.new ≡ words.entry.1) }
    ensures sure { IsErrOf result Memory → ⊥ }
{
    let number = words.decimal()?;
    let bytes = words.octets()?;
    lines.close(words)?;
    Ok(Numbered { number, bytes })
}

// The IDs and the key of a PATH-DATA, with which its line ends.
#[inline(always)]
#[tactic(auto, unfolding(crate::specs::LineReading::steps_in))]
fn read_steps<'a>(mut words: Words<'a>, lines: &mut Lines<'a>) -> Result<PathLine<'a>, TextFault>
    ensures exact { Lends steps_said result (steps_in words.entry.0) }
    ensures behind { OnOk result (lines.new ≡ words.entry.1) }
    ensures sure { IsErrOf result Memory → ⊥ }
{
    let first = words.again();
    let mut count = 0usize;
    'ids: while let Some(_) = words.quick_decimal() {
        count += 1;
    }
    'words: while let Some(word) = words.next() {
        if is(word.text, b"key") {
            let key = read_key(words, lines)?;
            return Ok(PathLine {
                ids: Numbers::over(first, count),
                key: Some(key),
            });
        }
        match decimal_of(word.text) {
            Some(_) => count += 1,
            None => return Err(words.misfit(&word)),
        }
    }
    lines.go_on(words);
    Ok(PathLine {
        ids: Numbers::over(first, count),
        key: None,
    })
}

/// The line of a PATH-DATA at a level. Else `At` the first word that does not fit, or column 1 where no line stands at that
/// level, of 0 to 20.
#[inline(always)]
#[tactic(auto, unfolding(crate::specs::LineReading::steps_at))]
pub fn path_line<'a>(level: usize, lines: &mut Lines<'a>) -> Result<PathLine<'a>, TextFault>
    requires { level ≤ 20 }
    ensures exact { ReadsAs steps_said result (steps_at level lines.old) lines.new }
    ensures less { OnOk result (length lines.new.lines < length lines.old.lines) }
    ensures sure { IsErrOf result Memory → ⊥ }
{
    let mut words = lines.open(level)?;
    words.exactly(b"path")?;
    read_steps(words, lines)
}

// The rest of the first line of a body that holds no PATH-DATA.
#[inline(always)]
#[tactic(auto, unfolding(crate::specs::LineReading::leaf_head))]
fn read_leaf<'a>(
    kind: OperKind,
    word: &Word<'a>,
    mut words: Words<'a>,
    lines: &mut Lines<'a>,
) -> Result<LeafLine<'a>, TextFault>
    ensures exact { ReadsAs leaf_said result (leaf_head kind word.now words.entry.0 words.entry.1) lines.new }
    ensures behind { OnOk result (lines.new ≡ words.entry.1) }
    ensures sure { IsErrOf result Memory → ⊥ }
{
    if kind.takes_full() && is(word.text, b"full") {
        let value = words.octets()?;
        lines.close(words)?;
        return Ok(LeafLine::Full(value));
    }
    if kind.takes_sparse() && is(word.text, b"sparse") {
        lines.close(words)?;
        return Ok(LeafLine::Sparse);
    }
    if kind.takes_outcome() && is(word.text, b"code") {
        let code = read_code(words, lines)?;
        return Ok(LeafLine::Outcome(code));
    }
    Err(words.misfit(word))
}

/// The first line, at a level, of the body of a PATH-DATA of an operation, which holds no others. Else `At` the first word that
/// does not fit, or column 1 where no line stands at that level, of 0 to 20.
#[inline(always)]
#[tactic(auto, unfolding(crate::specs::LineReading::leaf_head_at))]
pub fn leaf_line<'a>(
    kind: OperKind,
    level: usize,
    lines: &mut Lines<'a>,
) -> Result<LeafLine<'a>, TextFault>
    requires { level ≤ 20 }
    ensures exact { ReadsAs leaf_said result (leaf_head_at kind level lines.old) lines.new }
    ensures less { OnOk result (length lines.new.lines < length lines.old.lines) }
    ensures sure { IsErrOf result Memory → ⊥ }
{
    let mut words = lines.open(level)?;
    let word = words.word()?;
    read_leaf(kind, &word, words, lines)
}

/// Whether a body has no line: its operation takes none, and no line stands at this level, of 0 to 20.
#[inline(always)]
pub fn is_bare(kind: OperKind, level: usize, lines: &Lines) -> bool
    requires { level ≤ 20 }
    ensures { result ≡ (takes_nothing kind && not (stands_at level lines.now.lines)) }
{
    kind.takes_nothing() && !lines.stands_at(level)
}

// The rest of the first line of a body in which PATH-DATA may stand.
#[inline(always)]
#[tactic(auto, unfolding(crate::specs::LineReading::body_head))]
fn read_body<'a>(
    kind: OperKind,
    word: &Word<'a>,
    words: Words<'a>,
    lines: &mut Lines<'a>,
) -> Result<BodyLine<'a>, TextFault>
    ensures exact { ReadsAs body_said result (body_head kind word.now words.entry.0 words.entry.1) lines.new }
    ensures behind { OnOk result (lines.new ≡ words.entry.1) }
    ensures sure { IsErrOf result Memory → ⊥ }
{
    if is(word.text, b"path") {
        let said = read_steps(words, lines)?;
        return Ok(BodyLine::Path(said));
    }
    let said = read_leaf(kind, word, words, lines)?;
    Ok(BodyLine::Leaf(said))
}

/// The first line, at a level, of the body of a PATH-DATA of an operation, in which others may stand. Else `At` the first word
/// that does not fit, or column 1 where no line stands at that level, of 0 to 20.
#[inline(always)]
#[tactic(auto, unfolding(crate::specs::LineReading::body_head_at))]
pub fn body_line<'a>(
    kind: OperKind,
    level: usize,
    lines: &mut Lines<'a>,
) -> Result<BodyLine<'a>, TextFault>
    requires { level ≤ 20 }
    ensures exact { ReadsAs body_said result (body_head_at kind level lines.old) lines.new }
    ensures less { OnOk result (length lines.new.lines < length lines.old.lines) }
    ensures sure { IsErrOf result Memory → ⊥ }
{
    let mut words = lines.open(level)?;
    let word = words.word()?;
    read_body(kind, &word, words, lines)
}
