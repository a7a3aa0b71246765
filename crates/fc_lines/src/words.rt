// The words of a line, which single spaces part.
ghost use Rattle.std.specs.Prelude.{◌≡◌, ◌≤◌, ◌<◌, ◌^◌, ◌+◌, ◌++◌, codes, length, take, drop, true, false, Some, None, [], ◌∷◌, Ok, IfSome, IfNone};
ghost use Rattle.std.specs.Str.{bytes_eq};
ghost use Rattle.std.specs.Result.{IsErrOf};
ghost use Rattle.fc_lines.specs.TextPlaces.{Gives, Reads, place};
ghost use Rattle.fc_lines.specs.WordValues.{given, digits_of};
ghost use Rattle.fc_lines.specs.LineWords.{QuickNumber, label_bytes, line_in, behind_line, lines_of, lines_left, IsPlain, EndsWord, open_from, words_left, word_in, ended, exactly as this, decimal_in, digits_in, octets_in, labelled_in, labelled_digits, first_word, rest_words};
ghost use Rattle.fc_lines.specs.LineReading.{operation_in, type_in};
ghost use Rattle.fc_lines.specs.declared.fault.TextFault.TheVariants.{At, Memory};

use crate::TextFault;
use crate::front::decimal_in_front;
use crate::hex_word::HexWord;
use crate::label::Label;
use crate::named::{message_named, operation_named};
use crate::values::{decimal_of, eight_digits_of, sixteen_digits_of, two_digits_of};
use fc_path::Operation;
use std::marker::Model;

/// A word of a line.
#[derive(Debug, Drop)]
pub struct Word<'a> {
    /// The column of its first byte, from 1.
    pub column: usize,
    /// The bytes, of which there are none between two spaces and behind one at the end.
    pub text: &'a [u8],
}

impl<'a> Model for Word<'a> {
    ghost use Rattle.fc_lines.specs.LineWords.{WordItem};

    ghost Value = { WordItem };

    ghost view = { λ w. record { column = w.column; text = w.text.now } };
}

/// The words of a line that are still to come, lent one after the other, and behind them the lines that follow it. Where the
/// line ends is seen when its last word is taken.
#[derive(Debug, Drop)]
pub struct Words<'a> {
    // The number of the line, from 1.
    line: usize,
    // The column of the next word, or that behind the end of the line where there is no next.
    column: usize,
    // Whether there is a next word.
    more: bool,
    // What is left of the text from that column on.
    rest: &'a [u8],
}

impl<'a> Model for Words<'a> {
    ghost use Rattle.std.specs.Prelude.{◌≡◌, ◌<◌, ◌≤◌, ◌+◌, ◌^◌, [], false, length};
    ghost use Rattle.fc_lines.specs.LineWords.{LinesLeft, WordsLeft, line_in, open_from};

    ghost Value = { WordsLeft × LinesLeft };

    ghost view = { λ w. open_from w.line w.column w.more w.rest.now };

    ghost invariant = { λ w. (w.column + length w.rest.now < 2 ^ 64) × (w.line + length w.rest.now ≤ 2 ^ 63) × (w.more ≡ false → line_in w.rest.now ≡ []) × (w.line < 2 ^ 63) };
}

/// Whether a word is a name.
#[inline(always)]
pub fn is(word: &[u8], name: &[u8]) -> bool
    ensures { result ≡ bytes_eq word.now name.now }
{
    word == name
}

// How many bytes stand before the first space or line feed.
#[inline(always)]
fn word_len(bytes: &[u8]) -> usize
    ensures within { result ≤ length bytes.now }
    ensures plain { IsPlain (take result bytes.now) }
    ensures end { EndsWord (drop result bytes.now) }
{
    let mut len = 0;
    'bytes: while len < bytes.len() && bytes[len] != b' ' && bytes[len] != b'\n' {
        len += 1;
    }
    len
}

#[inline(always)]
fn labelled_eight_of(label: Label, word: &[u8]) -> Option<u32>
    ensures { result ≡ labelled_digits (label_bytes label) 8 word.now }
{
    match label.behind(word) {
        Some(digits) => eight_digits_of(digits),
        None => None,
    }
}

#[inline(always)]
fn labelled_sixteen_of(label: Label, word: &[u8]) -> Option<u64>
    ensures { result ≡ labelled_digits (label_bytes label) 16 word.now }
{
    match label.behind(word) {
        Some(digits) => sixteen_digits_of(digits),
        None => None,
    }
}

// Whether a line ends here, where a word does.
#[inline(always)]
fn ends_line(bytes: &[u8]) -> bool
    ensures yes { result ≡ true → line_in bytes.now ≡ [] }
    ensures no { EndsWord bytes.now → result ≡ false → bytes.now ≡ 32 ∷ drop 1 bytes.now }
{
    match bytes {
        [first, ..] => *first == b'\n',
        [] => true,
    }
}

// The word of so many bytes from a column of a line on, and the words and lines that follow it.
#[inline(always)]
fn passed<'a>(line: usize, column: usize, rest: &'a [u8], len: usize) -> (Word<'a>, Words<'a>)
    requires within { len ≤ length rest.now }
    requires plain { IsPlain (take len rest.now) }
    requires end { EndsWord (drop len rest.now) }
    requires column { column + length rest.now < 2 ^ 64 }
    requires line { line < 2 ^ 63 }
    requires room { line + length rest.now ≤ 2 ^ 63 }
    ensures word { first_word (open_from line column true rest.now).0.words ≡ Some result.0 }
    ensures text { result.0.text ≡ take len rest.now }
    ensures words { result.1.0 ≡ words_left line (column + length (line_in rest.now)) (rest_words (open_from line column true rest.now).0.words) }
    ensures behind { result.1.1 ≡ lines_left line (lines_of (behind_line rest.now)) }
{
    let (text, behind) = rest.split_at(len);
    let word = Word { column, text };
    if ends_line(behind) {
        return (
            word,
            Words {
                line,
                column: column + len,
                more: false,
                rest: behind,
            },
        );
    }
    (
        word,
        Words {
            line,
            column: column + len + 1,
            more: true,
            rest: &behind[1..],
        },
    )
}

impl<'a> Words<'a> {
    /// The words of a text from a column of a line on.
    #[inline(always)]
    pub fn over(bytes: &'a [u8], line: usize, column: usize) -> Words<'a>
        requires column { column + length bytes.now < 2 ^ 64 }
        requires line { line < 2 ^ 63 }
        requires room { line + length bytes.now ≤ 2 ^ 63 }
        ensures { result ≡ open_from line column true bytes.now }
    {
        Words {
            line,
            column,
            more: true,
            rest: bytes,
        }
    }

    /// The next word, if there is one.
    #[inline(always)]
    pub fn next(&mut self) -> Option<Word<'a>>
        ensures next { result ≡ first_word self.old.0.words }
        ensures rest { self.new.0 ≡ words_left self.old.0.line self.old.0.end (rest_words self.old.0.words) }
        ensures behind { self.new.1 ≡ self.old.1 }
    {
        if !self.more {
            return None;
        }
        let (word, words) = passed(self.line, self.column, self.rest, word_len(self.rest));
        *self = words;
        Some(word)
    }

    /// The fault of a word that does not fit.
    pub fn misfit(&self, word: &Word) -> TextFault
        ensures { result ≡ At self.now.0.line word.now.column }
    {
        TextFault::At {
            line: self.line,
            column: word.column,
        }
    }

    /// The next word. Where there is none, the fault is at the column after the end of the line.
    #[inline(always)]
    #[tactic(auto, unfolding(crate::specs::LineWords::word_in))]
    pub fn word(&mut self) -> Result<Word<'a>, TextFault>
        ensures exact { Reads result (word_in self.old.0) self.new.0 }
        ensures line { self.new.0.line ≡ self.old.0.line }
        ensures behind { self.new.1 ≡ self.old.1 }
        ensures sure { IsErrOf result Memory → ⊥ }
    {
        if !self.more {
            return Err(TextFault::At {
                line: self.line,
                column: self.column,
            });
        }
        let (word, words) = passed(self.line, self.column, self.rest, word_len(self.rest));
        *self = words;
        Ok(word)
    }

    /// Takes the next word, which has to be this one.
    #[tactic(auto, unfolding(crate::specs::LineWords::exactly))]
    pub fn exactly(&mut self, name: &[u8]) -> Result<(), TextFault>
        ensures exact { Reads result (this name.now self.old.0) self.new.0 }
        ensures behind { self.new.1 ≡ self.old.1 }
        ensures sure { IsErrOf result Memory → ⊥ }
    {
        let word = self.word()?;
        if is(word.text, name) {
            Ok(())
        } else {
            Err(self.misfit(&word))
        }
    }

    /// That there are no more words.
    #[inline(always)]
    #[tactic(auto, unfolding(crate::specs::LineWords::ended))]
    pub fn end(&self) -> Result<(), TextFault>
        ensures exact { Gives result (ended self.now.0) }
        ensures sure { IsErrOf result Memory → ⊥ }
    {
        if self.more {
            return Err(TextFault::At {
                line: self.line,
                column: self.column,
            });
        }
        Ok(())
    }

    /// What is left of the text behind the line, all of whose words were taken.
    #[inline(always)]
    pub fn behind(&self) -> &'a [u8]
        requires { self.now.0.words ≡ [] }
        ensures lines { self.now.1 ≡ lines_left self.now.0.line (lines_of result.now) }
        ensures room { self.now.0.line + length result.now < 2 ^ 63 }
    {
        match self.rest {
            [_, others @ ..] => others,
            [] => self.rest,
        }
    }

    /// The number of the line, from 1.
    #[inline(always)]
    pub fn line(&self) -> usize
        ensures { result ≡ self.now.0.line }
    {
        self.line
    }

    /// The next word as a decimal number, if it is one of at most nine digits. Where it ends is not looked for before.
    #[inline(always)]
    pub fn quick_decimal(&mut self) -> Option<u32>
        ensures some { IfSome result (λ n. QuickNumber n self.old.0 self.new.0) }
        ensures behind { self.new.1 ≡ self.old.1 }
        ensures none { IfNone result (self.new ≡ self.old) }
    {
        if !self.more {
            return None;
        }
        let (number, len) = decimal_in_front(self.rest)?;
        let (_, words) = passed(self.line, self.column, self.rest, len);
        *self = words;
        Some(number)
    }

    /// The next word as a decimal number.
    #[tactic(auto, unfolding(crate::specs::LineWords::decimal_in))]
    pub fn decimal(&mut self) -> Result<u32, TextFault>
        ensures exact { Reads result (decimal_in self.old.0) self.new.0 }
        ensures behind { self.new.1 ≡ self.old.1 }
        ensures sure { IsErrOf result Memory → ⊥ }
    {
        if let Some(number) = self.quick_decimal() {
            return Ok(number);
        }
        let word = self.word()?;
        match decimal_of(word.text) {
            Some(number) => Ok(number),
            None => Err(self.misfit(&word)),
        }
    }

    /// The next word as two hexadecimal digits.
    #[tactic(auto, unfolding(crate::specs::LineWords::digits_in))]
    pub fn two_digits(&mut self) -> Result<u8, TextFault>
        ensures exact { Reads result (digits_in 2 self.old.0) self.new.0 }
        ensures behind { self.new.1 ≡ self.old.1 }
        ensures sure { IsErrOf result Memory → ⊥ }
    {
        let word = self.word()?;
        match two_digits_of(word.text) {
            Some(number) => Ok(number),
            None => Err(self.misfit(&word)),
        }
    }

    /// The next word as eight hexadecimal digits.
    #[tactic(auto, unfolding(crate::specs::LineWords::digits_in))]
    pub fn eight_digits(&mut self) -> Result<u32, TextFault>
        ensures exact { Reads result (digits_in 8 self.old.0) self.new.0 }
        ensures behind { self.new.1 ≡ self.old.1 }
        ensures sure { IsErrOf result Memory → ⊥ }
    {
        let word = self.word()?;
        match eight_digits_of(word.text) {
            Some(number) => Ok(number),
            None => Err(self.misfit(&word)),
        }
    }

    // The next word as eight hexadecimal digits behind a label, if it is that. Where it ends is not looked for before.
    #[inline(always)]
    #[tactic(auto, unfolding(crate::specs::LineWords::labelled_in))]
    fn quick_eight(&mut self, label: Label) -> Option<u32>
        ensures some { IfSome result (λ n. (labelled_in (label_bytes label) 8 self.old.0 ≡ Ok (n, self.new.0)) × (self.new.1 ≡ self.old.1)) }
        ensures none { IfNone result (self.new ≡ self.old) }
    {
        if !self.more {
            return None;
        }
        let (number, len) = label.eight_in_front(self.rest)?;
        let (_, words) = passed(self.line, self.column, self.rest, len);
        *self = words;
        Some(number)
    }

    // The same of sixteen digits.
    #[inline(always)]
    #[tactic(auto, unfolding(crate::specs::LineWords::labelled_in))]
    fn quick_sixteen(&mut self, label: Label) -> Option<u64>
        ensures some { IfSome result (λ n. (labelled_in (label_bytes label) 16 self.old.0 ≡ Ok (n, self.new.0)) × (self.new.1 ≡ self.old.1)) }
        ensures none { IfNone result (self.new ≡ self.old) }
    {
        if !self.more {
            return None;
        }
        let (number, len) = label.sixteen_in_front(self.rest)?;
        let (_, words) = passed(self.line, self.column, self.rest, len);
        *self = words;
        Some(number)
    }

    /// The next word as eight hexadecimal digits behind a label.
    #[inline(always)]
    #[tactic(auto, unfolding(crate::specs::LineWords::labelled_in))]
    pub fn labelled_eight(&mut self, label: Label) -> Result<u32, TextFault>
        ensures exact { Reads result (labelled_in (label_bytes label) 8 self.old.0) self.new.0 }
        ensures behind { self.new.1 ≡ self.old.1 }
        ensures sure { IsErrOf result Memory → ⊥ }
    {
        if let Some(number) = self.quick_eight(label) {
            return Ok(number);
        }
        let word = self.word()?;
        match labelled_eight_of(label, word.text) {
            Some(number) => Ok(number),
            None => Err(self.misfit(&word)),
        }
    }

    /// The next word as sixteen hexadecimal digits behind a label.
    #[inline(always)]
    #[tactic(auto, unfolding(crate::specs::LineWords::labelled_in))]
    pub fn labelled_sixteen(&mut self, label: Label) -> Result<u64, TextFault>
        ensures exact { Reads result (labelled_in (label_bytes label) 16 self.old.0) self.new.0 }
        ensures behind { self.new.1 ≡ self.old.1 }
        ensures sure { IsErrOf result Memory → ⊥ }
    {
        if let Some(number) = self.quick_sixteen(label) {
            return Ok(number);
        }
        let word = self.word()?;
        match labelled_sixteen_of(label, word.text) {
            Some(number) => Ok(number),
            None => Err(self.misfit(&word)),
        }
    }

    /// The next word as the name of a message, for which its type stands.
    #[tactic(auto, unfolding(crate::specs::LineReading::type_in))]
    pub fn message(&mut self) -> Result<u8, TextFault>
        ensures exact { Reads result (type_in self.old.0) self.new.0 }
        ensures behind { self.new.1 ≡ self.old.1 }
        ensures sure { IsErrOf result Memory → ⊥ }
    {
        let word = self.word()?;
        match message_named(word.text) {
            Some(kind) => Ok(kind),
            None => Err(self.misfit(&word)),
        }
    }

    /// The next word as the name of an operation that may stand in a message of a type.
    #[tactic(auto, unfolding(crate::specs::LineReading::operation_in))]
    pub fn operation(&mut self, message: u8) -> Result<Operation, TextFault>
        ensures exact { Reads result (operation_in message self.old.0) self.new.0 }
        ensures behind { self.new.1 ≡ self.old.1 }
        ensures sure { IsErrOf result Memory → ⊥ }
    {
        let word = self.word()?;
        match operation_named(message, word.text) {
            Some(operation) => Ok(operation),
            None => Err(self.misfit(&word)),
        }
    }

    /// The next word as bytes.
    #[inline(always)]
    #[tactic(auto, unfolding(crate::specs::LineWords::octets_in))]
    pub fn octets(&mut self) -> Result<HexWord<'a>, TextFault>
        ensures exact { Reads result (octets_in self.old.0) self.new.0 }
        ensures behind { self.new.1 ≡ self.old.1 }
        ensures sure { IsErrOf result Memory → ⊥ }
    {
        let word = self.word()?;
        match HexWord::of(word.text) {
            Some(octets) => Ok(octets),
            None => Err(self.misfit(&word)),
        }
    }

    /// The same words once more, to be taken from here again. There are fewer of them than a number of 64 bits counts.
    #[inline(always)]
    pub fn again(&self) -> Words<'a>
        ensures same { result ≡ self.now }
        ensures few { length self.now.0.words ≤ 2 ^ 63 + 1 }
    {
        Words {
            line: self.line,
            column: self.column,
            more: self.more,
            rest: self.rest,
        }
    }
}
