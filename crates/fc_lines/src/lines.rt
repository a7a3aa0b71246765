// The lines of a text, each with its indentation.
ghost use Rattle.std.specs.Prelude.{◌≡◌, ◌≤◌, ◌<◌, ◌+◌, ◌^◌, length, [], OnOk, IfOk};
ghost use Rattle.std.specs.Result.{IsErrOf};
ghost use Rattle.fc_lines.specs.TextPlaces.{Gives};
ghost use Rattle.fc_lines.specs.LineReading.{shut as is_shut};
ghost use Rattle.fc_lines.specs.LineWords.{ended, none_left, spaces_before as spaces, stands_at as stands, line_at, text_lines, closed as is_closed};
ghost use Rattle.fc_lines.specs.declared.fault.TextFault.TheVariants.{At, Memory};

use crate::TextFault;
use crate::words::Words;
use std::marker::Model;

/// The lines of a text that are still to come.
#[derive(Debug, Drop)]
pub struct Lines<'a> {
    // What is left of the text.
    rest: &'a [u8],
    // How many lines were taken.
    taken: usize,
    // How many spaces the next line begins with.
    indent: usize,
}

impl<'a> Model for Lines<'a> {
    ghost use Rattle.std.specs.Prelude.{◌≡◌, ◌<◌, ◌+◌, ◌^◌, length};
    ghost use Rattle.fc_lines.specs.LineWords.{LinesLeft, lines_left, lines_of, spaces_before};

    ghost Value = { LinesLeft };

    ghost view = { λ l. lines_left l.taken (lines_of l.rest.now) };

    ghost invariant = { λ l. (l.indent ≡ spaces_before l.rest.now) × (l.taken + length l.rest.now < 2 ^ 63) };
}

// How many spaces stand in front.
#[inline(always)]
fn spaces_before(bytes: &[u8]) -> usize
    ensures { result ≡ spaces bytes.now }
{
    let mut count = 0;
    'bytes: while count < bytes.len() && bytes[count] == b' ' {
        count += 1;
    }
    count
}

impl<'a> Lines<'a> {
    /// The lines of a text. A line feed at the end begins no other line.
    pub fn over(text: &'a [u8]) -> Lines<'a>
        ensures { result ≡ text_lines text.now }
    {
        Lines {
            rest: text,
            taken: 0,
            indent: spaces_before(text),
        }
    }

    // Whether no line is left.
    #[inline(always)]
    pub(crate) fn is_empty(&self) -> bool
        ensures { result ≡ none_left self.now.lines }
    {
        self.rest.is_empty()
    }

    // The number of the next line, from 1, which at the end of the text is that of the line behind the last one.
    #[inline(always)]
    pub(crate) fn number(&self) -> usize
        ensures { result ≡ self.now.taken + 1 }
    {
        self.taken + 1
    }

    /// Whether there is a next line, and it is indented by this level: by two spaces for each.
    #[inline(always)]
    pub fn stands_at(&self, level: usize) -> bool
        requires { level ≤ 20 }
        ensures { result ≡ stands level self.now.lines }
    {
        !self.rest.is_empty() && self.indent == 2 * level
    }

    /// The fault of a next line whose indentation is wrong, or that is missing.
    #[inline(always)]
    pub fn misplaced(&self) -> TextFault
        ensures { result ≡ At (self.now.taken + 1) 1 }
    {
        TextFault::At {
            line: self.number(),
            column: 1,
        }
    }

    /// That no line is left.
    #[tactic(auto, unfolding(crate::specs::LineWords::closed))]
    pub fn closed(&self) -> Result<(), TextFault>
        ensures exact { Gives result (is_closed self.now) }
        ensures sure { IsErrOf result Memory → ⊥ }
    {
        if self.is_empty() {
            return Ok(());
        }
        Err(self.misplaced())
    }

    /// That behind a message another begins, or the text ends.
    #[inline(always)]
    #[tactic(auto, unfolding(crate::specs::LineReading::shut))]
    pub fn shut(&self) -> Result<(), TextFault>
        ensures exact { Gives result (is_shut self.now) }
        ensures sure { IsErrOf result Memory → ⊥ }
    {
        if self.stands_at(0) {
            return Ok(());
        }
        self.closed()
    }

    /// The same lines once more, to be read from here again.
    #[inline(always)]
    pub fn again(&self) -> Lines<'a>
        ensures { result ≡ self.now }
    {
        Lines {
            rest: self.rest,
            taken: self.taken,
            indent: self.indent,
        }
    }

    // Opens the next line, which has to be indented by this level: gives its words. `close` goes on behind it.
    #[inline(always)]
    #[tactic(auto, unfolding(crate::specs::LineWords::line_at))]
    pub(crate) fn open(&self, level: usize) -> Result<Words<'a>, TextFault>
        requires { level ≤ 20 }
        ensures exact { Gives result (line_at level self.now) }
        ensures less { IfOk result (λ words. length words.1.lines < length self.now.lines) }
        ensures sure { IsErrOf result Memory → ⊥ }
    {
        if !self.stands_at(level) {
            return Err(self.misplaced());
        }
        let (_, text) = self.rest.split_at(2 * level);
        Ok(Words::over(text, self.number(), 2 * level + 1))
    }

    // Goes on behind the line of these words, of which none may be left.
    #[inline(always)]
    pub(crate) fn close(&mut self, words: Words<'a>) -> Result<(), TextFault>
        ensures exact { Gives result (ended words.entry.0) }
        ensures behind { OnOk result (self.new ≡ words.entry.1) }
        ensures sure { IsErrOf result Memory → ⊥ }
    {
        words.end()?;
        self.go_on(words);
        Ok(())
    }

    // The same, where it is known that none is left.
    #[inline(always)]
    pub(crate) fn go_on(&mut self, words: Words<'a>)
        requires { words.0.words ≡ [] }
        ensures { self.new ≡ words.entry.1 }
    {
        let rest = words.behind();
        self.rest = rest;
        self.taken = words.line();
        self.indent = spaces_before(rest);
    }
}
