// Decimal numbers at the end of a line, lent before they are put anywhere.
ghost use Rattle.std.specs.Prelude.{◌≡◌, ◌≤◌, ◌<◌, length};
ghost use Rattle.fc_path.specs.Heads.{behind_first, first_of};
ghost use Rattle.fc_lines.specs.LineWords.{LinesLeft, WordsLeft, numbers_of, value_of};
ghost use Rattle.fc_lines.specs.WordValues.{decimal_of as decimal_word};

use crate::values::decimal_of;
use crate::words::Words;
use std::marker::Model;

/// The decimal numbers of so many words, lent one after the other. Contracts see those that are still to come.
#[derive(Debug, Drop)]
pub struct Numbers<'a> {
    words: Words<'a>,
    count: usize,
}

impl<'a> Model for Numbers<'a> {
    ghost use Rattle.std.specs.Prelude.{◌≤◌, ℕ, List, length};
    ghost use Rattle.fc_lines.specs.LineWords.{numbers_of};

    ghost Value = { List ℕ };

    ghost view = { λ n. numbers_of n.count n.words.0.words };

    ghost invariant = { λ n. n.count ≤ length n.words.0.words };
}

// The number of a word.
#[inline(always)]
fn number(word: &[u8]) -> u32
    ensures { result ≡ value_of (decimal_word word.now) }
{
    match decimal_of(word) {
        Some(number) => number,
        None => 0,
    }
}

impl<'a> Numbers<'a> {
    // The numbers of so many of these words.
    #[inline(always)]
    pub(crate) fn over(words: Words<'a>, count: usize) -> Numbers<'a>
        requires { count ≤ length words.0.words }
        ensures { result ≡ numbers_of count words.entry.0.words }
    {
        Numbers { words, count }
    }

    /// How many numbers are still to come.
    #[inline(always)]
    pub fn len(&self) -> usize
        ensures { result ≡ length self.now }
    {
        self.count
    }

    /// The next number; `None` once there is none, and ever after.
    #[inline(always)]
    pub fn next(&mut self) -> Option<u32>
        ensures next { result ≡ first_of self.old }
        ensures rest { self.new ≡ behind_first self.old }
    {
        if self.count == 0 {
            return None;
        }
        if let Some(number) = self.words.quick_decimal() {
            self.count -= 1;
            return Some(number);
        }
        match self.words.next() {
            Some(word) => {
                self.count -= 1;
                Some(number(word.text))
            }
            None => None,
        }
    }
}
