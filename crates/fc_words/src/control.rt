// The words of `control`.
ghost use Rattle.std.specs.Prelude.{◌≡◌, ◌∷◌, map, string_bytes, IfOk};
ghost use Rattle.fc_words.specs.Commands.{Gives};
ghost use Rattle.fc_words.specs.Commands as spec;

use crate::commands::{Command, WordFault};
use crate::positionals::{FiveWords, five_words};
use crate::values::{ce_id, count};
use fc_base::{List, Memory, Text};
use std::alloc::Global;

/// `control` with its values, of the words after its name: four, and then an address at least.
pub(crate) fn control(alloc: Global, words: &[String]) -> Result<Command, WordFault>
    requires { spec.ArePlain (map string_bytes words.now) }
    ensures { Gives result (spec.control (map string_bytes words.now)) }
{
    if words.len() < 5 {
        return Err(WordFault::NoCommand);
    }
    let given = five_words(alloc, &words[..5])?;
    values(alloc, &given, &words[5..])
}

fn values(alloc: Global, given: &FiveWords<'_>, more: &[String]) -> Result<Command, WordFault>
    ensures { Gives result (spec.control_of given.now.first.now given.now.second.now given.now.third.now given.now.fourth.now (given.now.fifth.now ∷ map string_bytes more.now)) }
{
    let ce = ce_id(given.first).ok_or(WordFault::NoCommand)?;
    if given.second.is_empty() {
        return Err(WordFault::NoCommand);
    }
    let connections = count(given.third).ok_or(WordFault::NoCommand)?;
    let turns = count(given.fourth).ok_or(WordFault::NoCommand)?;
    if given.fifth.is_empty() || !are_texts(more) {
        return Err(WordFault::NoCommand);
    }
    let rounds_file = Text::from_str(alloc, given.second)?;
    let addresses = texts(alloc, given.fifth, more)?;
    Ok(Command::Control {
        ce,
        rounds_file,
        connections,
        turns,
        addresses,
    })
}

// Whether no word is empty.
fn are_texts(words: &[String]) -> bool
    ensures { result ≡ spec.are_texts (map string_bytes words.now) }
{
    'words: for word in words {
        if word.is_empty() {
            return false;
        }
    }
    true
}

// The first word and then these.
fn texts(alloc: Global, first: &str, more: &[String]) -> Result<List<Text>, Memory>
    ensures { IfOk result (λ texts. texts ≡ first.now ∷ map string_bytes more.now) }
{
    let mut texts = List::new(alloc);
    texts.push(Text::from_str(alloc, first)?)?;
    'words: for word in more {
        texts.push(Text::from_str(alloc, word.as_str())?)?;
    }
    Ok(texts)
}
