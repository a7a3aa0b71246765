// The words of `element`.
ghost use Rattle.std.specs.Prelude.{◌≡◌, ◌∷◌, [], map, drop, string_bytes};
ghost use Rattle.fc_words.specs.Commands.{Gives};
ghost use Rattle.fc_words.specs.Commands as spec;

use crate::commands::{Command, WordFault};
use crate::positionals::{FiveWords, five_words};
use crate::values::{ce_id, count, fe_id};
use fc_base::Text;
use std::alloc::Global;

/// `element` with its values, of the words after its name.
pub(crate) fn element(alloc: Global, words: &[String]) -> Result<Command, WordFault>
    requires { spec.ArePlain (map string_bytes words.now) }
    ensures { Gives result (spec.element (map string_bytes words.now)) }
{
    if words.len() != 5 {
        return Err(WordFault::NoCommand);
    }
    let given = five_words(alloc, words)?;
    values(alloc, &given)
}

fn values(alloc: Global, given: &FiveWords<'_>) -> Result<Command, WordFault>
    ensures { Gives result (spec.element_of given.now.first.now given.now.second.now given.now.third.now given.now.fourth.now given.now.fifth.now) }
{
    let fe = fe_id(given.first).ok_or(WordFault::NoCommand)?;
    let ce = ce_id(given.second).ok_or(WordFault::NoCommand)?;
    if given.third.is_empty() {
        return Err(WordFault::NoCommand);
    }
    let connections = count(given.fourth).ok_or(WordFault::NoCommand)?;
    let turns = count(given.fifth).ok_or(WordFault::NoCommand)?;
    let address = Text::from_str(alloc, given.third)?;
    Ok(Command::Element {
        fe,
        ce,
        address,
        connections,
        turns,
    })
}
