// The words of `gen`.
ghost use Rattle.std.specs.Prelude.{◌≡◌, ◌∷◌, [], map, string_bytes};
ghost use Rattle.fc_words.specs.Commands.{Gives};
ghost use Rattle.fc_words.specs.Commands as spec;

use crate::commands::{Command, WordFault};
use crate::values::transactions;

/// `gen` with its value, of the words after its name.
pub(crate) fn generate(words: &[String]) -> Result<Command, WordFault>
    ensures { Gives result (spec.gen (map string_bytes words.now)) }
{
    match words {
        [count] => of_count(count.as_str()),
        _ => Err(WordFault::NoCommand),
    }
}

fn of_count(word: &str) -> Result<Command, WordFault>
    ensures { Gives result (spec.gen_of word.now) }
{
    let transactions = transactions(word).ok_or(WordFault::NoCommand)?;
    Ok(Command::Gen { transactions })
}
