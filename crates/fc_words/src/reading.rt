// From words to a command.
ghost use Rattle.std.specs.Prelude.{◌≡◌, not, ◌∷◌, [], map, drop, string_bytes};
ghost use Rattle.std.specs.List.{list_all};
ghost use Rattle.fc_words.specs.Commands.{Gives};
ghost use Rattle.fc_words.specs.Commands as spec;

use crate::commands::{Command, WordFault};
use crate::control::control;
use crate::element::element;
use crate::generate::generate;
use std::alloc::Global;

/// The command that the words of a command line mean: `show`, `make`, `world`, `gen TRANSACTIONS`, `element FE CE ADDRESS CONNECTIONS TURNS`, or
/// `control CE ROUNDSFILE CONNECTIONS TURNS ADDRESS..` with an address at least. A word that begins with `-` makes the words no command.
pub fn command(alloc: Global, words: &[String]) -> Result<Command, WordFault>
    ensures exact { Gives result (spec.command_of (map string_bytes words.now)) }
{
    if !are_plain(words) {
        return Err(WordFault::NoCommand);
    }
    match words {
        [] => Err(WordFault::NoCommand),
        [name, rest @ ..] => named(alloc, name.as_str(), rest),
    }
}

// Whether no word begins with `-`.
fn are_plain(words: &[String]) -> bool
    ensures { result ≡ spec.are_plain (map string_bytes words.now) }
{
    'words: for word in words {
        if is_dashed(word.as_bytes()) {
            return false;
        }
    }
    true
}

fn is_dashed(word: &[u8]) -> bool
    ensures { result ≡ spec.is_dashed word.now }
{
    match word {
        [] => false,
        [first, ..] => *first == b'-',
    }
}

// The command of this name with these words after it.
fn named(alloc: Global, name: &str, words: &[String]) -> Result<Command, WordFault>
    requires { spec.ArePlain (map string_bytes words.now) }
    ensures { Gives result (spec.named name.now (map string_bytes words.now)) }
{
    if name == "show" {
        alone(Command::Show, words)
    } else if name == "make" {
        alone(Command::Make, words)
    } else if name == "world" {
        alone(Command::World, words)
    } else if name == "gen" {
        generate(words)
    } else if name == "element" {
        element(alloc, words)
    } else if name == "control" {
        control(alloc, words)
    } else {
        Err(WordFault::NoCommand)
    }
}

// A command that takes no words after its name.
fn alone(command: Command, words: &[String]) -> Result<Command, WordFault>
    ensures { Gives result (spec.alone command (map string_bytes words.now)) }
{
    match words {
        [] => Ok(command),
        _ => Err(WordFault::NoCommand),
    }
}
