// The positionals of a command, which `clap` tells apart by name.
ghost use Rattle.std.specs.Prelude.{◌≡◌, ◌∷◌, [], length, map, string_bytes, IfOk, IfErr, IsSome, Some};
ghost use Rattle.clap.specs.Words.{app_of, with_rule, rows_of, found_of, matches_of, kind_of, first_value};
ghost use Rattle.fc_words.specs.Commands as spec;
ghost use Rattle.fc_words.specs.Positionals.{five_app, nameless_app, positional};

use crate::commands::WordFault;
use clap::error::ErrorKind;
use clap::{Arg, ArgMatches, Command, Error};
use std::alloc::{AllocError, Global};

/// Five words by their places.
#[derive(Clone, Copy)]
pub(crate) struct FiveWords<'a> {
    pub(crate) first: &'a str,
    pub(crate) second: &'a str,
    pub(crate) third: &'a str,
    pub(crate) fourth: &'a str,
    pub(crate) fifth: &'a str,
}

/// Five words after the name of a command, as its positionals.
pub(crate) fn five_words<'a>(alloc: Global, words: &'a [String]) -> Result<FiveWords<'a>, WordFault>
    requires five { length words.now ≡ 5 }
    requires plain { spec.ArePlain (map string_bytes words.now) }
    ensures given { IfOk result (λ p. map string_bytes words.entry.now ≡ p.first.now ∷ p.second.now ∷ p.third.now ∷ p.fourth.now ∷ p.fifth.now ∷ []) }
    ensures memory { IfErr result (λ fault. fault ≡ WordFault.Memory) }
{
    match matched(alloc, words) {
        Ok(matches) => Ok(FiveWords {
            first: value(&matches, "first"),
            second: value(&matches, "second"),
            third: value(&matches, "third"),
            fourth: value(&matches, "fourth"),
            fifth: value(&matches, "fifth"),
        }),
        Err(_) => Err(WordFault::Memory),
    }
}

// What `clap` makes of five words of which none begins with `-`: it fails only where it is out of memory.
fn matched<'a>(alloc: Global, words: &'a [String]) -> Result<ArgMatches<'a>, Error>
    requires five { length words.now ≡ 5 }
    requires plain { spec.ArePlain (map string_bytes words.now) }
    ensures rows { IfOk result (λ m. rows_of (found_of m) ≡ matches_of five_app (map string_bytes words.entry.now)) }
    ensures memory { IfErr result (λ e. kind_of e ≡ ErrorKind.OutOfMemory) }
{
    let command = five_command(alloc)?;
    command.try_get_matches_from(words)
}

fn five_command<'a>(alloc: Global) -> Result<Command<'a>, AllocError>
    ensures { IfOk result (λ command. app_of command ≡ five_app) }
{
    let command = nameless(alloc, "words");
    let command = with_positional(alloc, command, "first")?;
    let command = with_positional(alloc, command, "second")?;
    let command = with_positional(alloc, command, "third")?;
    let command = with_positional(alloc, command, "fourth")?;
    with_positional(alloc, command, "fifth")
}

// A command of which all words are positionals.
fn nameless<'a>(alloc: Global, name: &'a str) -> Command<'a>
    ensures { app_of result ≡ nameless_app name.entry.now }
{
    Command::new(alloc, name).no_binary_name(true)
}

// The command with one more positional.
fn with_positional<'a>(
    alloc: Global,
    command: Command<'a>,
    id: &'a str,
) -> Result<Command<'a>, AllocError>
    ensures { IfOk result (λ more. app_of more ≡ with_rule (app_of command.entry) (positional id.entry.now)) }
{
    command.arg(Arg::new(alloc, id).required(true))
}

// The value of a positional that is there.
fn value<'a>(matches: &ArgMatches<'a>, id: &str) -> &'a str
    requires { IsSome (first_value (found_of matches.now) id.now) }
    ensures { Some result.now ≡ first_value (found_of matches.now) id.now }
{
    matches.get_str(id).unwrap()
}
