// The commands, and why words are none.
ghost use Rattle.std.specs.Prelude.{◌≡◌};

use fc_base::{CeId, FeId, List, Memory, Text};
use std::alloc::AllocError;

/// What the words of a command line ask for.
#[derive(Debug, Drop)]
pub enum Command {
    /// Writes each message that comes in as text.
    Show,
    /// Writes each message of the text that comes in as bytes.
    Make,
    /// Plays the script of a whole network element that comes in, and writes the report.
    World,
    /// Makes a large run, and writes a summary of it.
    Gen {
        /// How many transactions it has, from 1 to 1,000.
        transactions: u32,
    },
    /// Runs a forwarding element.
    Element {
        /// The element's own ID.
        fe: FeId,
        /// The ID of the control element that is to be its master.
        ce: CeId,
        /// Where the element is reached, which is not empty.
        address: Text,
        /// How many connections are taken, from 1.
        connections: u32,
        /// How many events are taken, from 1.
        turns: u32,
    },
    /// Runs a control element.
    Control {
        /// Its ID.
        ce: CeId,
        /// The file that keeps the number of its last round, which is not empty.
        rounds_file: Text,
        /// How many connections are taken, from 1.
        connections: u32,
        /// How many events are taken, from 1.
        turns: u32,
        /// Where the elements of its plan are reached, in the plan's order. There is one at least, and none is empty.
        addresses: List<Text>,
    },
}

/// Why no command is given.
#[derive(Clone, Copy, Debug, PartialEq, Eq)]
pub enum WordFault {
    /// The words are no command.
    NoCommand,
    /// Out of memory.
    Memory,
}

impl From<AllocError> for WordFault {
    ghost use Rattle.fc_words.specs.declared.commands.WordFault.TheVariants.{Memory};

    ghost from_gives = { λ _ e. e ≡ Memory };

    fn from(_: AllocError) -> Self {
        WordFault::Memory
    }
}

impl From<Memory> for WordFault {
    ghost use Rattle.fc_words.specs.declared.commands.WordFault.TheVariants.{Memory};

    ghost from_gives = { λ _ e. e ≡ Memory };

    fn from(_: Memory) -> Self {
        WordFault::Memory
    }
}
