// What is remembered of the target of an event that is registered.
ghost use Rattle.std.specs.Prelude.{◌≡◌};
ghost use Rattle.fc_watch.specs.Watching as spec;

use fc_base::{Duplicate, List, Memory, Octets};
use fc_types::When;

/// What an evaluation sees of the target of an event.
#[derive(Debug, Drop, PartialEq, Eq)]
pub enum Seen {
    /// A number.
    Number(i128),
    /// Another atom, in its full form.
    Bytes(Octets),
    /// An array, as the subscripts of its entries, which rise.
    Subscripts(List<u32>),
}

/// What a notice tells.
#[derive(Clone, Copy, Debug, PartialEq, Eq)]
pub enum Told {
    /// The target as it is.
    Target,
    /// The subscript of an entry that came or went.
    Entry(u32),
}

/// When an event happens, by its declaration and its properties.
#[derive(Clone, Copy, Debug, PartialEq, Eq)]
pub struct Condition {
    /// What its target has to do.
    pub when: When,
    /// What a number has to become greater or less than.
    pub threshold: i64,
    /// How far a number has to go back before the event can happen again, or by how much it has to change.
    pub hysteresis: u32,
    /// How often the condition has to be satisfied for one notice, at least once.
    pub count: u32,
}

/// What is remembered of an event that is registered.
#[derive(Debug, Drop, PartialEq, Eq)]
pub struct Watch {
    /// Whether a number that is beyond the threshold satisfies the condition.
    pub armed: bool,
    /// How often the condition was satisfied since the last notice.
    pub satisfied: u32,
    /// What was seen last; of an event with a threshold, what was there when it was registered.
    pub last: Seen,
}

impl Watch {
    /// The memory of an event that is registered while its target is this.
    pub fn start(present: Seen) -> Watch
        ensures { result ≡ spec.started present }
    {
        Watch {
            armed: true,
            satisfied: 0,
            last: present,
        }
    }
}

impl Duplicate for Seen {
    fn copy(&self) -> Result<Self, Memory> {
        match self {
            Seen::Number(number) => Ok(Seen::Number(*number)),
            Seen::Bytes(bytes) => Ok(Seen::Bytes(bytes.copy()?)),
            Seen::Subscripts(subscripts) => Ok(Seen::Subscripts(subscripts.copy()?)),
        }
    }
}

impl Duplicate for Watch {
    fn copy(&self) -> Result<Self, Memory> {
        let last = self.last.copy()?;
        Ok(Watch {
            armed: self.armed,
            satisfied: self.satisfied,
            last,
        })
    }
}
