// What a master keeps of a transaction.
ghost use Rattle.std.specs.Prelude.{◌≡◌, ◌<◌, ◌^◌};
ghost use Rattle.fc_protocol.specs.Collections.{among as stands};
ghost use Rattle.fc_asks.specs.Tables.{found, counts};
ghost use Rattle.fc_jobs.specs.Scopes.{scope_of};

use crate::table::{among, look};
use fc_base::{Duplicate, FeId, List, Memory, TxnId};
use fc_protocol::{Answer, Decision};

/// What a transaction may change at a participant: class and instance of each LFB instance; none stands for all of them.
#[derive(Debug, Drop)]
pub struct Scoped {
    pub element: FeId,
    pub scope: List<(u32, u32)>,
}

impl Duplicate for Scoped {
    fn copy(&self) -> Result<Self, Memory> {
        let scope = List::from_slice(self.scope.alloc(), self.scope.as_slice())?;
        Ok(Scoped {
            element: self.element,
            scope,
        })
    }
}

// The scope at a participant.
fn scope_for(element: FeId, scopes: &[Scoped]) -> &[(u32, u32)]
    ensures { result.now ≡ scope_of element scopes.now }
{
    for scoped in scopes {
        if element == scoped.element {
            return scoped.scope.as_slice();
        }
    }
    &[]
}

/// A transaction that a master drives to its end (this profile's own, over RFC 5810, section 4.3.1.2).
#[derive(Debug, Drop)]
pub struct Job {
    /// The epoch of the life that began it, and its number in that life, from 1.
    pub txn: TxnId,
    /// Whether this life began it; else it was found at an element.
    pub mine: bool,
    /// The elements that take part.
    pub participants: List<FeId>,
    /// What is decided, if it is.
    pub decision: Option<Decision>,
    /// The participants that have done what is decided.
    pub settled: List<FeId>,
    // How many changes there are for each participant of an own job, at most 256.
    pub(crate) changes: List<(FeId, u16)>,
    // The scope of an own job at each participant.
    pub(crate) scopes: List<Scoped>,
    // How many messages of an own job each participant has answered with success.
    pub(crate) done: List<(FeId, u32)>,
    pub(crate) answers: List<(FeId, Answer)>,
    // The participants that have answered the decision with a code other than success.
    pub(crate) stuck: List<FeId>,
}

impl Job {
    /// How many messages of an own job the element has answered with success.
    pub fn done_at(&self, element: FeId) -> u32
        ensures { result ≡ counts self.now.done element }
    {
        look(element, self.done.as_slice()).unwrap_or(0)
    }

    /// How many changes there are for the element.
    pub fn changes_at(&self, element: FeId) -> u32
        ensures same { result ≡ counts self.now.changes element }
        ensures small { result < 2 ^ 16 }
    {
        u32::from(look(element, self.changes.as_slice()).unwrap_or(0))
    }

    /// The scope of an own job at the element.
    pub fn scope_at(&self, element: FeId) -> &[(u32, u32)]
        ensures { result.now ≡ scope_of element self.now.scopes }
    {
        scope_for(element, self.scopes.as_slice())
    }

    /// What the element has answered.
    pub fn answer_of(&self, element: FeId) -> Option<Answer>
        ensures { result ≡ found element self.now.answers }
    {
        look(element, self.answers.as_slice())
    }

    /// Whether the element has done what is decided.
    pub fn has_settled(&self, element: FeId) -> bool
        ensures { result ≡ stands element self.now.settled }
    {
        among(element, self.settled.as_slice())
    }

    /// Whether the element has answered the decision with a code other than success.
    pub fn is_stuck(&self, element: FeId) -> bool
        ensures { result ≡ stands element self.now.stuck }
    {
        among(element, self.stuck.as_slice())
    }
}

impl Duplicate for Job {
    fn copy(&self) -> Result<Self, Memory> {
        let alloc = self.participants.alloc();
        let participants = self.participants.copy()?;
        let settled = self.settled.copy()?;
        let changes = List::from_slice(alloc, self.changes.as_slice())?;
        let scopes = self.scopes.copy()?;
        let done = List::from_slice(alloc, self.done.as_slice())?;
        let answers = List::from_slice(alloc, self.answers.as_slice())?;
        let stuck = self.stuck.copy()?;
        Ok(Job {
            txn: self.txn,
            mine: self.mine,
            participants,
            decision: self.decision,
            settled,
            changes,
            scopes,
            done,
            answers,
            stuck,
        })
    }
}
