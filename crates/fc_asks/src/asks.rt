// What a message of a control element asks.
ghost use Rattle.std.specs.Prelude.{◌≡◌, ℕ, IfOk, option_map};
ghost use Rattle.fc_protocol.specs.Messages.{is_query as queries_it, is_claim as claims_it};
ghost use Rattle.fc_protocol.specs.MasterMachine.{still_owed as still_owed_of};
ghost use Rattle.fc_asks.specs.declared.asks.Asks.TheVariants as asks;
ghost use Rattle.fc_asks.specs.Bodies.{asked_by, body_of, question_body};

use fc_base::{Duplicate, FeId, List, Memory, TxnId};

/// What a message of a control element asks of an element: a Query asks for what it holds, a Config that something is done. This
/// profile's own, over the transactions of RFC 5810, section 4.3.1.2.
#[derive(Debug, PartialEq, Eq, Drop)]
pub enum Asks {
    /// To take the sender as its master, by its epoch.
    Claim,
    /// For its epoch and the transactions that it holds, neither completed nor aborted.
    Ask,
    /// For its epoch and the record of one transaction.
    Record(TxnId),
    /// To open a transaction with these participants, whose IDs rise, and with this scope, the class and the instance of each LFB
    /// instance that it may change there; an empty one stands for all.
    Sot(TxnId, List<FeId>, List<(u32, u32)>),
    /// To add the change of this number, counted from 1, to a transaction.
    Mot(TxnId, u32),
    /// To prepare a transaction.
    Eot(TxnId),
    /// To complete a transaction.
    Trcomp(TxnId),
    /// To abort a transaction.
    Abt(TxnId),
    /// To do a plain change, outside of any transaction.
    Plain,
    /// To forget each transaction before this one.
    Floor(TxnId),
}

/// What a Query of a control element asks for.
#[derive(Clone, Copy, Debug)]
pub enum Question {
    /// The epoch, and the transactions that are held.
    Held,
    /// The epoch, and the record of this transaction.
    Record(TxnId),
}

impl Asks {
    /// Whether it is asked by a Query; else by a Config.
    pub fn is_query(&self) -> bool
        ensures { (e : ℕ) → result ≡ queries_it (body_of e self.now) }
    {
        match self {
            Asks::Ask | Asks::Record(_) => true,
            Asks::Claim
            | Asks::Sot(_, _, _)
            | Asks::Mot(_, _)
            | Asks::Eot(_)
            | Asks::Trcomp(_)
            | Asks::Abt(_)
            | Asks::Plain
            | Asks::Floor(_) => false,
        }
    }

    /// What it asks for, where it is asked by a Query.
    pub fn question(&self) -> Option<Question>
        ensures { (e : ℕ) → option_map question_body result ≡ asked_by (body_of e self.now) }
    {
        match self {
            Asks::Ask => Some(Question::Held),
            Asks::Record(txn) => Some(Question::Record(*txn)),
            Asks::Claim => None,
            Asks::Sot(_, _, _) => None,
            Asks::Mot(_, _) => None,
            Asks::Eot(_) => None,
            Asks::Trcomp(_) => None,
            Asks::Abt(_) => None,
            Asks::Plain => None,
            Asks::Floor(_) => None,
        }
    }

    /// Whether it is the claim.
    pub fn is_claim(&self) -> bool
        ensures { (e : ℕ) → result ≡ claims_it (body_of e self.now) }
    {
        match self {
            Asks::Claim => true,
            Asks::Ask
            | Asks::Record(_)
            | Asks::Sot(_, _, _)
            | Asks::Mot(_, _)
            | Asks::Eot(_)
            | Asks::Trcomp(_)
            | Asks::Abt(_)
            | Asks::Plain
            | Asks::Floor(_) => false,
        }
    }
}

impl Asks {
    /// The floor that is still owed after any response to this: none where this was the floor.
    pub fn still_owed(&self, owes: Option<TxnId>) -> Option<TxnId>
        ensures { (e : ℕ) → result ≡ still_owed_of (body_of e self.now) owes }
    {
        match self {
            Asks::Floor(_) => None,
            Asks::Claim
            | Asks::Ask
            | Asks::Record(_)
            | Asks::Sot(_, _, _)
            | Asks::Mot(_, _)
            | Asks::Eot(_)
            | Asks::Trcomp(_)
            | Asks::Abt(_)
            | Asks::Plain => owes,
        }
    }
}

fn copy_start(
    txn: TxnId,
    participants: &List<FeId>,
    scope: &List<(u32, u32)>,
) -> Result<Asks, Memory>
    ensures { IfOk result (λ other. other ≡ asks.Sot txn participants.now scope.now) }
{
    let alloc = participants.alloc();
    let parts = participants.copy()?;
    let instances = List::from_slice(alloc, scope.as_slice())?;
    Ok(Asks::Sot(txn, parts, instances))
}

impl Duplicate for Asks {
    fn copy(&self) -> Result<Self, Memory> {
        match self {
            Asks::Claim => Ok(Asks::Claim),
            Asks::Ask => Ok(Asks::Ask),
            Asks::Record(txn) => Ok(Asks::Record(*txn)),
            Asks::Sot(txn, participants, scope) => copy_start(*txn, participants, scope),
            Asks::Mot(txn, number) => Ok(Asks::Mot(*txn, *number)),
            Asks::Eot(txn) => Ok(Asks::Eot(*txn)),
            Asks::Trcomp(txn) => Ok(Asks::Trcomp(*txn)),
            Asks::Abt(txn) => Ok(Asks::Abt(*txn)),
            Asks::Plain => Ok(Asks::Plain),
            Asks::Floor(floor) => Ok(Asks::Floor(*floor)),
        }
    }
}
