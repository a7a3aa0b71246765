// The state that Configs may change.
ghost use Rattle.std.specs.Prelude.{◌≡◌, IfOk};
ghost use Rattle.fc_performing.specs.Sending.{IsAnswer};
ghost use Rattle.fc_transactions.specs.State.{opened};

use crate::Ledger;
use fc_base::{CeId, FeId, List, Memory};
use fc_events::Subscriptions;
use fc_lfbs::{Mastership, mastership_types};
use fc_msg::Message;
use fc_store::Store;
use fc_tx::{Fence, Records};
use std::alloc::Global;
use std::marker::Model;

/// What Configs may change at an element: its fence, its records of transactions, its configuration, in which the changes of all held
/// transactions stand, and what is registered for events.
#[derive(Drop)]
pub struct Transactions {
    pub(crate) id: FeId,
    pub(crate) fence: Fence,
    // The response to the last Config of the master that was taken, if there was one.
    pub(crate) kept: Option<Message>,
    // The control element that may configure the element, and the one before.
    pub(crate) ce: u32,
    pub(crate) last_ce: u32,
    pub(crate) ledger: Ledger,
    pub(crate) types: Mastership,
    pub(crate) alloc: Global,
}

impl Model for Transactions {
    ghost use Rattle.fc_transactions.specs.Sound.{IsSound};
    ghost use Rattle.fc_transactions.specs.State.{TransactionState, state_code};

    ghost Value = { TransactionState };

    ghost coded = { state_code };

    ghost view = { λ s. record { id = s.id; epoch = s.fence.epoch; master = s.fence.master; sequence = s.fence.sequence; kept = s.kept; ce = s.ce; last_ce = s.last_ce; ledger = s.ledger } };

    ghost invariant = { λ s. IsSound s.types s.kept };
}

impl Transactions {
    /// An element with this ID and configuration, which no life of a control element has claimed, and the control element that is to
    /// configure it. No event is registered.
    pub fn new(alloc: Global, id: FeId, ce: CeId, store: Store) -> Result<Transactions, Memory>
        ensures { IfOk result (λ transactions. transactions ≡ opened id ce store) }
    {
        let types = mastership_types(alloc)?;
        Ok(Transactions {
            id,
            fence: Fence {
                epoch: 0,
                master: 0,
                sequence: 0,
            },
            kept: None,
            ce: ce.get(),
            last_ce: 0,
            ledger: Ledger {
                records: Records::new(alloc),
                holdings: List::new(alloc),
                store,
                subscriptions: Subscriptions::new(alloc),
            },
            types,
            alloc,
        })
    }

    /// The ID of the element.
    pub fn id(&self) -> FeId
        ensures { result ≡ self.now.id }
    {
        self.id
    }

    /// The response to the last Config of the master that was taken, if there was one. It can be sent once more.
    pub fn kept(&self) -> &Option<Message>
        ensures same { result.now ≡ self.now.kept }
        ensures fits { IsAnswer self.now.kept }
    {
        &self.kept
    }

    /// What stands: the records, the configuration, and what is registered.
    pub fn ledger(&self) -> &Ledger
        ensures { result.now ≡ self.now.ledger }
    {
        &self.ledger
    }

    /// The fence.
    pub fn fence(&self) -> Fence
        ensures { result ≡ record { epoch = self.now.epoch; master = self.now.master; sequence = self.now.sequence } }
    {
        self.fence
    }

    /// The control element that may configure the element.
    pub fn ce(&self) -> u32
        ensures { result ≡ self.now.ce }
    {
        self.ce
    }

    /// The control element before that one, or 0.
    pub fn last_ce(&self) -> u32
        ensures { result ≡ self.now.last_ce }
    {
        self.last_ce
    }
}
