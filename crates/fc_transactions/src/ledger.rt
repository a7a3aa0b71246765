// The configuration of an element, with the transactions that change it.
use fc_base::List;
use fc_events::Subscriptions;
use fc_holding::Holding;
use fc_store::Store;
use fc_tx::Records;

/// What Configs change at an element.
#[derive(Drop)]
pub struct Ledger {
    /// The records of transactions, with their floor.
    pub records: Records,
    /// What is kept of those that are held.
    pub holdings: List<Holding>,
    /// The configuration, in which the changes of all that is held stand, with a mark over the instances of each.
    pub store: Store,
    /// What is registered for events, as of the settled configuration.
    pub subscriptions: Subscriptions,
}
