// What an element keeps of transactions that are held.
use fc_base::{List, TxnId};
use fc_path::Select;
use fc_store::StoreMark;

/// What is kept of a transaction that is held.
#[derive(Debug, Drop)]
pub struct Holding {
    pub txn: TxnId,
    /// The mark that was set over its instances when it was opened.
    pub mark: StoreMark,
    /// The operations that were accepted, in their order: of each message those behind the first, where there are any.
    pub rests: List<List<Select>>,
}
