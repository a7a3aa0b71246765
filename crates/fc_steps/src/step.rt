// Steps of a script.
use fc_base::{FeId, Text, TxnId};

/// What happens in one step of a script. Controllers stand by their number, the low 8 bits of their ID.
#[derive(Debug, Drop)]
pub enum Step {
    /// The element gets a connection of the controller.
    Open(FeId, u8),
    /// The message with this place among all that were sent, from 1, comes to its addressee.
    Deliver(usize),
    /// The element sees this moment, in milliseconds.
    Moment(FeId, u64),
    /// The controller begins a life with this round, from 1 to 16,777,215.
    Start(u8, u32),
    /// The controller stops, and all that it knew is lost.
    Stop(u8),
    /// The controller begins the transaction with this name.
    Begin(u8, Text),
    /// The controller sends the one change of the transaction with this name, without a transaction.
    Plain(u8, Text),
    /// The controller gives the transaction up.
    GiveUp(u8, TxnId),
    /// The controller sends the element once more what waits for an answer there.
    Resend(u8, FeId),
    /// The controller lets its elements forget what is settled.
    Forget(u8),
    /// The element starts again from what it keeps.
    Restart(FeId),
}

/// What a text of a script says.
#[derive(Debug, Drop)]
pub enum StepText {
    /// One step.
    One(Step),
    /// The delivery of each message from the first to the second of these places, which is not below the first.
    Deliveries(usize, usize),
}
