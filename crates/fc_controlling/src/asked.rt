// What `control` is asked for, and how it ends.

use fc_base::CeId;

/// What `control` is asked for.
#[derive(Clone, Copy, Debug, PartialEq, Eq)]
pub struct Asked {
    /// The ID of the control element.
    pub ce: CeId,
    /// How many events are taken at most, from 1.
    pub turns: u32,
    /// How many addresses were given: as many as the plan has elements.
    pub addresses: usize,
}

/// How `control` ended, where all was written.
#[derive(Clone, Copy, Debug, PartialEq, Eq)]
pub enum ControlEnd {
    /// The hub has no more events, and all of the plan is begun and settled.
    Done,
    /// The input can't be read.
    ReadFault,
    /// The hub failed.
    HubFault,
    /// The rounds failed.
    RoundsFault,
    /// The input means no plan, or one with another number of elements than addresses.
    Refused,
    /// The hub has no more events, and not all of the plan is begun and settled.
    Unfinished,
    /// An answer has held a greater epoch.
    Deposed,
    /// So many events were taken as are to be taken.
    Turns,
    /// The number that was taken is no round of a control element.
    NoRound,
    /// The input is longer than is looked at.
    TooLong,
}
