// The statuses of the program.

/// The input was read to its end, or the hub had no more events, and all was written.
pub const DONE: u8 = 0;

/// The words are no command.
pub const NO_COMMAND: u8 = 1;

/// The input can't be read.
pub const READ_FAULT: u8 = 2;

/// The output can't be written.
pub const WRITE_FAULT: u8 = 3;

/// The hub failed, or the rounds.
pub const HUB_FAULT: u8 = 4;

/// The input is no library, no plan, no script of which all steps can be made, or no text of messages, that is taken.
pub const REFUSED: u8 = 5;

/// The input has a frame that is no message, or ends within a frame.
pub const NO_MESSAGE: u8 = 6;

/// The hub had no more events, and not all of the plan was begun and settled.
pub const UNFINISHED: u8 = 7;

/// An answer has held a greater epoch.
pub const DEPOSED: u8 = 8;

/// Out of memory.
pub const NO_MEMORY: u8 = 9;

/// So many events were taken as are to be taken.
pub const TURNS: u8 = 10;

/// The number that was taken is no round of a control element.
pub const NO_ROUND: u8 = 11;

/// The input is longer than is read.
pub const TOO_LONG: u8 = 12;
