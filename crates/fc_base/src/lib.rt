//! What every crate stands on: identifiers, result codes, want of memory and the faults of the outside, lists and texts
//! that contracts see as lists, and the sources and sinks of bytes.
#![tactic(auto)]

mod boxed;
mod code;
mod compared;
mod digits;
mod duplicate;
mod faults;
mod ids;
mod list;
mod memory_ends;
mod shared;
mod sink;
mod source;
mod std_ends;
mod text;

pub use boxed::Boxed;
pub use code::Code;
pub use digits::{
    digits_of_eight, digits_of_four, eight_digits, push_hex, sixteen_digits, two_digits,
};
pub use duplicate::Duplicate;
pub use faults::{Memory, OpFault, Trouble, WriteFault};
pub use ids::{CeId, Epoch, FeId, TxnId};
pub use list::List;
pub use memory_ends::{MemSink, MemSource, SureSink, SureSource};
pub use shared::Shared;
pub use sink::{Sink, write_all};
pub use source::Source;
pub use std_ends::{StdSink, StdSource};
pub use text::{Octets, Text};
