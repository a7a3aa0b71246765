//! The format of the wire below messages (RFC 5810, sections 6.1 to 6.3): the common header, views that lend the TLVs and
//! ILVs of bytes, and a writer of TLVs.
#![tactic(auto)]

mod header;
mod ilvs;
mod integers;
mod laws;
mod tlvs;
mod types;
mod writer;

pub use header::{Flags, Header, WireFault};
pub use ilvs::{Ilv, IlvRef, Ilvs};
pub use integers::{read_u16, read_u32};
pub use laws::{
    frames_are_unique, header_is_read_again, header_is_unique, ilvs_are_unique,
    items_cut_the_bytes, tlvs_are_unique, written_items_are_read,
};
pub use tlvs::{Tlv, Tlvs};
pub use types::{
    COMMIT, COMMIT_RESPONSE, FULL_DATA, KEY_INFO, PATH_DATA, RESULT, SELECT, SPARSE_DATA, TRCOMP,
};
pub use writer::{Begun, TlvWriter, push_padding};
