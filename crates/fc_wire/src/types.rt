// The types of TLVs.

/// The type of an LFBselect (RFC 5810, section 7.1.5).
pub const SELECT: u16 = 0x1000;
/// The type of a PATH-DATA (RFC 5810, section 7.1.7).
pub const PATH_DATA: u16 = 0x0110;
/// The type of a KEYINFO.
pub const KEY_INFO: u16 = 0x0111;
/// The type of a FULLDATA.
pub const FULL_DATA: u16 = 0x0112;
/// The type of a SPARSEDATA.
pub const SPARSE_DATA: u16 = 0x0113;
/// The type of a RESULT.
pub const RESULT: u16 = 0x0114;
/// The type of the operation COMMIT (RFC 5810, section 7.1.6).
pub const COMMIT: u16 = 0x000c;
/// The type of the operation COMMIT-RESPONSE.
pub const COMMIT_RESPONSE: u16 = 0x000d;
/// The type of the operation TRCOMP.
pub const TRCOMP: u16 = 0x000e;
