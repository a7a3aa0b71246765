// Documents, with the library or the line that comes of each.
mod accepted;
mod long_key;
mod port;

use fc_library::{LibFault, library_from_slice, refusal};
pub(crate) use port::PORT;
use std::alloc::Global;
use std::test::Fail;

// The line that a document is refused with, or `accepted`.
pub(crate) fn line(alloc: Global, document: &[u8]) -> Result<Vec<u8>, Fail> {
    match library_from_slice(alloc, document) {
        Ok(_) => Ok(Vec::from_slice(alloc, "accepted\n".as_bytes())?),
        Err(LibFault::Memory) => Err(Fail::from("memory")),
        Err(fault) => Ok(refusal(alloc, "library", &fault).ok().ok_or("memory")?),
    }
}
