// The bytes of a table of many entries.
use fc_base::Memory;
use std::alloc::Global;

// The key of an entry. Keys differ, and do not rise.
pub(crate) fn key(subscript: u32) -> u32 {
    subscript ^ 0x5555
}

// An entry: its key, and its subscript as its value.
pub(crate) fn pair(subscript: u32) -> [u8; 8] {
    (u64::from(key(subscript)) * 0x1_0000_0000 + u64::from(subscript)).to_be_bytes()
}

// So many entries by rising subscript, which is how they are written.
pub(crate) fn rising(alloc: Global, count: u32) -> Result<Vec<u8>, Memory> {
    let mut bytes = Vec::new(alloc);
    for subscript in 0..count {
        bytes.extend_from_slice(&subscript.to_be_bytes())?;
        bytes.extend_from_slice(&pair(subscript))?;
    }
    Ok(bytes)
}

// The same by falling subscript.
pub(crate) fn falling(alloc: Global, count: u32) -> Result<Vec<u8>, Memory> {
    let mut bytes = Vec::new(alloc);
    for place in 1..=count {
        let subscript = count.wrapping_sub(place);
        bytes.extend_from_slice(&subscript.to_be_bytes())?;
        bytes.extend_from_slice(&pair(subscript))?;
    }
    Ok(bytes)
}
