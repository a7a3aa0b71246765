use std::alloc::{AllocError, Global};

/// Appends the bytes of hexadecimal digits in upper case; all other characters are passed over.
pub fn push_digits(bytes: &mut Vec<u8>, digits: &str) -> Result<(), AllocError> {
    let mut high = None;
    for c in digits.bytes() {
        let digit = match c {
            b'0'..=b'9' => c - b'0',
            b'A'..=b'F' => c - b'A' + 10,
            _ => continue,
        };
        match high {
            None => high = Some(digit),
            Some(first) => {
                bytes.push((first % 16) * 16 + digit % 16)?;
                high = None;
            }
        }
    }
    Ok(())
}

/// The bytes of hexadecimal digits in upper case; all other characters are passed over, so `-` stands for no bytes.
pub fn bytes_of(alloc: Global, digits: &str) -> Result<Vec<u8>, AllocError> {
    let mut bytes = Vec::new(alloc);
    push_digits(&mut bytes, digits)?;
    Ok(bytes)
}

/// What stands in front of the first mark and what stands behind it; all and nothing where there is no mark.
pub fn cut<'a>(text: &'a str, mark: &str) -> (&'a str, &'a str) {
    match text.split_once(mark) {
        Some(parts) => parts,
        None => (text, ""),
    }
}

/// The words of a line, between which single spaces stand.
pub fn words_of(alloc: Global, line: &str) -> Result<Vec<String>, AllocError> {
    let mut words = Vec::new(alloc);
    for word in line.split(' ') {
        words.push(String::from_str(alloc, word)?)?;
    }
    Ok(words)
}
