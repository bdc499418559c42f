// Texts that are too long to be written out, and bytes that are no text.

use std::alloc::{AllocError, Global};

/// A text of these parts, each so many times. Running out of memory is the one error.
pub fn repeated(alloc: Global, parts: &[(&str, usize)]) -> Result<String, AllocError> {
    let mut text = String::new(alloc);
    for (part, count) in parts {
        for _ in 0..*count {
            text.push_str(part)?;
        }
    }
    Ok(text)
}

/// A text that has each number from 0 up to `count`, that one left out, between `before` and `after`. Running out of
/// memory is the one error.
pub fn numbered(
    alloc: Global,
    before: &str,
    after: &str,
    count: usize,
) -> Result<String, AllocError> {
    let mut text = String::new(alloc);
    for number in 0..count {
        let part = format!(in alloc; "{before}{number}{after}")?;
        text.push_str(part.as_str())?;
    }
    Ok(text)
}

// The value of a hexadecimal digit; none where the byte is none.
fn digit_of(byte: u8) -> Option<u8> {
    match byte {
        b'0'..=b'9' => Some(byte - b'0'),
        b'a'..=b'f' => Some(byte - b'a' + 10),
        _ => None,
    }
}

/// The bytes that these hexadecimal digits encode, two a byte, the first one high; what is no digit is passed over.
/// Running out of memory is the one error.
pub fn bytes_of(alloc: Global, digits: &str) -> Result<Vec<u8>, AllocError> {
    let mut bytes = Vec::new(alloc);
    let mut high = None;
    for byte in digits.as_bytes() {
        let Some(digit) = digit_of(*byte) else {
            continue;
        };
        match high {
            None => high = Some(digit),
            Some(first) => {
                bytes.push(first << 4 | digit)?;
                high = None;
            }
        }
    }
    Ok(bytes)
}
