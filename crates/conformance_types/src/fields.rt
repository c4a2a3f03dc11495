//! The fields of a table: bytes outside 0x20 to 0x7e and `%` are written `%XX`.

use std::alloc::{AllocError, Global};

/// The bytes as a field has them.
pub fn escape(alloc: Global, bytes: &[u8]) -> Result<String, AllocError> {
    let mut text = String::new(alloc);
    for byte in bytes {
        match *byte {
            b'%' | 0..=0x1f | 0x7f..=0xff => write!(text, "%{byte:02X}")?,
            plain => text.push(char::from(plain))?,
        }
    }
    Ok(text)
}

/// The bytes of a field, or `None` where a `%` has no two digits after it.
pub fn unescape(alloc: Global, field: &str) -> Result<Option<Vec<u8>>, AllocError> {
    let mut bytes = Vec::new(alloc);
    let mut is_first = true;
    for piece in field.split('%') {
        if is_first {
            bytes.extend_from_slice(piece.as_bytes())?;
            is_first = false;
        } else if !append_escaped(&mut bytes, piece.as_bytes())? {
            return Ok(None);
        }
    }
    Ok(Some(bytes))
}

/// Appends the byte of two digits and what stands after them, or answers that there are none.
fn append_escaped(bytes: &mut Vec<u8>, piece: &[u8]) -> Result<bool, AllocError> {
    match piece {
        [high, low, rest @ ..] => match (digit(*high), digit(*low)) {
            (Some(high), Some(low)) => {
                bytes.push(high.wrapping_mul(16).wrapping_add(low))?;
                bytes.extend_from_slice(rest)?;
                Ok(true)
            }
            _ => Ok(false),
        },
        _ => Ok(false),
    }
}

/// The number of a hexadecimal digit.
fn digit(byte: u8) -> Option<u8> {
    match byte {
        b'0'..=b'9' => Some(byte - b'0'),
        b'A'..=b'F' => Some(byte - b'A' + 10),
        _ => None,
    }
}
