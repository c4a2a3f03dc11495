//! Bytes as hexadecimal digits.

ghost use Rattle.std.specs.Prelude.{◌≡◌, ◌++◌, IfOk, OnOk};
ghost use Rattle.nano_show_answers.specs.Listing.{hex_pair, hex_pairs, line};

use std::alloc::{AllocError, Global};

const DIGITS: &[u8; 16] = b"0123456789abcdef";

/// The bytes as pairs of lower-case hexadecimal digits with one space between, and a line feed
/// after them.
pub(crate) fn hex_line(alloc: Global, bytes: &[u8]) -> Result<Vec<u8>, AllocError>
    ensures { IfOk result (λ text. text.items ≡ line (hex_pairs bytes.now)) }
{
    let mut text = Vec::with_capacity(alloc, bytes.len().saturating_mul(3))?;
    for byte in bytes {
        if !text.is_empty() {
            text.push(b' ')?;
        }
        push_pair(&mut text, *byte)?;
    }
    text.push(b'\n')?;
    Ok(text)
}

/// Appends the two digits of a byte.
fn push_pair(text: &mut Vec<u8>, byte: u8) -> Result<(), AllocError>
    ensures { OnOk result (text.new.items ≡ text.old.items ++ hex_pair byte) }
{
    let high = DIGITS[usize::from(byte / 16)];
    let low = DIGITS[usize::from(byte % 16)];
    text.extend_from_slice(&[high, low])
}
