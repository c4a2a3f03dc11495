//! Repeated text: `%*N(TEXT)` in a line stands for `N` copies of `TEXT`.

use std::alloc::{AllocError, Global};

/// The line with each repeated text written out.
pub fn write_out(alloc: Global, line: &str) -> Result<String, AllocError> {
    let mut text = String::new(alloc);
    let mut is_first = true;
    for piece in line.split("%*") {
        if is_first {
            text.push_str(piece)?;
            is_first = false;
        } else {
            append_copies(&mut text, piece)?;
        }
    }
    Ok(text)
}

/// Appends the copies that a piece begins with, and what comes after them.
fn append_copies(text: &mut String, piece: &str) -> Result<(), AllocError> {
    match copies_of(piece) {
        Some((count, copied, rest)) => {
            for _ in 0..count {
                text.push_str(copied)?;
            }
            text.push_str(rest)
        }
        None => {
            text.push_str("%*")?;
            text.push_str(piece)
        }
    }
}

/// The number of copies, what is copied, and what comes after, or `None` where a part is missing.
fn copies_of(piece: &str) -> Option<(usize, &str, &str)> {
    let (count, rest) = piece.split_once('(')?;
    let (copied, rest) = rest.split_once(')')?;
    Some((count.parse().ok()?, copied, rest))
}
