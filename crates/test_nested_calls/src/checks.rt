//! What the tests share: a call stands in a function that answers whether it did as it should, and
//! the answer is asserted separately.

use std::alloc::{AllocError, Global};
use std::process::Abort;

/// What is said of a call holds.
pub(crate) fn holds(rt: &impl Abort, is_so: bool, call: &str) {
    assert!(rt; is_so, "at {call}");
}

/// The words of the error of a text with more than 128 levels.
pub(crate) const TOO_DEEP: &str = "Value out of range levels>128 ";

/// What stands around the value inside another, and the innermost value.
pub(crate) struct Deep {
    pub opening: &'static str,
    pub innermost: &'static str,
    pub closing: &'static str,
}

/// Appends a text so many times.
fn append_times(text: &mut String, count: usize, part: &str) -> Result<(), AllocError> {
    for _ in 0..count {
        text.push_str(part)?;
    }
    Ok(())
}

/// The text of a value in others, of so many around it.
pub(crate) fn nested(alloc: Global, deep: &Deep, around: usize) -> Result<String, AllocError> {
    let mut text = String::new(alloc);
    append_times(&mut text, around, deep.opening)?;
    text.push_str(deep.innermost)?;
    append_times(&mut text, around, deep.closing)?;
    Ok(text)
}
