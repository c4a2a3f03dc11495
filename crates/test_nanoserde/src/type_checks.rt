//! What the tests assert. Out of memory is reported as `no memory`, so that it is distinct.

use std::alloc::AllocError;
use std::process::Abort;

/// What is said of a text holds.
pub(crate) fn holds(rt: &impl Abort, is_so: bool, text: &str) {
    assert!(rt; is_so, "at {text}");
}

/// What a call that takes memory answers is so.
pub(crate) fn is_so(rt: &impl Abort, asked: Result<bool, AllocError>, text: &str) {
    match asked {
        Ok(is_so) => holds(rt, is_so, text),
        Err(_rejected) => holds(rt, false, "no memory"),
    }
}

/// The text was made, and is the expected one.
pub(crate) fn is_made(rt: &impl Abort, made: Result<String, AllocError>, expected: &str) {
    match made {
        Ok(made) => assert!(rt; made.as_str() == expected, "{made}"),
        Err(_rejected) => holds(rt, false, "no memory"),
    }
}
