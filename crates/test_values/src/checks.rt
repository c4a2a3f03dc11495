//! What the tests share. A call through a bound stands in a function that answers whether it did
//! as it should, and the answer is asserted separately: a function that does both takes many
//! times as long to prove. Out of memory is reported as `no memory`, so that it is distinct.

use std::alloc::AllocError;
use std::process::Abort;

/// What is said of a call holds.
pub(crate) fn holds(rt: &impl Abort, is_so: bool, call: &str) {
    assert!(rt; is_so, "at {call}");
}

/// What a call that takes memory answers is so.
pub(crate) fn is_so(rt: &impl Abort, asked: Result<bool, AllocError>, call: &str) {
    match asked {
        Ok(is_so) => holds(rt, is_so, call),
        Err(_rejected) => holds(rt, false, "no memory"),
    }
}
