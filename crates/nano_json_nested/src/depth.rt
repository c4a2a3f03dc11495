//! Where no more levels may follow.

ghost use Rattle.nano_json_nested.specs.Depth.{RejectsDepth, RejectsLevels, RunsOut};

use nano_json::{DeJsonErr, DeJsonState};
use std::alloc::Global;

/// The error of a value inside 128 others: `Value out of range levels>128 `, at the pending token.
/// It leaves the state at the end of the text.
#[cold]
#[inline(never)]
pub fn too_deep(alloc: Global, state: &mut DeJsonState) -> DeJsonErr
    ensures { RejectsDepth state.old state.new result }
{
    too_many_levels(alloc, 128, state)
}

/// The error of a value inside as many others as may be, `limit`: `Value out of range
/// levels>{limit} `, at the pending token. It leaves the state at the end of the text.
#[cold]
#[inline(never)]
pub fn too_many_levels(alloc: Global, limit: usize, state: &mut DeJsonState) -> DeJsonErr
    ensures { RejectsLevels limit state.old state.new result }
{
    let error = match format!(in alloc; "levels>{limit}") {
        Ok(what) => state.err_range(alloc, what.as_str()),
        Err(_rejected) => state.err_memory(alloc),
    };
    state.fail();
    error
}

/// The error where an environment has no level left though more may follow: out of memory. It
/// leaves the state at the end of the text.
#[cold]
#[inline(never)]
pub fn no_levels(alloc: Global, state: &mut DeJsonState) -> DeJsonErr
    ensures { RunsOut state.old state.new result }
{
    let error = state.err_memory(alloc);
    state.fail();
    error
}
