//! Calls of a writer's state, and the text afterwards.

use crate::call::Call;
use crate::outcome::Outcome;
use crate::start::OUT_OF_MEMORY;
use nanoserde::{SerJsonState, SerRonState};
use std::alloc::{AllocError, Global};

/// What a call leaves of a JSON text.
pub(crate) fn json_call(alloc: Global, call: &str, text: &str) -> Result<Outcome, AllocError> {
    let mut state = SerJsonState {
        out: String::from_str(alloc, text)?,
    };
    let written = match Call::of(call) {
        Some(Call::Indent1) => state.indent(1),
        Some(Call::Field1A) => state.field(1, "a"),
        Some(Call::LabelB) => state.label("b"),
        Some(Call::Conl) => state.conl(),
        Some(Call::StPre) => state.st_pre(),
        Some(Call::StPost1) => state.st_post(1),
        _ => return Ok(Outcome::Unknown),
    };
    left(alloc, written, state.out.as_str())
}

/// What a call leaves of a RON text.
pub(crate) fn ron_call(alloc: Global, call: &str, text: &str) -> Result<Outcome, AllocError> {
    let mut state = SerRonState {
        out: String::from_str(alloc, text)?,
    };
    let written = match Call::of(call) {
        Some(Call::Indent1) => state.indent(1),
        Some(Call::Field1A) => state.field(1, "a"),
        Some(Call::Conl) => state.conl(),
        Some(Call::StPre) => state.st_pre(),
        Some(Call::StPost0) => state.st_post(0),
        Some(Call::StPost1) => state.st_post(1),
        _ => return Ok(Outcome::Unknown),
    };
    left(alloc, written, state.out.as_str())
}

/// The answer, and the text after it.
fn left(alloc: Global, written: Result<(), AllocError>, text: &str) -> Result<Outcome, AllocError> {
    let answer = match written {
        Ok(()) => "ok",
        Err(_) => OUT_OF_MEMORY,
    };
    let reported = format!(in alloc; "{answer} -> {text}")?;
    Ok(Outcome::Text(reported.into_bytes()))
}
