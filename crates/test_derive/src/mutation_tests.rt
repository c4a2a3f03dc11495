//! Mutated copies of sources: for each there is an answer.

use crate::outcome::MODULE;
use derive_text::{DeriveError, derive};
use std::alloc::{AllocError, Global};
use std::process::Abort;

/// A source with each form that the generator reads.
const SOURCE: &str = "//! Shapes.

use std::collections::{BTreeMap, HashMap};
ghost use Rattle.std.specs.Prelude.{◌≡◌};

/* A /* nested */ comment. */
/// A server.
// nanoserde: bin json, ron
#[derive(PartialEq, Debug, Drop)]
pub struct Server {
    /// Where it is.
    // nanoserde: rename = \"type\"
    pub host: String,
    pub(crate) port: Option<u16>,
    // nanoserde: default = \"-5\"
    pub offset: i32,
    // nanoserde: skip
    pub hits: u64,
    // nanoserde: skip, default = \"none\"
    pub note: String,
    pub words: HashMap<String, Vec<(u8, [u32; 4])>>,
}

// nanoserde: de_json
// nanoserde: ser_json
struct Pair<A: Clone, B> where B: super::C {
    a: A,
    b: std::option::Option<B>,
}

// nanoserde: bin json ron transparent
pub struct Plain(pub i32);

// nanoserde: bin
struct Triple(u8, u16, BTreeMap<String, u64>);

// nanoserde: json ron
struct Five(u8, u16, (), Option<String>, Vec<bool>);

// nanoserde: json, rename_all = \"snake_case\"
enum Event {
    Stop,
    // nanoserde: rename = \"go on\"
    Move(u32, String),
    Say {
        // nanoserde: rename = \"größe\", default = \"7\"
        times: u32,
        text: String,
    },
}

mod derived;
";

/// The source with one character replaced, and another at a place that many characters further on.
fn mutated(alloc: Global, at: usize, further: usize, put: &str) -> Result<String, AllocError> {
    let mut text = String::new(alloc);
    for (i, c) in SOURCE.chars().enumerate() {
        if i == at || i == at.saturating_add(further) {
            text.push_str(put)?;
        } else {
            text.push(c)?;
        }
    }
    Ok(text)
}

/// Whether a source has an answer: it is not moved, and an error stands in it.
fn has_answer(alloc: Global, source: &str) -> Result<bool, AllocError> {
    match derive(alloc, MODULE, source) {
        Ok(written) => Ok(written.moved.is_none()),
        Err(DeriveError::Source(fault)) => Ok(fault.offset <= source.len()),
        Err(DeriveError::Memory) => Err(AllocError),
    }
}

/// Whether each mutated copy with this in place of a character has an answer.
fn have_answers(alloc: Global, put: &str) -> Result<bool, AllocError> {
    let count = SOURCE.chars().count();
    for at in 0..count {
        let text = mutated(alloc, at, at / 3 + 1, put)?;
        if !has_answer(alloc, text.as_str())? {
            return Ok(false);
        }
    }
    Ok(count > 500)
}

/// Each mutated copy with each of these in place of a character has an answer.
fn all_have_answers(rt: &impl Abort, alloc: Global, puts: &[&str]) {
    for put in puts {
        assert!(rt; have_answers(alloc, put) == Ok(true), "{put}");
    }
}

#[test]
fn copies_without_a_character_have_answers(rt: HostRuntime) {
    all_have_answers(&rt, rt.alloc(), &["", "\n"]);
}

#[test]
fn copies_with_a_quote_have_answers(rt: HostRuntime) {
    all_have_answers(&rt, rt.alloc(), &["\"", "'", "\\"]);
}

#[test]
fn copies_with_a_bracket_have_answers(rt: HostRuntime) {
    all_have_answers(&rt, rt.alloc(), &["<", "}", "("]);
}

#[test]
fn copies_with_a_comment_have_answers(rt: HostRuntime) {
    all_have_answers(&rt, rt.alloc(), &["/", "*", "// nanoserde: "]);
}
