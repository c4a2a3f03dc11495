//! What the words of `nano_show` answer.

use conformance_types::{Outcome, unescape};
use nano_show_answers::{ShowFault, ending, run};
use std::alloc::{AllocError, Global};

/// The capacity of a writer, so that no write in a case asks for memory.
const CAPACITY: usize = 65_536;

/// What the words print for the input, or how they end. A space parts words, `%20` is one in a
/// word, and `%_` stands for the empty word.
pub(crate) fn run_words(alloc: Global, line: &str, input: &[u8]) -> Result<Outcome, AllocError> {
    let words = words_of(alloc, line)?;
    let mut rest = input;
    let mut output = Vec::with_capacity(alloc, CAPACITY)?;
    match run(alloc, &words, &mut rest, &mut output) {
        Ok(()) => Ok(Outcome::Text(output)),
        Err(ShowFault::Memory) => Err(AllocError),
        Err(fault) => {
            let (status, text) = ending(&fault);
            let reported = format!(in alloc; "{status}: {text}")?;
            Ok(Outcome::Error(reported.into_bytes()))
        }
    }
}

/// The words of a line; the empty line has none.
fn words_of(alloc: Global, line: &str) -> Result<Vec<String>, AllocError> {
    let mut words = Vec::new(alloc);
    if line.is_empty() {
        return Ok(words);
    }
    for word in line.split(' ') {
        words.push(word_of(alloc, word)?)?;
    }
    Ok(words)
}

/// A word without its escapes.
fn word_of(alloc: Global, word: &str) -> Result<String, AllocError> {
    if word == "%_" {
        return Ok(String::new(alloc));
    }
    match unescape(alloc, word)? {
        Some(bytes) => match String::from_utf8(bytes) {
            Ok(text) => Ok(text),
            Err(_) => Ok(String::new(alloc)),
        },
        None => Ok(String::new(alloc)),
    }
}
