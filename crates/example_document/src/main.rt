//! An example: documents of JSON of any shape, from standard input to standard output.
//!
//! `indent` writes the document with indentation, `compact` in its canonical text, and so does
//! `within LEVELS`, which reads a document of at most so many levels, and not of 128. `get POINTER`
//! writes what a JSON Pointer leads to, and `set POINTER JSON` the document with that in its place,
//! all else as it was. What is wrong with the input is printed with its line and column, that line,
//! and a caret under the character where reading stopped.
#![tactic(auto)]

mod set;

use anyhow::{Context, Result, bail};
use nano_document::Json;
use nano_json::{DeJson, DeJsonErr, SerJson};
use nano_text_forms::Rejection;
use set::set;
use std::alloc::{AllocError, Global};
use std::env;
use std::io::{Read, Write};
use std::process::ExitCode;

const USAGE: &str =
    "usage: example_document indent | compact | within LEVELS | get POINTER | set POINTER JSON";

/// Reads the input as a document: `within` says how many levels it may have.
fn read(alloc: Global, levels: Option<usize>, text: &str) -> Result<Json, DeJsonErr> {
    match levels {
        Some(levels) => Json::deserialize_json_whole_within(alloc, levels, text),
        None => Json::deserialize_json_whole(alloc, text),
    }
}

/// How many levels a document may have, if the words say so.
fn levels_of(word: &str, more: &[String]) -> Result<Option<usize>> {
    match (word, more) {
        ("within", [levels]) => Ok(Some(levels.parse().context("LEVELS")?)),
        _ => Ok(None),
    }
}

/// What a document comes to by a word and what follows it.
fn answer(alloc: Global, word: &str, more: &[String], document: Json) -> Result<String> {
    match (word, more) {
        ("indent", []) => Ok(document.serialize_indented(alloc)?),
        ("compact", []) => Ok(document.serialize_json(alloc)?),
        ("within", [_levels]) => Ok(document.serialize_json(alloc)?),
        ("get", [pointer]) => match document.pointer(pointer.as_str()) {
            Some(found) => Ok(found.serialize_json(alloc)?),
            None => bail!("nothing at {pointer}"),
        },
        ("set", [pointer, json]) => {
            let value = Json::deserialize_json_whole(alloc, json.as_str()).context("JSON")?;
            Ok(set(alloc, document, pointer.as_str(), value)?.serialize_json(alloc)?)
        }
        _ => bail!(USAGE),
    }
}

/// Shows what is wrong with the input.
fn show(rt: &HostRuntime, rejection: Rejection, text: &str) -> Result<ExitCode> {
    match rejection {
        Rejection::Text(fault) => {
            fault.show(&mut rt.stderr(), "input", text)?;
            Ok(ExitCode::FAILURE)
        }
        Rejection::Memory => Err(AllocError.into()),
    }
}

fn main(rt: HostRuntime) -> Result<ExitCode> {
    let alloc = rt.alloc();
    let words: Vec<String> = env::args(&rt)?.collect(alloc)?;
    let [_, word, more @ ..] = words.as_slice() else {
        bail!(USAGE);
    };
    let mut text = String::new(alloc);
    rt.stdin().read_to_string(&mut text).context("reading")?;
    let levels = levels_of(word.as_str(), more)?;
    match read(alloc, levels, text.as_str()) {
        Ok(document) => {
            let mut written = answer(alloc, word.as_str(), more, document)?;
            written.push('\n')?;
            rt.stdout().write_all(written.as_bytes())?;
            Ok(ExitCode::SUCCESS)
        }
        Err(error) => show(&rt, error.into(), text.as_str()),
    }
}
