//! An example: a log of events, of which each is a line of JSON at the end of a file.
//!
//! `example_events append FILE` writes the events of standard input after those of the file,
//! `list FILE` prints the events, and `totals FILE` what they come to. A line that holds no event
//! is shown in its place, with its number, the line and a caret, and the rest is read all the same;
//! the status is 1 then. No word changes what the file holds already, and each reads in memory that
//! does not grow with it.
#![tactic(auto)]

mod event;
mod log;
#[cfg(test)]
mod log_tests;
mod totals;

use anyhow::{Context, Result, bail};
use std::env;
use std::fs::{File, OpenOptions};
use std::io::{BufWriter, Write};
use std::process::ExitCode;

const USAGE: &str = "usage: example_events append FILE | list FILE | totals FILE";

/// Writes the events of standard input after those of a file, which is made if there is none.
fn append(rt: &HostRuntime, name: &str) -> Result<u64> {
    let mut file = OpenOptions::new()
        .read(true)
        .append(true)
        .create(true)
        .open(rt, name)
        .context(format_args!("opening {name}"))?;
    log::end_line(&mut file)?;
    let damaged = log::append(rt.alloc(), rt.stdin(), "input", &mut file, &mut rt.stdout())?;
    file.sync_all()?;
    Ok(damaged)
}

/// Answers the words of the command line, and returns how many lines hold no event.
fn answer(rt: &HostRuntime, word: &str, name: &str) -> Result<u64> {
    let alloc = rt.alloc();
    match word {
        "append" => append(rt, name),
        "list" | "totals" => {
            let file = File::open(rt, name).context(format_args!("opening {name}"))?;
            let mut output = BufWriter::new(alloc, rt.stdout())?;
            let damaged = if word == "list" {
                log::list(alloc, file, name, &mut output)?
            } else {
                log::totals(alloc, file, name, &mut output)?
            };
            output.flush()?;
            Ok(damaged)
        }
        _ => bail!("{USAGE}"),
    }
}

fn main(rt: HostRuntime) -> Result<ExitCode> {
    let words: Vec<String> = env::args(&rt)?.collect(rt.alloc())?;
    let [_, word, name] = words.as_slice() else {
        bail!("{USAGE}");
    };
    match answer(&rt, word.as_str(), name.as_str())? {
        0 => Ok(ExitCode::SUCCESS),
        _damaged => Ok(ExitCode::FAILURE),
    }
}
