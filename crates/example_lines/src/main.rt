//! An example: a log of lines of JSON, each a name and an age.
//!
//! It writes each line of standard input that holds such an entry to standard output, in its
//! normal form, and in the place of any other line what is wrong with it.
#![tactic(auto)]

use anyhow::Result;
use nano_lines::{Fault, Lines, put};
use std::io::{BufWriter, Write};

/// The most bytes that a line may have.
const LIMIT: usize = 1000;

fn main(rt: HostRuntime) -> Result<()> {
    let alloc = rt.alloc();
    let mut lines = Lines::with_limit(alloc, rt.stdin(), LIMIT)?;
    let mut output = BufWriter::new(alloc, rt.stdout())?;
    for _ in 0..u64::MAX {
        match lines.next::<(String, u8)>(alloc) {
            Ok(Some(entry)) => put(alloc, &entry, &mut output)?,
            Ok(None) => break,
            Err(Fault::Stream(error)) => return Err(error.into()),
            Err(fault) => writeln!(output, "{fault}")?,
        }
    }
    Ok(output.flush()?)
}
