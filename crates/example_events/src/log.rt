//! A log of events over any reader and any writer.

use crate::event::Event;
use crate::totals::Totals;
use anyhow::Result;
use nano_lines::{Fault, Lines, put};
use nano_text_forms::Rejection;
use std::alloc::{AllocError, Global};
use std::io::{Read, Seek, SeekFrom, Write};

/// The most bytes that a line may have.
const LIMIT: usize = 1 << 20;

/// Ends the last line of a log, if a write that failed has left it without its line feed.
pub(crate) fn end_line<F: Read + Write + Seek>(log: &mut F) -> Result<()> {
    if log.seek(SeekFrom::End(0))? == 0 {
        return Ok(());
    }
    let mut last = [0u8; 1];
    log.seek(SeekFrom::End(-1))?;
    if log.read(&mut last)? == 1 && last[0] != b'\n' {
        log.write_all(b"\n")?;
    }
    Ok(())
}

/// Puts each event of an input of this name at the end of a log, shows the other lines, and returns
/// how many these are.
pub(crate) fn append<R: Read + Drop, L: Write, W: Write>(
    alloc: Global,
    input: R,
    name: &str,
    log: &mut L,
    output: &mut W,
) -> Result<u64> {
    let mut lines = Lines::with_limit(alloc, input, LIMIT)?;
    let mut damaged = 0u64;
    for _ in 0..u64::MAX {
        match lines.next::<Event>(alloc) {
            Ok(Some(event)) => put(alloc, &event, log)?,
            Ok(None) => break,
            Err(fault) => {
                show(output, name, fault)?;
                damaged = damaged.saturating_add(1);
            }
        }
    }
    Ok(damaged)
}

/// Prints each event of a log, shows the lines that hold none, and returns how many these are.
pub(crate) fn list<R: Read + Drop, W: Write>(
    alloc: Global,
    log: R,
    name: &str,
    output: &mut W,
) -> Result<u64> {
    let mut lines = Lines::with_limit(alloc, log, LIMIT)?;
    let mut damaged = 0u64;
    for _ in 0..u64::MAX {
        match lines.next::<Event>(alloc) {
            Ok(Some(event)) => writeln!(output, "{event:?}")?,
            Ok(None) => break,
            Err(fault) => {
                show(output, name, fault)?;
                damaged = damaged.saturating_add(1);
            }
        }
    }
    Ok(damaged)
}

/// Prints what the events of a log come to, after the lines that hold none, and returns how many
/// these are.
pub(crate) fn totals<R: Read + Drop, W: Write>(
    alloc: Global,
    log: R,
    name: &str,
    output: &mut W,
) -> Result<u64> {
    let mut lines = Lines::with_limit(alloc, log, LIMIT)?;
    let mut totals = Totals::new();
    for _ in 0..u64::MAX {
        match lines.next::<Event>(alloc) {
            Ok(Some(event)) => totals.add(&event),
            Ok(None) => break,
            Err(fault) => {
                show(output, name, fault)?;
                totals.add_fault();
            }
        }
    }
    writeln!(output, "{totals}")?;
    Ok(totals.damaged)
}

/// Shows why a line holds no event. The faults that say nothing about a line are errors.
fn show<W: Write>(output: &mut W, name: &str, fault: Fault) -> Result<()> {
    match fault {
        Fault::Bad { error, line } => match Rejection::from(error) {
            Rejection::Text(fault) => Ok(fault.show_line(output, name, line.as_str())?),
            Rejection::Memory => Err(AllocError.into()),
        },
        Fault::Stream(error) => Err(error.into()),
        fault => Ok(writeln!(output, "{name}: {fault}")?),
    }
}
