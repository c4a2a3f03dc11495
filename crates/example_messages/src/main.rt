//! An example: messages one after the other in a stream of bytes, each in a frame.
//!
//! `example_messages write COUNT` writes that many messages to standard output;
//! `example_messages read CHUNK` reads standard input in chunks of at most that many bytes, and
//! prints each message on a line.
#![tactic(auto)]

mod message;

use anyhow::{Context, Result, bail};
use message::Message;
use nano_bin_frames::{Messages, put};
use std::alloc::{AllocError, Global};
use std::collections::HashMap;
use std::env;
use std::io::{BufWriter, Write};

/// The message of this number.
fn sample(alloc: Global, number: u32) -> Result<Message, AllocError> {
    match number % 3 {
        0 => Ok(Message::Move(number, vec![in alloc; 1, -2]?)),
        1 => {
            let mut to = HashMap::new(alloc);
            to.insert(String::from_str(alloc, "bob")?, number)?;
            to.insert(String::from_str(alloc, "ann")?, 1)?;
            let text = format!(in alloc; "message {number}")?;
            Ok(Message::Say { text, to })
        }
        _ => Ok(Message::Leave),
    }
}

fn write(rt: &HostRuntime, count: u32) -> Result<()> {
    let alloc = rt.alloc();
    let mut output = BufWriter::new(alloc, rt.stdout())?;
    for number in 0..count {
        put(alloc, &sample(alloc, number)?, &mut output)?;
    }
    Ok(output.flush()?)
}

fn read(rt: &HostRuntime, chunk: usize) -> Result<()> {
    let alloc = rt.alloc();
    let mut messages = Messages::new(alloc, rt.stdin(), chunk)?;
    let mut output = BufWriter::new(alloc, rt.stdout())?;
    for _ in 0..u64::MAX {
        match messages.next::<Message>(alloc) {
            Ok(Some(message)) => writeln!(output, "{message:?}")?,
            Ok(None) => break,
            Err(fault) => {
                output.flush()?;
                return Err(fault.into());
            }
        }
    }
    Ok(output.flush()?)
}

fn main(rt: HostRuntime) -> Result<()> {
    let words: Vec<String> = env::args(&rt)?.collect(rt.alloc())?;
    let [_, word, number] = words.as_slice() else {
        bail!("usage: example_messages write COUNT | read CHUNK");
    };
    match word.as_str() {
        "write" => write(&rt, number.parse().context("COUNT")?),
        "read" => read(&rt, number.parse().context("CHUNK")?),
        word => bail!("no word {word}"),
    }
}
