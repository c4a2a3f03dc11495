//! An example: a file of records by key.
//!
//! `example_store FILE new` makes an empty one, `FILE put KEY VALUE [NOTE]` puts a record,
//! `FILE get KEY` prints it, `FILE list` prints all, and `FILE check` reports which records are
//! equal, by their bytes alone.
#![tactic(auto)]

mod rows;

use anyhow::{Context, Result, bail};
use nano_bin::SerBin;
use rows::{get, load, put};
use std::collections::{BTreeMap, HashMap};
use std::env;
use std::fs::{self, File};

/// A record: a value, and a note where there is one.
type Item = (i32, Option<String>);

const USAGE: &str = "usage: example_store FILE new | put KEY VALUE [NOTE] | get KEY | list | check";

/// Makes an empty store.
fn make(rt: &HostRuntime, file: &str) -> Result<()> {
    let code = BTreeMap::<String, Item>::new(rt.alloc()).serialize_bin(rt.alloc())?;
    Ok(fs::write(rt, file, code)?)
}

/// Puts a record: the new store is written beside the file, and then moved to its place.
fn put_into(rt: &HostRuntime, file: &str, key: &str, item: Item) -> Result<()> {
    let key = String::from_str(rt.alloc(), key)?;
    let beside = format!(in rt.alloc(); "{file}.new")?;
    let mut input = File::open(rt, file)?;
    put(
        rt.alloc(),
        key,
        item,
        &mut input,
        &mut File::create(rt, beside.as_str())?,
    )?;
    Ok(fs::rename(rt, beside.as_str(), file)?)
}

/// Reports which records are equal to one before them.
fn check(rt: &HostRuntime, store: &BTreeMap<String, Item>) -> Result<()> {
    let mut seen = HashMap::<Vec<u8>, &str>::new(rt.alloc());
    for (key, item) in store {
        let code = item.serialize_bin(rt.alloc())?;
        match seen.get(code.as_slice()).copied() {
            Some(first) => println!(rt; "{key} is equal to {first}")?,
            None => {
                seen.insert(code, key.as_str())?;
            }
        }
    }
    Ok(())
}

/// Answers the words of the command line.
fn answer(rt: &HostRuntime, file: &str, words: &[&str]) -> Result<()> {
    match words {
        ["put", key, value, note @ ..] => {
            let value = value.parse().context("the value")?;
            let note = match note.first() {
                Some(note) => Some(String::from_str(rt.alloc(), note)?),
                None => None,
            };
            put_into(rt, file, key, (value, note))
        }
        ["get", key] => match get::<Item, File>(rt.alloc(), key, &mut File::open(rt, file)?)? {
            Some(item) => Ok(println!(rt; "{item:?}")?),
            None => bail!("no record {key}"),
        },
        ["list"] => {
            let store: BTreeMap<String, Item> = load(rt.alloc(), &mut File::open(rt, file)?)?;
            for (key, item) in &store {
                println!(rt; "{key}: {item:?}")?;
            }
            Ok(())
        }
        ["check"] => check(rt, &load(rt.alloc(), &mut File::open(rt, file)?)?),
        ["new"] => make(rt, file),
        _ => bail!("{USAGE}"),
    }
}

fn main(rt: HostRuntime) -> Result<()> {
    let words: Vec<String> = env::args(&rt)?.collect(rt.alloc())?;
    let words: Vec<&str> = words.iter().map(|word| word.as_str()).collect(rt.alloc())?;
    match words.as_slice() {
        [_, file, words @ ..] => answer(&rt, file, words),
        _ => bail!("{USAGE}"),
    }
}
