//! An example: converts a value between JSON, RON and bytes, each in its canonical encoding.
//!
//! `convert TYPE FROM TO` reads standard input and writes standard output. TYPE is `texts`,
//! `numbers` (a set), `map` (of numbers by text) or `pair`; FROM and TO are `json`, `ron` or
//! `bin`. The input is rejected where it is no value of the type, or more than one.
#![tactic(auto)]

use anyhow::{Context, Result, bail};
use nano_bin::BothBin;
use nano_json::BothJson;
use nano_ron::BothRon;
use std::alloc::Global;
use std::collections::{HashMap, HashSet};
use std::io::{Read, Write};
use std::{env, str};

/// The value that the whole input encodes. It is an error if there is none, or if the form is
/// not known.
fn read<T: BothBin + BothJson + BothRon>(alloc: Global, form: &str, input: &[u8]) -> Result<T> {
    match form {
        "json" => Ok(T::deserialize_json_whole(alloc, str::from_utf8(input)?)?),
        "ron" => Ok(T::deserialize_ron_whole(alloc, str::from_utf8(input)?)?),
        "bin" => Ok(T::deserialize_bin_whole(alloc, input)?),
        _ => bail!("no form {form}"),
    }
}

/// The canonical encoding of a value. It is an error if the form is not known.
fn written<T: BothBin + BothJson + BothRon>(
    alloc: Global,
    form: &str,
    value: &T,
) -> Result<Vec<u8>> {
    match form {
        "json" => Ok(value.serialize_json(alloc)?.into_bytes()),
        "ron" => Ok(value.serialize_ron(alloc)?.into_bytes()),
        "bin" => Ok(value.serialize_bin(alloc)?),
        _ => bail!("no form {form}"),
    }
}

/// The input in another form. On the way stand the bytes of its value, which are the same exactly
/// where the value is.
fn converted<T: BothBin + BothJson + BothRon>(
    alloc: Global,
    from: &str,
    to: &str,
    input: &[u8],
) -> Result<Vec<u8>> {
    let bytes = written(alloc, "bin", &read::<T>(alloc, from, input)?)?;
    written(alloc, to, &read::<T>(alloc, "bin", &bytes)?)
}

fn main(rt: HostRuntime) -> Result<()> {
    let alloc = rt.alloc();
    let words: Vec<String> = env::args(&rt)?.collect(alloc)?;
    let [_, kind, from, to] = words.as_slice() else {
        bail!("usage: example_convert TYPE FROM TO");
    };
    let (from, to) = (from.as_str(), to.as_str());
    let mut input = Vec::new(alloc);
    rt.stdin().read_to_end(&mut input)?;
    let output = match kind.as_str() {
        "texts" => converted::<Vec<String>>(alloc, from, to, &input)?,
        "numbers" => converted::<HashSet<i64>>(alloc, from, to, &input)?,
        "map" => converted::<HashMap<String, i64>>(alloc, from, to, &input)?,
        "pair" => converted::<(u32, Option<bool>)>(alloc, from, to, &input)?,
        kind => bail!("no type {kind}"),
    };
    rt.stdout().write_all(&output).context("writing")
}
