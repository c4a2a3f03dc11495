//! An example: the calls that a user makes first, a function for each format. What it prints stands
//! in `stdout`; docs/GUIDE.md quotes both.
#![tactic(auto)]

use anyhow::Result;
use nano_json_indent::serialize_json_indented;
use nanoserde::records::{Choice, Item};
use nanoserde::{
    DeBin, DeJson, DeJsonState, DeRon, DeRonState, SerBin, SerJson, SerJsonState, SerRon,
    SerRonState, Toml, TomlParser, json_to_bin, normal_bin, normal_json, normal_ron, ron_to_bin,
};
use std::collections::HashMap;

fn bin(rt: &HostRuntime) -> Result<()> {
    let alloc = rt.alloc();
    let code = vec![in alloc; 1u16, 2]?.serialize_bin(alloc)?;
    println!(rt; "{code:?}")?;
    let again = Vec::<u16>::deserialize_bin(alloc, &code)?;
    println!(rt; "{again:?}")?;
    if let Err(error) = u16::deserialize_bin_whole(alloc, &code) {
        println!(rt; "{error}")?;
    }
    Ok(())
}

fn bin_at(rt: &HostRuntime) -> Result<()> {
    let alloc = rt.alloc();
    let mut code = vec![in alloc; 255]?;
    7u16.ser_bin(alloc, &mut code)?;
    let mut offset = 1;
    let number = u16::de_bin(alloc, &mut offset, &code)?;
    println!(rt; "{number} of {code:?}, up to {offset}")?;
    if let Err(error) = u16::de_bin(alloc, &mut offset, &code) {
        println!(rt; "{error}, at {offset} still")?;
    }
    Ok(())
}

fn json(rt: &HostRuntime) -> Result<()> {
    let alloc = rt.alloc();
    let ages = HashMap::<String, u8>::deserialize_json(alloc, "{\"bob\": 41, \"ann\": 40,}")?;
    let text = ages.serialize_json(alloc)?;
    println!(rt; "{text}")?;
    let lines = serialize_json_indented(alloc, &ages)?;
    println!(rt; "{lines}")?;
    if let Err(error) = Vec::<u8>::deserialize_json(alloc, "[1, 256]") {
        println!(rt; "{error}")?;
    }
    if let Err(error) = u8::deserialize_json_whole(alloc, "42 43") {
        println!(rt; "{error}")?;
    }
    Ok(())
}

fn json_state(rt: &HostRuntime) -> Result<()> {
    let alloc = rt.alloc();
    let mut input = "{\"age\": 40} [1, 2] 3".chars();
    let mut state = DeJsonState::new(alloc);
    state.next(&mut input);
    state.next_tok(alloc, &mut input)?;
    state.curly_open(alloc, &mut input)?;
    let key = state.as_string(alloc)?;
    state.next_colon(alloc, &mut input)?;
    let age = u8::de_json(alloc, &mut state, &mut input)?;
    state.curly_close(alloc, &mut input)?;
    let list = Vec::<u8>::de_json(alloc, &mut state, &mut input)?;
    println!(rt; "{key}: {age}, then {list:?}")?;
    let mut written = SerJsonState {
        out: String::new(alloc),
    };
    list.ser_json(alloc, 0, &mut written)?;
    println!(rt; "{}", written.out)?;
    Ok(())
}

fn ron(rt: &HostRuntime) -> Result<()> {
    let alloc = rt.alloc();
    let point = <(i32, Option<bool>)>::deserialize_ron(alloc, "(-1, None) // a point")?;
    let text = point.serialize_ron(alloc)?;
    println!(rt; "{text}")?;
    if let Err(error) = u8::deserialize_ron_whole(alloc, "42 /* and */ 43") {
        println!(rt; "{error}")?;
    }
    Ok(())
}

fn ron_state(rt: &HostRuntime) -> Result<()> {
    let alloc = rt.alloc();
    let mut input = "age: 40, 3".chars();
    let mut state = DeRonState::new(alloc);
    state.next(&mut input);
    state.next_tok(alloc, &mut input)?;
    state.ident(alloc, &mut input)?;
    println!(rt; "{}", state.identbuf)?;
    state.colon(alloc, &mut input)?;
    let age = u8::de_ron(alloc, &mut state, &mut input)?;
    let mut written = SerRonState {
        out: String::new(alloc),
    };
    age.ser_ron(alloc, 0, &mut written)?;
    println!(rt; "{}", written.out)?;
    Ok(())
}

fn toml(rt: &HostRuntime) -> Result<()> {
    let alloc = rt.alloc();
    let settings = TomlParser::parse(alloc, "[window]\ntitle = \"a\"\nwidth = 1_280")?;
    if let Some(Toml::Str(title)) = settings.get("window.title") {
        println!(rt; "{title}")?;
    }
    match settings.get("window.width") {
        Some(Toml::Num(width)) => println!(rt; "{width}")?,
        _ => println!(rt; "no width")?,
    }
    Ok(())
}

fn forms(rt: &HostRuntime) -> Result<()> {
    let alloc = rt.alloc();
    let text = "{\"value\":1,\"note\":\"x\",\"value\":2,\"note\":null}";
    let normal = normal_json::<Item>(alloc, text)?;
    println!(rt; "{normal}")?;
    let code = json_to_bin::<Item>(alloc, normal.as_str())?;
    println!(rt; "{:?}", normal_bin::<Item>(alloc, &code)?)?;
    let normal = normal_ron::<Choice>(alloc, "B(1, \"a\",) // two parts")?;
    println!(rt;
        "{normal} is {:?}",
        ron_to_bin::<Choice>(alloc, normal.as_str())?
    )?;
    Ok(())
}

fn records(rt: &HostRuntime) -> Result<()> {
    let alloc = rt.alloc();
    let text = "{\"note\":\"ann\",\"unknown\":[1],\"value\":7}";
    let item = Item::deserialize_json(alloc, text)?;
    println!(rt; "{item:?}")?;
    println!(rt; "{:?}", item.serialize_bin(alloc)?)?;
    println!(rt; "{}", item.serialize_ron(alloc)?)?;
    Ok(())
}

fn main(rt: HostRuntime) -> Result<()> {
    bin(&rt)?;
    bin_at(&rt)?;
    json(&rt)?;
    json_state(&rt)?;
    ron(&rt)?;
    ron_state(&rt)?;
    toml(&rt)?;
    forms(&rt)?;
    records(&rt)
}
