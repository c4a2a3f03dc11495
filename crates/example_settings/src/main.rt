//! An example: reads settings from a TOML text on standard input, with defaults for what is not
//! there, a nested section, and an array of tables, and prints them.
#![tactic(auto)]

ghost use Rattle.std.specs.Prelude.{◌≡◌};

use anyhow::{Context, Result, bail};
use nano_toml::{Toml, TomlParser};
use std::alloc::Global;
use std::collections::HashMap;
use std::io;

/// The program's settings: its window, and the servers that it asks.
#[derive(Debug, Drop)]
struct Settings {
    title: String,
    width: u32,
    is_dark: bool,
    servers: Vec<Server>,
}

/// A server.
#[derive(Debug, Drop)]
struct Server {
    host: String,
    port: u32,
}

type Table = HashMap<String, Toml>;

/// The number that a value is, or the default where there is no value. `None` says that it is no
/// number from 0 to 2^32 - 1.
fn number(value: Option<&Toml>, default: u32) -> Option<u32>
    ensures { value.entry ≡ None → result ≡ Some default }
{
    match value {
        None => Some(default),
        Some(Toml::Num(number)) => u32::try_from(*number).ok(),
        Some(_) => None,
    }
}

/// The boolean that a value is, or the default where there is no value. `None` says that it is
/// no boolean.
fn flag(value: Option<&Toml>, default: bool) -> Option<bool>
    ensures { value.entry ≡ None → result ≡ Some default }
{
    match value {
        None => Some(default),
        Some(Toml::Bool(is)) => Some(*is),
        Some(_) => None,
    }
}

/// The text that a value is, or the default where there is no value. It is an error where the
/// value is no text.
fn text(alloc: Global, value: Option<&Toml>, default: &str) -> Result<String> {
    match value {
        None => Ok(String::from_str(alloc, default)?),
        Some(Toml::Str(text)) => Ok(text.clone()?),
        Some(_) => bail!("no text"),
    }
}

/// A server; its host must be there. Names in a table of an array carry the scope that was set
/// before its header, here `[server]`.
fn server_of(alloc: Global, table: &Table) -> Result<Server> {
    if !table.contains_key("server.host") {
        bail!("no host");
    }
    Ok(Server {
        host: text(alloc, table.get("server.host"), "").context("host")?,
        port: number(table.get("server.port"), 443).context("port: no number")?,
    })
}

/// The servers, in order; none where there is no header `[[servers]]`.
fn servers_of(alloc: Global, value: Option<&Toml>) -> Result<Vec<Server>> {
    let mut servers = Vec::new(alloc);
    match value {
        None => {}
        Some(Toml::Array(tables)) => {
            for table in tables {
                servers.push(server_of(alloc, table).context("servers")?)?;
            }
        }
        Some(_) => bail!("servers: no tables"),
    }
    Ok(servers)
}

/// The settings of a text. It is an error where the text is no TOML, or a value is of another
/// kind.
fn settings_of(alloc: Global, input: &str) -> Result<Settings> {
    let table = TomlParser::parse(alloc, input)?;
    Ok(Settings {
        title: text(alloc, table.get("window.title"), "untitled").context("window.title")?,
        width: number(table.get("window.width"), 640).context("window.width: no number")?,
        is_dark: flag(table.get("window.theme.dark"), false).context("window.theme.dark: no bool")?,
        servers: servers_of(alloc, table.get("servers"))?,
    })
}

fn main(rt: HostRuntime) -> Result<()> {
    let input = io::read_to_string(rt.alloc(), rt.stdin())?;
    let settings = settings_of(rt.alloc(), input.as_str())?;
    println!(rt; "{} is {} wide", settings.title, settings.width)?;
    println!(rt; "dark: {}", settings.is_dark)?;
    for server in &settings.servers {
        println!(rt; "asks {} at {}", server.host, server.port)?;
    }
    Ok(())
}
