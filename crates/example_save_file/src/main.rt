//! An example: reads a state from a JSON or RON file, changes it, and writes its normal form.
//!
//! `example_save_file FILE COINS` sets the coins of the state. The end of the name, `.json` or
//! `.ron`, selects the form. A file that is no state is unchanged. What is wrong with it is printed
//! with its line and column, that line, and a caret under the character where reading stopped.
#![tactic(auto)]

ghost use Rattle.std.specs.Prelude.{IfOk, IfErr, string_bytes};
ghost use Rattle.nano_text_forms.specs.Forms.{IsWhole, NotOfMemory};
ghost use Rattle.example_save_file.specs.Saved.{Saves};

mod state;

use anyhow::{Context, Result, bail};
use nano_json_schema::JsonCodec;
use nano_ron_schema::RonCodec;
use nano_schema::Value;
use nano_text_forms::{Form, Rejection};
use state::State;
use std::alloc::{AllocError, Global};
use std::env;
use std::fs::{self, File};
use std::io::Write;
use std::process::ExitCode;

/// The normal form of the state that the whole text encodes, with these coins. It is an error
/// where the text is no state.
fn with_coins(
    alloc: Global,
    form: Form,
    text: &str,
    coins: u32,
) -> std::result::Result<String, Rejection>
    ensures saved { IfOk result (λ saved.
        Saves ⟦<State as JsonCodec>⟧.json ⟦<State as RonCodec>⟧.ron ⟦<State as Value>⟧.means
        form text.now coins (string_bytes saved)) }
    ensures rejected { IfErr result (λ rejection. NotOfMemory rejection → (m : _) → IsWhole form
        ⟦<State as JsonCodec>⟧.json.encoding ⟦<State as RonCodec>⟧.ron.encoding text.now m → ⊥) }
{
    let mut state: State = form.read(alloc, text)?;
    state.coins = coins;
    Ok(form.write(alloc, &state)?)
}

/// Writes a text beside a file, and then moves it to the file's place: where a step fails, the
/// file is still what it was.
fn replace(rt: &HostRuntime, name: &str, text: &str) -> Result<()> {
    let beside = format!(in rt.alloc(); "{name}.new")?;
    let mut file = File::create(rt, beside.as_str())?;
    file.write_all(text.as_bytes())?;
    file.sync_all()?;
    Ok(fs::rename(rt, beside.as_str(), name)?)
}

/// Sets the coins in a file, and prints what it now holds.
fn save(rt: &HostRuntime, name: &str, coins: u32) -> Result<ExitCode> {
    let Some(form) = Form::of_name(name) else {
        bail!("{name} ends neither in .json nor in .ron");
    };
    let text = fs::read_to_string(rt, name).context(format_args!("reading {name}"))?;
    match with_coins(rt.alloc(), form, text.as_str(), coins) {
        Ok(saved) => {
            replace(rt, name, saved.as_str()).context(format_args!("writing {name}"))?;
            println!(rt; "{saved}")?;
            Ok(ExitCode::SUCCESS)
        }
        Err(Rejection::Text(fault)) => {
            fault.show(&mut rt.stderr(), name, text.as_str())?;
            Ok(ExitCode::FAILURE)
        }
        Err(Rejection::Memory) => Err(AllocError.into()),
    }
}

fn main(rt: HostRuntime) -> Result<ExitCode> {
    let words: Vec<String> = env::args(&rt)?.collect(rt.alloc())?;
    let [_, name, coins] = words.as_slice() else {
        bail!("usage: example_save_file FILE COINS");
    };
    save(&rt, name.as_str(), coins.parse().context("COINS")?)
}
