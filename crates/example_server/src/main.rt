//! An example: reads the settings of a server from a JSON or RON file, and prints them in the
//! other form.
//!
//! `example_server FILE` prints the normal form. The end of the name, `.json` or `.ron`, selects
//! the form of the file. What is wrong with it is printed with its line and column, that line, and
//! a caret under the character where reading stopped.
#![tactic(auto)]

ghost use Rattle.std.specs.Prelude.{◌≡◌, IfOk, IfErr, string_bytes};
ghost use Rattle.nano_text_forms.specs.Forms.{IsWhole, NotOfMemory};
ghost use Rattle.example_server.specs.Converted.{Converts, other_form};

mod mode;
mod settings;

use anyhow::{Context, Result, bail};
use nano_json_schema::JsonCodec;
use nano_ron_schema::RonCodec;
use nano_schema::Value;
use nano_text_forms::{Form, Rejection};
use settings::Settings;
use std::alloc::{AllocError, Global};
use std::process::ExitCode;
use std::{env, fs};

/// The form that a text has not.
fn other(form: Form) -> Form
    ensures { result ≡ other_form form }
{
    match form {
        Form::Json => Form::Ron,
        Form::Ron => Form::Json,
    }
}

/// The normal form of the settings that the whole text encodes, in the other form. It is an error
/// where the text is no settings.
fn converted(alloc: Global, form: Form, text: &str) -> std::result::Result<String, Rejection>
    ensures converted { IfOk result (λ printed.
        Converts ⟦<Settings as JsonCodec>⟧.json ⟦<Settings as RonCodec>⟧.ron
        ⟦<Settings as Value>⟧.means form text.now (string_bytes printed)) }
    ensures rejected { IfErr result (λ rejection. NotOfMemory rejection → (m : _) → IsWhole form
        ⟦<Settings as JsonCodec>⟧.json.encoding ⟦<Settings as RonCodec>⟧.ron.encoding text.now m
        → ⊥) }
{
    let settings: Settings = form.read(alloc, text)?;
    Ok(other(form).write(alloc, &settings)?)
}

/// Prints the settings of a file in the other form.
fn convert(rt: &HostRuntime, name: &str) -> Result<ExitCode> {
    let Some(form) = Form::of_name(name) else {
        bail!("{name} ends neither in .json nor in .ron");
    };
    let text = fs::read_to_string(rt, name).context(format_args!("reading {name}"))?;
    match converted(rt.alloc(), form, text.as_str()) {
        Ok(printed) => {
            println!(rt; "{printed}")?;
            Ok(ExitCode::SUCCESS)
        }
        Err(Rejection::Text(fault)) => {
            fault.show(&mut rt.stderr(), name, text.as_str())?;
            Ok(ExitCode::FAILURE)
        }
        Err(Rejection::Memory) => Err(AllocError.into()),
    }
}

fn main(rt: HostRuntime) -> Result<ExitCode> {
    let words: Vec<String> = env::args(&rt)?.collect(rt.alloc())?;
    let [_, name] = words.as_slice() else {
        bail!("usage: example_server FILE");
    };
    convert(&rt, name.as_str())
}
