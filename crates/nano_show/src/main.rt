//! Shows how the formats of nanoserde treat the arguments of a command line, and standard
//! input.
//!
//! `nano_show code u16s 1 2` prints the binary encoding of two numbers,
//! `nano_show code text ab` that of a text. `nano_show json item` prints the normal form of the
//! value that a JSON text on standard input begins with, `ron` and `bin` those of the other
//! formats; `json-whole`, `ron-whole` and `bin-whole` require the input to be that value and
//! nothing else. See `run` for the types. `nano_show toml` prints the listing of a TOML text.
#![tactic(auto)]

ghost use Rattle.std.specs.Prelude.{◌≡◌, ◌≢◌};
ghost use Rattle.std.specs.IoError.{error_kind};

pub use nano_show_answers::{ShowFault, ending, run};
use std::env;
use std::io::{self, ErrorKind};
use std::process::ExitCode;

/// The fault where the arguments could not be copied: wrong words for some that are not UTF-8,
/// out of memory for anything else.
fn fault_of(error: &io::Error) -> ShowFault
    ensures words { error_kind error.now ≡ ErrorKind.InvalidData → result ≡ ShowFault.Usage }
    ensures memory { error_kind error.now ≢ ErrorKind.InvalidData → result ≡ ShowFault.Memory }
{
    if error.kind() == ErrorKind::InvalidData {
        ShowFault::Usage
    } else {
        ShowFault::Memory
    }
}

/// The arguments after the program's name. The program knows no arguments that are not UTF-8.
fn arguments(rt: &HostRuntime) -> Result<Vec<String>, ShowFault> {
    match env::args(rt) {
        Ok(words) => Ok(words.skip(1).collect(rt.alloc())?),
        Err(error) => Err(fault_of(&error)),
    }
}

/// Answers the program's arguments and standard input on standard output.
fn show(rt: &HostRuntime) -> Result<(), ShowFault> {
    let words = arguments(rt)?;
    run(rt.alloc(), &words, &mut rt.stdin(), &mut rt.stdout())
}

fn main(rt: HostRuntime) -> ExitCode {
    match show(&rt) {
        Ok(()) => ExitCode::SUCCESS,
        Err(fault) => {
            let (status, text) = ending(&fault);
            let _ = rt.eprintln(text);
            ExitCode::from(status)
        }
    }
}
