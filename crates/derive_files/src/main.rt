//! Writes the impls of user-defined types into files of their own.
//!
//! `derive_files FILE..` writes the module `derived` of each file that ends in `mod derived;`, and
//! for types that contain themselves files in `specs/` and `proofs/` of the crate.
//! `derive_files --check FILE..` writes nothing, and prints the name of each file for which other
//! texts would be written: its status is then 1. `derive_files --print FILE..` prints the
//! modules. For a file at fault nothing is written; what is wrong is printed with its line and
//! column, that line, and a caret under the character.
#![tactic(auto)]

mod beside;
mod disk;

use anyhow::{Context, Result, bail};
use beside::{is_beside, write_beside};
use derive_nested::{NestedFile, nested_files};
use derive_text::{DeriveError, Written, derive, derived_path, module_of};
use disk::{has_text, put, replace};
use std::alloc::AllocError;
use std::process::ExitCode;
use std::{env, fs};

/// What is done with the impls that are written for a file.
#[derive(Clone, Copy)]
enum Mode {
    /// They take the place of those in the module's file.
    Write,
    /// They are compared with those.
    Check,
    /// They are printed.
    Print,
}

/// What became of a file.
#[derive(Clone, Copy, PartialEq)]
enum Outcome {
    /// Its impls are what is written for it.
    Fresh,
    /// They are not, and were not written.
    Stale,
    /// Its definitions are at fault.
    Faulty,
}

/// A file with user-defined types, and that of the module of their impls.
#[derive(Drop)]
struct Files {
    /// The file, as it was named.
    name: String,
    /// Its path from the root of the file system.
    path: String,
    /// The module that it is, as ghost names say it.
    module: String,
    /// The file of the module of the impls.
    impls: String,
}

impl Files {
    /// The files of a name.
    fn of(rt: &HostRuntime, name: &str) -> Result<Files> {
        let path = whole_path(rt, name)?;
        let Some(module) = module_of(rt.alloc(), path.as_str())? else {
            bail!("{name} is in no src folder of a crate");
        };
        let Some(impls) = derived_path(rt.alloc(), path.as_str())? else {
            bail!("{name} is in no src folder of a crate");
        };
        let name = String::from_str(rt.alloc(), name)?;
        Ok(Files {
            name,
            path,
            module,
            impls,
        })
    }
}

/// A path from the root of the file system.
fn whole_path(rt: &HostRuntime, name: &str) -> Result<String> {
    if name.starts_with('/') {
        return Ok(String::from_str(rt.alloc(), name)?);
    }
    let folder = env::current_dir(rt)?;
    Ok(format!(in rt.alloc(); "{}/{name}", folder.as_str())?)
}

/// Writes the file of the impls and those beside the sources, and then, if it is moved, the file
/// with the types.
fn write(rt: &HostRuntime, files: &Files, written: &Written, beside: &[NestedFile]) -> Result<()> {
    let impls = files.impls.as_str();
    put(rt, impls, written.impls.as_str())?;
    write_beside(rt, files.path.as_str(), beside)?;
    match &written.moved {
        Some(text) => replace(rt, files.name.as_str(), text.as_str()).context(format_args!(
            "writing {}",
            files.name
        )),
        None => Ok(()),
    }
}

/// Writes, compares or prints what is written for a file.
fn derive_file(rt: &HostRuntime, name: &str, mode: Mode) -> Result<Outcome> {
    let source = fs::read_to_string(rt, name).context(format_args!("reading {name}"))?;
    let files = Files::of(rt, name)?;
    match texts_of(rt, files.module.as_str(), source.as_str()) {
        Ok((written, beside)) => finish(rt, &files, mode, (&written, &beside)),
        Err(DeriveError::Source(fault)) => {
            fault.show(&mut rt.stderr(), name, source.as_str())?;
            Ok(Outcome::Faulty)
        }
        Err(DeriveError::Memory) => Err(AllocError.into()),
    }
}

/// The impls that are written for a source of this module, and the files beside the sources.
fn texts_of(
    rt: &HostRuntime,
    module: &str,
    source: &str,
) -> Result<(Written, Vec<NestedFile>), DeriveError> {
    let written = derive(rt.alloc(), module, source)?;
    let beside = nested_files(rt.alloc(), module, source)?;
    Ok((written, beside))
}

/// Does with what is written for a file what is asked.
fn finish(
    rt: &HostRuntime,
    files: &Files,
    mode: Mode,
    (written, beside): (&Written, &[NestedFile]),
) -> Result<Outcome> {
    if matches!(mode, Mode::Print) {
        print!(rt; "{}", written.impls)?;
        return Ok(Outcome::Fresh);
    }
    let is_there = has_text(rt, files.impls.as_str(), written.impls.as_str())?
        && is_beside(rt, files.path.as_str(), beside)?;
    if is_there && written.moved.is_none() {
        return Ok(Outcome::Fresh);
    }
    if matches!(mode, Mode::Check) {
        return Ok(Outcome::Stale);
    }
    write(rt, files, written, beside)?;
    Ok(Outcome::Fresh)
}

/// Derives each file, and says whether each is what it is to be.
fn derive_all(rt: &HostRuntime, names: &[String], mode: Mode) -> Result<bool> {
    let mut are_fresh = true;
    for name in names {
        let outcome = derive_file(rt, name.as_str(), mode)?;
        if outcome == Outcome::Stale {
            println!(rt; "{name}")?;
        }
        if outcome != Outcome::Fresh {
            are_fresh = false;
        }
    }
    Ok(are_fresh)
}

/// What a first word asks for, if it is no file's name.
fn mode_of(word: &str) -> Option<Mode> {
    match word {
        "--check" => Some(Mode::Check),
        "--print" => Some(Mode::Print),
        _ => None,
    }
}

fn main(rt: HostRuntime) -> Result<ExitCode> {
    let words: Vec<String> = env::args(&rt)?.skip(1).collect(rt.alloc())?;
    let mode = words.first().and_then(|word| mode_of(word.as_str()));
    let names = words.get(usize::from(mode.is_some())..).unwrap_or(&[]);
    if names.is_empty() {
        bail!("usage: derive_files [--check | --print] FILE..");
    }
    if derive_all(&rt, names, mode.unwrap_or(Mode::Write))? {
        Ok(ExitCode::SUCCESS)
    } else {
        Ok(ExitCode::FAILURE)
    }
}
