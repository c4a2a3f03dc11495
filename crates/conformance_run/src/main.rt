//! Runs tables of cases over the library's formats, and prints each case that differs, and of each
//! table how often each question was asked.
//!
//! `conformance_run` runs its own tables, `conformance_run tables FILE..` these, and
//! `conformance_run one LINE` prints the outcome of the case of a table's line. The status is 0, 1
//! where a table is not as it should be, and 3 where memory ran out.
#![tactic(auto)]

use conformance::{Asked, Case, differences_of, write_out};
use std::alloc::{AllocError, Global};
use std::io::{self, ErrorKind};
use std::process::ExitCode;
use std::{env, fs};

/// The status where memory ran out.
const OUT_OF_MEMORY: u8 = 3;

/// The tables, each with whether its cases are wrong on purpose.
const TABLES: &[(&str, bool)] = &[
    ("worked.tsv", false),
    ("requests.tsv", false),
    ("parts.tsv", false),
    ("user_types.tsv", false),
    ("nested_types.tsv", false),
    ("words.tsv", false),
    ("rust_crate.tsv", false),
    ("states.tsv", false),
    ("wrong.tsv", true),
];

/// How many cases a table has, of how many something differs, and what was asked of them.
#[derive(Clone, Copy)]
struct Tally {
    cases: u64,
    differ: u64,
    asked: Asked,
}

/// Runs the cases of a table, and prints what differs, how many do, and what was asked.
fn run_table(rt: &HostRuntime, name: &str) -> io::Result<Tally> {
    let text = fs::read_to_string(rt, name)?;
    let mut tally = Tally {
        cases: 0,
        differ: 0,
        asked: Asked::new(),
    };
    let mut number = 0u64;
    for line in text.lines() {
        number = number.saturating_add(1);
        if let Some(differ) = run_line(rt, (name, number), line, &mut tally.asked)? {
            tally.cases = tally.cases.saturating_add(1);
            if differ {
                tally.differ = tally.differ.saturating_add(1);
            }
        }
    }
    print_tally(rt, name, &tally)?;
    Ok(tally)
}

/// Prints how many cases differ, and in a second line what was asked of them.
fn print_tally(rt: &HostRuntime, name: &str, tally: &Tally) -> io::Result<()> {
    let mut asked = String::new(rt.alloc());
    tally.asked.append(&mut asked)?;
    println!(rt; "{name}: {} cases, {} differ", tally.cases, tally.differ)?;
    println!(rt; "  {asked}")
}

/// Runs a case, prints what differs, and answers whether something does.
fn run_line(
    rt: &HostRuntime,
    (name, number): (&str, u64),
    line: &str,
    asked: &mut Asked,
) -> io::Result<Option<bool>> {
    let mut report = String::new(rt.alloc());
    match differences_of(rt.alloc(), line, asked, &mut report)? {
        None => Ok(None),
        Some(0) => Ok(Some(false)),
        Some(_) => {
            println!(rt; "{name}:{number}: {line}")?;
            print!(rt; "{report}")?;
            Ok(Some(true))
        }
    }
}

/// Runs the program's own tables, and answers whether each did as it should.
fn run_own(rt: &HostRuntime) -> io::Result<bool> {
    let mut is_right = true;
    for (name, is_wrong) in TABLES {
        let tally = run_table(rt, name)?;
        let wanted = if *is_wrong { tally.cases } else { 0 };
        is_right = is_right && tally.differ == wanted;
    }
    Ok(is_right)
}

/// Runs tables, and answers whether nothing differs.
fn run_files(rt: &HostRuntime, names: &[String]) -> io::Result<bool> {
    let mut is_right = true;
    for name in names {
        is_right = run_table(rt, name.as_str())?.differ == 0 && is_right;
    }
    Ok(is_right)
}

/// The outcome of the case of a line, in one text.
fn outcome_of_line(alloc: Global, line: &str) -> Result<String, AllocError> {
    let line = write_out(alloc, line)?;
    match Case::of_line(alloc, line.as_str())? {
        Ok(case) => {
            let outcome = case.run(alloc)?;
            let (verdict, answer) = (outcome.verdict(), outcome.answer(alloc)?);
            format!(in alloc; "{verdict} {answer}")
        }
        Err(_) => String::from_str(alloc, "no case"),
    }
}

/// Does what the words of the command line ask for, and answers whether all is as it should be.
fn run_words(rt: &HostRuntime) -> io::Result<bool> {
    let words: Vec<String> = env::args(rt)?.collect(rt.alloc())?;
    match words.as_slice() {
        [_, word, line] if word.as_str() == "one" => {
            rt.println(outcome_of_line(rt.alloc(), line.as_str())?)?;
            Ok(true)
        }
        [_, first, rest @ ..] if first.as_str() == "tables" => run_files(rt, rest),
        _ => run_own(rt),
    }
}

fn main(rt: HostRuntime) -> io::Result<ExitCode> {
    match run_words(&rt) {
        Ok(true) => Ok(ExitCode::SUCCESS),
        Ok(false) => Ok(ExitCode::FAILURE),
        Err(error) if error.kind() == ErrorKind::OutOfMemory => {
            rt.println("out of memory")?;
            Ok(ExitCode::from(OUT_OF_MEMORY))
        }
        Err(error) => Err(error),
    }
}
