//! A case, and what comes of it.

use crate::calls::outcome_of;
use crate::findings::Findings;
use crate::names::is_named;
use crate::questions::ask_further;
use conformance_types::{Format, Outcome, unescape};
use std::alloc::{AllocError, Global};

/// A line of a table.
#[derive(Drop)]
pub struct Case<'a> {
    /// The format.
    pub format: Format,
    /// The type, or the words.
    pub kind: &'a str,
    /// The input.
    pub input: Vec<u8>,
    /// `is`, `error`, or `rejected` for an error whose text is not known.
    pub verdict: &'a str,
    /// The normal form, the bytes, or the text of the error.
    pub answer: &'a str,
    /// What the Rust crate did, where that is known.
    pub rust_crate: &'a str,
    /// The names of the intended differences from it.
    pub names: &'a str,
}

/// Why a line is no case.
#[derive(Clone, Copy)]
pub enum NoCase {
    /// It has not as many fields as a case.
    Fields,
    /// There is no format of this name.
    Format,
    /// A `%` of the input has no two digits after it.
    Input,
}

impl NoCase {
    /// The reason, as it is reported.
    pub fn reason(self) -> &'static str {
        match self {
            NoCase::Fields => "a case has 5 fields, or 7 with the Rust crate",
            NoCase::Format => "no format has this name",
            NoCase::Input => "a % of the input has no two digits after it",
        }
    }
}

impl<'a> Case<'a> {
    /// The case of a line, or why the line is none.
    pub fn of_line(alloc: Global, line: &'a str) -> Result<Result<Case<'a>, NoCase>, AllocError> {
        match fields_of(line) {
            5 | 7 => (),
            _ => return Ok(Err(NoCase::Fields)),
        }
        let (format, rest) = field_of(line);
        let (kind, rest) = field_of(rest);
        let (input, rest) = field_of(rest);
        let (verdict, rest) = field_of(rest);
        let (answer, rest) = field_of(rest);
        let (rust_crate, names) = field_of(rest);
        let Some(format) = Format::of(format) else {
            return Ok(Err(NoCase::Format));
        };
        match unescape(alloc, input)? {
            None => Ok(Err(NoCase::Input)),
            Some(input) => Ok(Ok(Case {
                format,
                kind,
                input,
                verdict,
                answer,
                rust_crate,
                names,
            })),
        }
    }

    /// The outcome of the case's input.
    pub fn run(&self, alloc: Global) -> Result<Outcome, AllocError> {
        outcome_of(alloc, self.format, self.kind, &self.input)
    }

    /// Adds what differs, in the answer and where it is accepted in what else is asked of it.
    pub(crate) fn ask(&self, alloc: Global, findings: &mut Findings) -> Result<(), AllocError> {
        let outcome = self.run(alloc)?;
        self.compare(alloc, &outcome, findings)?;
        ask_further(alloc, self, &outcome, findings)
    }

    /// Adds what differs in the answer, and in the names of the differences from the Rust crate.
    fn compare(
        &self,
        alloc: Global,
        outcome: &Outcome,
        findings: &mut Findings,
    ) -> Result<(), AllocError> {
        if !self.is_wanted(alloc, outcome)? {
            let (verdict, answer) = (self.verdict, self.answer);
            let wanted = format!(in alloc; "{verdict} {answer}")?;
            findings.differs(alloc, "answer", wanted.as_str(), outcome)?;
        }
        if is_named(self.rust_crate, self.names, outcome) {
            Ok(())
        } else {
            findings.differs(alloc, "the name", self.names, outcome)
        }
    }

    /// Whether this is the wanted answer.
    fn is_wanted(&self, alloc: Global, outcome: &Outcome) -> Result<bool, AllocError> {
        if self.verdict == "rejected" {
            return Ok(outcome.is_error());
        }
        let answer = outcome.answer(alloc)?;
        Ok(outcome.verdict() == self.verdict && answer.as_str() == self.answer)
    }
}

/// The number of fields of a line, which tabs part.
fn fields_of(line: &str) -> usize {
    let mut fields = 1usize;
    for byte in line.as_bytes() {
        if *byte == b'\t' {
            fields = fields.saturating_add(1);
        }
    }
    fields
}

/// The first field, and those after it, which are empty where there are none.
fn field_of(line: &str) -> (&str, &str) {
    line.split_once('\t').unwrap_or((line, ""))
}
