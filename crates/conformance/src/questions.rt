//! What is asked of an accepted input beside its answer, with no line of data.

use crate::asked::Question;
use crate::calls::outcome_of;
use crate::case::Case;
use crate::counterparts::counterpart;
use crate::findings::Findings;
use conformance_types::{Format, Outcome};
use std::alloc::{AllocError, Global};

/// Asks what each accepted input is to answer, and adds what differs.
pub(crate) fn ask_further(
    alloc: Global,
    case: &Case<'_>,
    outcome: &Outcome,
    findings: &mut Findings,
) -> Result<(), AllocError> {
    ask_other_order(alloc, case, outcome, findings)?;
    let Some(whole) = case.format.whole() else {
        return Ok(());
    };
    match outcome {
        Outcome::Code(code) => ask_code(alloc, case.kind, code, findings),
        Outcome::Text(text) => {
            ask_text(alloc, case.kind, whole, text, findings)?;
            ask_input(alloc, case, whole, findings)?;
            ask_bytes(alloc, case, whole, findings)
        }
        _ => Ok(()),
    }
}

/// A hashed and an ordered set or map answer alike. A type without a counterpart in the table of
/// types is passed over. What is reported names the counterpart.
fn ask_other_order(
    alloc: Global,
    case: &Case<'_>,
    outcome: &Outcome,
    findings: &mut Findings,
) -> Result<(), AllocError> {
    let Some(other) = counterpart(alloc, case.kind)? else {
        return Ok(());
    };
    match outcome_of(alloc, case.format.read(), other.as_str(), &case.input)? {
        Outcome::Unknown => Ok(()),
        same if outcome.is_same(&same) => {
            findings.ask(alloc, Question::OtherOrder, true, "", &same)
        }
        same => {
            let answer = outcome.answer(alloc)?;
            let wanted = format!(in alloc; "{answer} as {other}")?;
            findings.ask(alloc, Question::OtherOrder, false, wanted.as_str(), &same)
        }
    }
}

/// A written code is its own normal form, as a whole input too, and every proper prefix of it is
/// too short.
fn ask_code(
    alloc: Global,
    kind: &str,
    code: &[u8],
    findings: &mut Findings,
) -> Result<(), AllocError> {
    let wanted = Outcome::Code(Vec::from_slice(alloc, code)?);
    let (one, whole) = (Question::Code, Question::WholeCode);
    ask_same(alloc, one, (Format::Bin, kind, code), &wanted, findings)?;
    ask_same(
        alloc,
        whole,
        (Format::BinWhole, kind, code),
        &wanted,
        findings,
    )?;
    for end in 0..code.len() {
        ask_short(alloc, kind, &code[..end], findings)?;
    }
    Ok(())
}

/// What is read of an input is what is wanted.
fn ask_same(
    alloc: Global,
    question: Question,
    (format, kind, input): (Format, &str, &[u8]),
    wanted: &Outcome,
    findings: &mut Findings,
) -> Result<(), AllocError> {
    let read = outcome_of(alloc, format, kind, input)?;
    let answer = wanted.answer(alloc)?;
    let is_right = wanted.is_same(&read);
    findings.ask(alloc, question, is_right, answer.as_str(), &read)
}

/// A proper prefix of a code is too short.
fn ask_short(
    alloc: Global,
    kind: &str,
    code: &[u8],
    findings: &mut Findings,
) -> Result<(), AllocError> {
    let cut = outcome_of(alloc, Format::Bin, kind, code)?;
    let is_right = cut.is_too_short();
    findings.ask(alloc, Question::CodePrefix, is_right, "TooShort", &cut)
}

/// A written text is its own normal form, as a whole input too, and every proper prefix is
/// rejected.
fn ask_text(
    alloc: Global,
    kind: &str,
    whole: Format,
    text: &[u8],
    findings: &mut Findings,
) -> Result<(), AllocError> {
    let wanted = Outcome::Text(Vec::from_slice(alloc, text)?);
    let begun = (whole.prefix(), kind, text);
    ask_same(alloc, Question::Text, begun, &wanted, findings)?;
    ask_same(
        alloc,
        Question::WholeText,
        (whole, kind, text),
        &wanted,
        findings,
    )?;
    ask_prefixes(alloc, kind, whole, text, findings)
}

/// An input that is a value ends where its bracket or quote closes, once white space is left out.
/// One that may end in a comment is passed over.
fn ask_input(
    alloc: Global,
    case: &Case<'_>,
    whole: Format,
    findings: &mut Findings,
) -> Result<(), AllocError> {
    let text = case.input.trim_ascii_end();
    if whole.has_comments() && text.contains(&b'/') {
        return Ok(());
    }
    match outcome_of(alloc, whole, case.kind, &case.input)? {
        Outcome::Text(_) => ask_prefixes(alloc, case.kind, whole, text, findings),
        _ => Ok(()),
    }
}

/// Every proper prefix of a text that starts with a bracket or a quote is rejected, and so is a
/// second reading in the state that is left.
fn ask_prefixes(
    alloc: Global,
    kind: &str,
    whole: Format,
    text: &[u8],
    findings: &mut Findings,
) -> Result<(), AllocError> {
    match text.first() {
        Some(b'[' | b'{' | b'(' | b'"') => (),
        _ => return Ok(()),
    }
    let (one, second) = (Question::TextPrefix, Question::SecondReading);
    for end in 0..text.len() {
        let cut = &text[..end];
        ask_rejected(alloc, one, (whole.prefix(), kind, cut), findings)?;
        ask_rejected(alloc, second, (whole.again(), kind, cut), findings)?;
    }
    Ok(())
}

/// An input is rejected.
fn ask_rejected(
    alloc: Global,
    question: Question,
    (format, kind, input): (Format, &str, &[u8]),
    findings: &mut Findings,
) -> Result<(), AllocError> {
    let read = outcome_of(alloc, format, kind, input)?;
    findings.ask(alloc, question, read.is_error(), "an error", &read)
}

/// The value of a text has bytes, and these are their own normal form. A type that has no bytes is
/// passed over.
fn ask_bytes(
    alloc: Global,
    case: &Case<'_>,
    whole: Format,
    findings: &mut Findings,
) -> Result<(), AllocError> {
    let read = outcome_of(alloc, whole.as_bytes(), case.kind, &case.input)?;
    match &read {
        Outcome::Code(code) => {
            findings.ask(alloc, Question::TextAsBytes, true, "bytes", &read)?;
            ask_code(alloc, case.kind, code, findings)
        }
        Outcome::Unknown => Ok(()),
        _ => findings.ask(alloc, Question::TextAsBytes, false, "bytes", &read),
    }
}
