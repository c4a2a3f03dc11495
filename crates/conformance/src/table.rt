//! A line of a table: its case is run, and what differs is reported.

use crate::asked::Asked;
use crate::case::Case;
use crate::findings::Findings;
use crate::repeat::write_out;
use std::alloc::{AllocError, Global};

/// The number of questions of a line that answer otherwise, each reported in a line of `report`,
/// or `None` where the line is a comment. What is asked with no line of data is counted in `asked`.
pub fn differences_of(
    alloc: Global,
    line: &str,
    asked: &mut Asked,
    report: &mut String,
) -> Result<Option<usize>, AllocError> {
    if line.is_empty() || line.starts_with('#') {
        return Ok(None);
    }
    let line = write_out(alloc, line)?;
    match Case::of_line(alloc, line.as_str())? {
        Ok(case) => Ok(Some(differences_in(alloc, &case, asked, report)?)),
        Err(no_case) => {
            let reason = no_case.reason();
            write!(report, "  no case: {reason}\n")?;
            Ok(Some(1))
        }
    }
}

/// The number of questions of a case that answer otherwise.
fn differences_in(
    alloc: Global,
    case: &Case<'_>,
    asked: &mut Asked,
    report: &mut String,
) -> Result<usize, AllocError> {
    let mut findings = Findings::new(alloc, *asked);
    case.ask(alloc, &mut findings)?;
    *asked = findings.asked;
    report.push_str(findings.report.as_str())?;
    Ok(findings.differ)
}
