//! What came of a case: what was asked, and what differs.

use crate::asked::{Asked, Question};
use conformance_types::Outcome;
use std::alloc::{AllocError, Global};

/// What came of a case.
#[derive(Drop)]
pub(crate) struct Findings {
    /// How often each question was asked.
    pub(crate) asked: Asked,
    /// How many questions answered otherwise.
    pub(crate) differ: usize,
    /// What these answered, a line each.
    pub(crate) report: String,
}

impl Findings {
    /// Nothing yet, after so many questions of other cases.
    pub(crate) fn new(alloc: Global, asked: Asked) -> Findings {
        Findings {
            asked,
            differ: 0,
            report: String::new(alloc),
        }
    }

    /// Counts a question, and reports what came where that is not what is wanted.
    pub(crate) fn ask(
        &mut self,
        alloc: Global,
        question: Question,
        is_right: bool,
        wanted: &str,
        outcome: &Outcome,
    ) -> Result<(), AllocError> {
        self.asked.count(question, is_right);
        if is_right {
            Ok(())
        } else {
            self.differs(alloc, question.name(), wanted, outcome)
        }
    }

    /// Reports what came in the place of what is wanted.
    pub(crate) fn differs(
        &mut self,
        alloc: Global,
        question: &str,
        wanted: &str,
        outcome: &Outcome,
    ) -> Result<(), AllocError> {
        self.differ = self.differ.saturating_add(1);
        let (verdict, answer) = (outcome.verdict(), outcome.answer(alloc)?);
        let report = &mut self.report;
        write!(
            report,
            "  {question}: wanted {wanted}, got {verdict} {answer}\n"
        )
    }
}
