//! How often each question was asked, and how often something else came than what is wanted.

use std::alloc::AllocError;

/// What is asked of an accepted input beside its answer, with no line of data.
#[derive(Clone, Copy)]
pub enum Question {
    /// What is written as bytes is read back, and is its own normal form.
    Code,
    /// So it is as a whole input.
    WholeCode,
    /// A proper prefix of it is too short, and leaves the offset.
    CodePrefix,
    /// What is written as a text is read back, and is its own normal form.
    Text,
    /// So it is as a whole input.
    WholeText,
    /// A proper prefix of a text is rejected.
    TextPrefix,
    /// What follows a proper prefix is rejected in the state that is left.
    SecondReading,
    /// The value of a text has bytes.
    TextAsBytes,
    /// The same entries in the other order answer alike.
    OtherOrder,
}

impl Question {
    /// What is asked, as it is reported.
    pub fn name(self) -> &'static str {
        match self {
            Question::Code => "the written code, read",
            Question::WholeCode => "the written code, read whole",
            Question::CodePrefix => "a prefix of the code",
            Question::Text => "the written text, read",
            Question::WholeText => "the written text, read whole",
            Question::TextPrefix => "a prefix of the text",
            Question::SecondReading => "a prefix, read twice",
            Question::TextAsBytes => "the text's bytes",
            Question::OtherOrder => "the same entries in the other order",
        }
    }

    /// The place of its count.
    fn place(self) -> usize {
        match self {
            Question::Code => 0,
            Question::WholeCode => 1,
            Question::CodePrefix => 2,
            Question::Text => 3,
            Question::WholeText => 4,
            Question::TextPrefix => 5,
            Question::SecondReading => 6,
            Question::TextAsBytes => 7,
            Question::OtherOrder => 8,
        }
    }
}

/// How often one question was asked.
#[derive(Clone, Copy)]
pub struct Count {
    /// How often it was asked.
    pub asked: u64,
    /// How often something else came than what is wanted.
    pub failed: u64,
}

impl Count {
    /// The count of what was never asked.
    const NONE: Count = Count {
        asked: 0,
        failed: 0,
    };

    /// The count after one more.
    fn after(self, is_right: bool) -> Count {
        let failed = if is_right { 0 } else { 1 };
        Count {
            asked: self.asked.saturating_add(1),
            failed: self.failed.saturating_add(failed),
        }
    }
}

/// The questions in the order in which they are counted, each with what was asked so often.
const QUESTIONS: &[(Question, &str)] = &[
    (Question::Code, "codes"),
    (Question::WholeCode, "whole codes"),
    (Question::CodePrefix, "prefixes of codes"),
    (Question::Text, "texts"),
    (Question::WholeText, "whole texts"),
    (Question::TextPrefix, "prefixes of texts"),
    (Question::SecondReading, "second readings"),
    (Question::TextAsBytes, "texts as bytes"),
    (Question::OtherOrder, "in the other order"),
];

/// How often each question was asked.
#[derive(Clone, Copy)]
pub struct Asked {
    /// A count for each question, at its place.
    counts: [Count; 9],
}

impl Asked {
    /// Nothing was asked.
    pub fn new() -> Asked {
        Asked {
            counts: [Count::NONE; 9],
        }
    }

    /// Counts a question.
    pub(crate) fn count(&mut self, question: Question, is_right: bool) {
        if let Some(count) = self.counts.get_mut(question.place()) {
            *count = count.after(is_right);
        }
    }

    /// How often this question was asked.
    fn of(&self, question: Question) -> Count {
        match self.counts.get(question.place()) {
            Some(count) => *count,
            None => Count::NONE,
        }
    }

    /// Appends which questions failed, and how often each was asked.
    pub fn append(&self, out: &mut String) -> Result<(), AllocError> {
        self.append_failed(out)?;
        let mut before = "; asked: ";
        for (question, name) in QUESTIONS {
            let asked = self.of(*question).asked;
            write!(out, "{before}{asked} {name}")?;
            before = ", ";
        }
        Ok(())
    }

    /// Appends how often each question failed that did.
    fn append_failed(&self, out: &mut String) -> Result<(), AllocError> {
        let mut has_failed = false;
        for (question, name) in QUESTIONS {
            let failed = self.of(*question).failed;
            if failed != 0 {
                out.push_str(if has_failed { ", " } else { "failed: " })?;
                write!(out, "{failed} {name}")?;
                has_failed = true;
            }
        }
        if has_failed {
            Ok(())
        } else {
            out.push_str("failed: none")
        }
    }
}
