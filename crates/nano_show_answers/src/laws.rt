//! Laws of the answers.

ghost use Rattle.nano_show_answers.specs.Answer.{OneAnswer, AnswerOrRejection};

use crate::shown::{Named, Types, all_agreed};

/// Words and the bytes of an input have at most one answer.
pub fn one_answer()
    ensures { OneAnswer ⟦<Types as Named>⟧.types }
{
    all_agreed();
}

/// What has an answer is not rejected.
pub fn answer_or_rejection()
    ensures { AnswerOrRejection ⟦<Types as Named>⟧.types }
{}
