//! Why the program ends without its answer, and how.

ghost use Rattle.std.specs.Prelude.{◌≡◌};
ghost use Rattle.nano_show_answers.specs.Answer.{status_of, message_of};

use std::alloc::AllocError;
use std::error::Error;
use std::fmt;

/// Why an answer was not written, or not whole.
#[derive(Debug, Drop)]
pub enum ShowFault {
    /// The input has no answer; the text says why.
    Refused(String),
    /// The words are none that the program knows.
    Usage,
    /// An allocation failed.
    Memory,
    /// A read or a write failed, or a write took nothing.
    Stream,
}

const USAGE: &str =
    "usage: nano_show code u16s N.. | code text [WORD] | json TYPE | ron TYPE | bin TYPE \
    | toml | json-whole TYPE | ron-whole TYPE | bin-whole TYPE";

/// The exit status of a fault, and the text for standard error, without its line feed. Takes no
/// memory.
pub fn ending(fault: &ShowFault) -> (u8, &str)
    ensures status { result.0 ≡ status_of fault.now }
    ensures text { result.1.now ≡ message_of fault.now }
{
    match fault {
        ShowFault::Refused(reason) => (1, reason.as_str()),
        ShowFault::Usage => (2, USAGE),
        ShowFault::Memory => (3, "no memory"),
        ShowFault::Stream => (3, "stream fault"),
    }
}

impl fmt::Display for ShowFault {
    ghost use Rattle.std.specs.Prelude.{Some};

    ghost output = { λ fault. Some (message_of fault) };

    fn fmt<W: fmt::Write>(&self, f: &mut fmt::Formatter<W>) -> fmt::Result {
        f.write_str(ending(self).1)
    }
}

impl Error for ShowFault {}

impl From<AllocError> for ShowFault {
    ghost use Rattle.nano_show_answers.specs.declared.fault.ShowFault.TheVariants.{Memory};

    ghost from_gives = { λ _ fault. fault ≡ Memory };

    fn from(_error: AllocError) -> ShowFault {
        ShowFault::Memory
    }
}
