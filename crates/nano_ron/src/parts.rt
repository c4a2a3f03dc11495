//! The parts of a tuple: the last one with the closing bracket, and each other with the comma
//! after it.

ghost use Rattle.std.specs.Prelude.{◌++◌, ◌∷◌, [], OnOk, OnErr};
ghost use Rattle.nano_text.specs.Outcomes.{Appends, AppendsPart};
ghost use Rattle.nano_ron.specs.Outcomes.{position, Reads};
ghost use Rattle.nano_ron.specs.ContainerCodecs.{last_codec};

use crate::traits::{DeRon, SerRon};
use nano_ron_tokens::{DeRonErr, DeRonState, SerRonState};
use std::alloc::{AllocError, Global};
use std::str::Chars;

/// Reads the last part of a tuple, and its closing bracket. On an error, the position of the
/// state is unspecified.
pub(crate) fn read_last<T: DeRon>(
    alloc: Global,
    state: &mut DeRonState,
    input: &mut Chars<'_>,
) -> Result<T, DeRonErr>
    ensures { Reads (last_codec T.ron).encoding.encodes T.means
        (position state.old input.old) (position state.new input.new) result }
{
    let last = T::de_ron(alloc, state, input)?;
    state.eat_comma_paren(alloc, input)?;
    state.paren_close(alloc, input)?;
    Ok(last)
}

/// Appends a part of a tuple that is not the last, and a comma and a space after it. If an
/// allocation fails, what was written so far remains.
pub(crate) fn append_part<T: SerRon>(
    alloc: Global,
    part: &T,
    d: usize,
    s: &mut SerRonState,
) -> Result<(), AllocError>
    ensures ok { OnOk result (Appends s.old.out s.new.out
        (T.ron.canonical.text d part.now ++ 44 ∷ (32 ∷ []))) }
    ensures err { OnErr result (AppendsPart s.old.out s.new.out) }
{
    part.ser_ron(alloc, d, s)?;
    s.out.push_str(", ")
}

/// Appends the last part of a tuple, and the closing parenthesis. If an allocation fails, what
/// was written so far remains.
pub(crate) fn append_last<T: SerRon>(
    alloc: Global,
    part: &T,
    d: usize,
    s: &mut SerRonState,
) -> Result<(), AllocError>
    ensures ok { OnOk result
        (Appends s.old.out s.new.out (T.ron.canonical.text d part.now ++ 41 ∷ [])) }
    ensures err { OnErr result (AppendsPart s.old.out s.new.out) }
{
    part.ser_ron(alloc, d, s)?;
    s.out.push(')')
}
