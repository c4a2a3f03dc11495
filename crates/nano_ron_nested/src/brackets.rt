//! The parts of a tuple variant between parentheses, of which some hold values of the enum itself.

ghost use Rattle.nano_ron.specs.Outcomes.{position, Reads, ReadsOrEnds};
ghost use Rattle.nano_ron_schema.specs.Reading.{Closed};
ghost use Rattle.nano_ron_nested.specs.PartCodecs.{in_parentheses};

use crate::parts::RonPartsWithin;
use nano_ron::{DeRonErr, DeRonState, end_on_error};
use std::alloc::Global;
use std::str::Chars;

/// Reads parts between parentheses. On an error, the state may be at any position.
fn read_brackets<L, P: RonPartsWithin<L>>(
    levels: &L,
    left: usize,
    alloc: Global,
    state: &mut DeRonState,
    input: &mut Chars<'_>,
) -> Result<P::Values, DeRonErr>
    ensures { Reads (in_parentheses (P.parts left)).encodes P.means
        (position state.old input.old) (position state.new input.new) result }
{
    state.paren_open(alloc, input)?;
    P::read_parts(levels, left, alloc, state, input)
}

/// Reads parts between parentheses, as the content of a variant whose name is taken. Every error
/// leaves the state at the end of the text.
pub(crate) fn read_in_brackets<L, P: RonPartsWithin<L>>(
    levels: &L,
    left: usize,
    alloc: Global,
    state: &mut DeRonState,
    input: &mut Chars<'_>,
) -> Result<P::Values, DeRonErr>
    ensures { ReadsOrEnds (Closed (in_parentheses (P.parts left)).encodes) P.means
        (position state.old input.old) (position state.new input.new) result }
{
    let read = read_brackets::<L, P>(levels, left, alloc, state, input);
    end_on_error(state, read)
}
