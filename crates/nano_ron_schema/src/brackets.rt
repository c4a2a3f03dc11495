//! One part between parentheses.
//!
//! On an error, a reader here may leave the state at any position, unless it says where.

ghost use Rattle.std.specs.Prelude.{◌∷◌, ◌++◌, [], OnOk, OnErr};
ghost use Rattle.nano_text.specs.Outcomes.{Appends, AppendsPart};
ghost use Rattle.nano_meaning.proofs.AgreesLaws.{seen_agrees};
ghost use Rattle.nano_ron.specs.Codec.{codec_as};
ghost use Rattle.nano_ron.specs.Outcomes.{position, Reads};
ghost use Rattle.nano_ron.specs.ContainerCodecs.{last_codec};
ghost use Rattle.nano_ron_schema.specs.VariantCodecs.{single_codec};

use nano_ron::{
    DeRon, DeRonErr, DeRonState, RonCodec, SerRon, SerRonState, end_on_error, rollback_on_error,
};
use nano_value::Value;
use std::alloc::{AllocError, Global};
use std::str::Chars;

/// A value that stands alone between parentheses: it means what is in it.
#[derive(Drop)]
pub(crate) struct InBrackets<T> {
    /// What is in it.
    pub(crate) part: T,
}

impl<T: Value> Value for InBrackets<T> {
    ghost means = { λ x. T.means x.part };

    ghost legal = { T.legal };

    fn known(&self) {
        self.part.known();
    }
}

impl<T: RonCodec> RonCodec for InBrackets<T> {
    ghost ron = { codec_as (λ x. x.part) (single_codec T.ron) };

    ghost agrees = { seen_agrees T.agrees (λ x. x.part) };
}

/// Appends a value between parentheses. If allocation fails, what was written so far is left.
fn append_brackets<T: SerRon>(
    alloc: Global,
    part: &T,
    d: usize,
    s: &mut SerRonState,
) -> Result<(), AllocError>
    ensures ok { OnOk result (Appends s.old.out s.new.out
        (40 ∷ (T.ron.canonical.text d part.now ++ 41 ∷ []))) }
    ensures err { OnErr result (AppendsPart s.old.out s.new.out) }
{
    s.out.push('(')?;
    part.ser_ron(alloc, d, s)?;
    s.out.push(')')
}

impl<T: SerRon> SerRon for InBrackets<T> {
    fn ser_ron(&self, alloc: Global, d: usize, s: &mut SerRonState) -> Result<(), AllocError> {
        let start = s.out.len();
        let written = append_brackets(alloc, &self.part, d, s);
        rollback_on_error(&mut s.out, start, written)
    }
}

/// Reads a value and the closing parenthesis after it.
pub(crate) fn read_last<T: DeRon>(
    alloc: Global,
    state: &mut DeRonState,
    input: &mut Chars<'_>,
) -> Result<T, DeRonErr>
    ensures { Reads (last_codec T.ron).encoding.encodes T.means
        (position state.old input.old) (position state.new input.new) result }
{
    let last = T::de_ron(alloc, state, input)?;
    state.eat_comma_paren(alloc, input)?;
    state.paren_close(alloc, input)?;
    Ok(last)
}

/// Reads a value between parentheses.
fn read_brackets<T: DeRon>(
    alloc: Global,
    state: &mut DeRonState,
    input: &mut Chars<'_>,
) -> Result<T, DeRonErr>
    ensures { Reads (single_codec T.ron).encoding.encodes T.means
        (position state.old input.old) (position state.new input.new) result }
{
    state.paren_open(alloc, input)?;
    read_last(alloc, state, input)
}

impl<T: DeRon> DeRon for InBrackets<T> {
    fn de_ron(
        alloc: Global,
        state: &mut DeRonState,
        input: &mut Chars<'_>,
    ) -> Result<InBrackets<T>, DeRonErr> {
        let read = read_brackets(alloc, state, input);
        match end_on_error(state, read) {
            Ok(part) => Ok(InBrackets { part }),
            Err(error) => Err(error),
        }
    }
}
