//! One part between square brackets.
//!
//! On an error, a reader here may leave the state at any position, unless it says where.

ghost use Rattle.std.specs.Prelude.{◌∷◌, ◌++◌, [], OnOk, OnErr};
ghost use Rattle.nano_meaning.proofs.AgreesLaws.{seen_agrees};
ghost use Rattle.nano_text.specs.Outcomes.{Appends, AppendsPart};
ghost use Rattle.nano_json.specs.Codec.{codec_as};
ghost use Rattle.nano_json.specs.Outcomes.{position, Reads};
ghost use Rattle.nano_json.specs.ContainerCodecs.{last_codec};
ghost use Rattle.nano_json_schema.specs.FieldCodecs.{single_codec};

use nano_json::{
    DeJson, DeJsonErr, DeJsonState, JsonCodec, SerJson, SerJsonState, end_on_error,
    rollback_on_error,
};
use nano_value::Value;
use std::alloc::{AllocError, Global};
use std::str::Chars;

/// A value that stands alone between square brackets: it means what is in it.
#[derive(Drop)]
pub(crate) struct InBrackets<T> {
    /// What is in it.
    pub(crate) part: T,
}

impl<T: Value> Value for InBrackets<T> {
    ghost means = { λ x. T.means x.part };

    ghost legal = { T.legal };

    fn known(&self) {
        self.part.known();
    }
}

impl<T: JsonCodec> JsonCodec for InBrackets<T> {
    ghost json = { codec_as (λ x. x.part) (single_codec T.json) };

    ghost agrees = { seen_agrees T.agrees (λ x. x.part) };
}

/// Appends a value between square brackets. If allocation fails, what was written so far is
/// left.
fn append_brackets<T: SerJson>(
    alloc: Global,
    part: &T,
    d: usize,
    s: &mut SerJsonState,
) -> Result<(), AllocError>
    ensures ok { OnOk result (Appends s.old.out s.new.out
        (91 ∷ (T.json.canonical.text d part.now ++ 93 ∷ []))) }
    ensures err { OnErr result (AppendsPart s.old.out s.new.out) }
{
    s.out.push('[')?;
    part.ser_json(alloc, d, s)?;
    s.out.push(']')
}

impl<T: SerJson> SerJson for InBrackets<T> {
    fn ser_json(&self, alloc: Global, d: usize, s: &mut SerJsonState) -> Result<(), AllocError> {
        let start = s.out.len();
        let written = append_brackets(alloc, &self.part, d, s);
        rollback_on_error(&mut s.out, start, written)
    }
}

/// Reads a value and the closing bracket after it.
pub(crate) fn read_last<T: DeJson>(
    alloc: Global,
    state: &mut DeJsonState,
    input: &mut Chars<'_>,
) -> Result<T, DeJsonErr>
    ensures { Reads (last_codec T.json).encoding.encodes T.means
        (position state.old input.old) (position state.new input.new) result }
{
    let last = T::de_json(alloc, state, input)?;
    state.eat_comma_block(alloc, input)?;
    state.block_close(alloc, input)?;
    Ok(last)
}

/// Reads a value between square brackets.
fn read_brackets<T: DeJson>(
    alloc: Global,
    state: &mut DeJsonState,
    input: &mut Chars<'_>,
) -> Result<T, DeJsonErr>
    ensures { Reads (single_codec T.json).encoding.encodes T.means
        (position state.old input.old) (position state.new input.new) result }
{
    state.block_open(alloc, input)?;
    read_last(alloc, state, input)
}

impl<T: DeJson> DeJson for InBrackets<T> {
    fn de_json(
        alloc: Global,
        state: &mut DeJsonState,
        input: &mut Chars<'_>,
    ) -> Result<InBrackets<T>, DeJsonErr> {
        let read = read_brackets(alloc, state, input);
        match end_on_error(state, read) {
            Ok(part) => Ok(InBrackets { part }),
            Err(error) => Err(error),
        }
    }
}
