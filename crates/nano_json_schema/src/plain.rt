//! Named fields that stand plainly: they are taken with no token pending, and the place and the
//! input remain in registers. Where they do not stand so, `read` reads them.

ghost use Rattle.std.specs.Prelude.{[]};
ghost use Rattle.nano_json_tokens.specs.Outcomes.{TakesPlainly};
ghost use Rattle.nano_json_schema.specs.Reading.{EncodesFields, EncodesKnownFields};
ghost use Rattle.nano_json_schema.specs.Reading.{EncodesFieldsWith};
ghost use Rattle.nano_json_schema.specs.Outcomes.{HoldsPlainly};

use crate::fields::JsonFields;
use crate::unknown::{Rejected, Skipped, Unknown};
use nano_json_tokens::{take_directly, take_name, take_punctuator};
use nano_text::Place;
use std::alloc::Global;
use std::str::Chars;

/// Takes named fields between braces, each of a known name without an escape. `None` says nothing
/// of what stands there, and the place and the input, which are copies, may have moved.
#[inline(always)]
pub fn take_fields<F: JsonFields>(
    alloc: Global,
    place: &mut Place,
    input: &mut Chars<'_>,
    text: &mut String,
) -> Option<F::Values>
    ensures { TakesPlainly (EncodesFields F.codec.struct.shape) F.codec.canonical.means
        place.old input.old place.new input.new result }
{
    take_values::<F, Skipped>(alloc, place, input, text)
}

/// The same where each name must be known, which is so of all that is taken here.
#[inline(always)]
pub(crate) fn take_fields_strict<F: JsonFields>(
    alloc: Global,
    place: &mut Place,
    input: &mut Chars<'_>,
    text: &mut String,
) -> Option<F::Values>
    ensures { TakesPlainly (EncodesKnownFields F.codec.struct.shape) F.codec.canonical.means
        place.old input.old place.new input.new result }
{
    take_values::<F, Rejected>(alloc, place, input, text)
}

/// Takes named fields between braces, whatever may come after a name that is not known.
#[inline(always)]
fn take_values<F: JsonFields, U: Unknown>(
    alloc: Global,
    place: &mut Place,
    input: &mut Chars<'_>,
    text: &mut String,
) -> Option<F::Values>
    ensures { TakesPlainly (EncodesFieldsWith U.after F.codec.struct.shape) F.codec.canonical.means
        place.old input.old place.new input.new result }
{
    let mut slots = F::empty();
    if let None = take_list::<F, U>(&mut slots, alloc, place, input, text) {
        F::discard(slots);
        return None;
    }
    F::whole(slots, alloc)
}

/// Takes the fields between braces into the slots.
#[inline(always)]
fn take_list<F: JsonFields, U: Unknown>(
    slots: &mut F::Slots,
    alloc: Global,
    place: &mut Place,
    input: &mut Chars<'_>,
    text: &mut String,
) -> Option<()>
    requires { F.holds slots.old [] }
    ensures { HoldsPlainly F.codec.struct.shape (F.holds slots.new) U.after
        place.old input.old place.new input.new result }
{
    if !take_punctuator(place, input, '{') {
        return None;
    }
    'fields: loop {
        let name = take_name(place, input)?;
        if !F::take_field(name, slots, alloc, place, input, text)? {
            return None;
        }
        if take_directly(place, input, ',') {
            continue;
        }
        if !take_punctuator(place, input, '}') {
            return None;
        }
        return Some(());
    }
}
