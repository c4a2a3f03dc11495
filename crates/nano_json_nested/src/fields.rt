//! Named fields that may hold values of the type that has the fields.

ghost use Rattle.std.specs.Prelude.{◌≡◌, ℕ, List, [], ◌∷◌, ◌++◌, false};
ghost use Rattle.nano_value.specs.Meaning.{Meaning};
ghost use Rattle.nano_json.specs.Outcomes.{position, Keeps};
ghost use Rattle.nano_grammar.specs.FieldCodec.{FieldsCodec};
ghost use Rattle.nano_json_schema.specs.Reading.{Field};
ghost use Rattle.nano_json_schema.specs.Outcomes.{ReadsField, GivesValues};
ghost use Rattle.nano_json_schema.specs.FieldCodecs.{json_fields};

use nano_json::{DeJsonErr, DeJsonState};
use nano_json_schema::JsonFields;
use nano_levels::Other;
use std::alloc::Global;
use std::str::Chars;

/// Named fields that are read, given how many levels may follow: those of `Other`, one whose value
/// holds values of the type that has it (`Within`), or fields and more fields (a pair). Of a name
/// that both of a pair know, the first has the values.
pub trait JsonFieldsWithin<L> {
    /// Their values.
    type Values;

    /// What is read so far.
    type Slots;

    /// How they are written and read, where so many levels may follow.
    ghost codec: { ℕ → FieldsCodec json_fields Self.Values };

    /// What their values mean.
    ghost means: { Self.Values → Meaning };

    /// The slots hold what is read of these fields of a text, where so many levels may follow.
    ghost holds: { ℕ → Self.Slots → List Field → Type 0 };

    /// Slots before the first field. It takes no memory.
    fn empty() -> Self::Slots
        ensures { (levels : ℕ) → holds levels result [] };

    /// Reads the value of the field with this name, whose first token is pending, and puts it in
    /// place of an earlier one. Answers whether a field has the name; where none has, nothing is
    /// read.
    ///
    /// An error other than out of memory says that no value of that field's type stands there,
    /// with one more token or the end after it. The state may be at any position then.
    fn read_field(
        levels: &L,
        left: usize,
        name: &str,
        slots: &mut Self::Slots,
        alloc: Global,
        state: &mut DeJsonState,
        input: &mut Chars<'_>,
    ) -> Result<bool, DeJsonErr>
        ensures { ReadsField name.now (codec left).struct.shape
            (holds left slots.old) (holds left slots.new)
            ((slots.new ≡ slots.old) × Keeps state.old input.old state.new input.new)
            (position state.old input.old) (position state.new input.new) result };

    /// The values that the slots hold. It fails with `Key not found {name}` for the first field
    /// that must be there and is missing.
    fn values(
        slots: Self::Slots,
        alloc: Global,
        state: &DeJsonState,
    ) -> Result<Self::Values, DeJsonErr>
        ensures { (levels : ℕ) → GivesValues (codec levels).struct.shape (holds levels slots)
            means state.now result };

    /// Drops what was read.
    fn discard(slots: Self::Slots);

    /// Drops the values.
    fn discard_values(values: Self::Values);

    /// A field whose name is not known changes nothing.
    ghost skips: { (levels : ℕ) (slots : Self.Slots) (fs : List Field) (f : Field)
        → (codec levels).struct.shape.knows f.name ≡ false
        → holds levels slots fs → holds levels slots (fs ++ f ∷ []) };
}

impl<L, F: JsonFields> JsonFieldsWithin<L> for Other<F> {
    type Values = F::Values;

    type Slots = F::Slots;

    ghost codec = { λ levels. F.codec };

    ghost means = { F.codec.canonical.means };

    ghost holds = { λ levels. F.holds };

    ghost skips = { λ levels. F.skips };

    fn empty() -> F::Slots {
        F::empty()
    }

    fn read_field(
        _levels: &L,
        _left: usize,
        name: &str,
        slots: &mut F::Slots,
        alloc: Global,
        state: &mut DeJsonState,
        input: &mut Chars<'_>,
    ) -> Result<bool, DeJsonErr> {
        F::read_field(name, slots, alloc, state, input)
    }

    fn values(slots: F::Slots, alloc: Global, state: &DeJsonState) -> Result<F::Values, DeJsonErr> {
        F::values(slots, alloc, state)
    }

    fn discard(slots: F::Slots) {
        F::discard(slots);
    }

    fn discard_values(values: F::Values) {
        F::discard_values(values);
    }
}
