//! The fields of a struct: what reads the value of a name, makes the values of all, and writes
//! them.

ghost use Rattle.std.specs.Prelude.{◌≡◌, List, [], ◌∷◌, ◌++◌, false, IfOk, OnOk, OnErr};
ghost use Rattle.nano_text.specs.Outcomes.{Appends, AppendsPart};
ghost use Rattle.nano_json.specs.Outcomes.{position, Keeps};
ghost use Rattle.nano_grammar.specs.FieldCodec.{FieldsCodec, field_text};
ghost use Rattle.nano_json_schema.specs.Reading.{Field};
ghost use Rattle.nano_json_schema.specs.Outcomes.{in_a_row, none_yet, ReadsField, GivesValues};
ghost use Rattle.nano_json_schema.specs.Outcomes.{TakesFieldPlainly, GivesWhole};
ghost use Rattle.nano_json_schema.specs.FieldCodecs.{json_fields};

use nano_json::{DeJsonErr, DeJsonState, SerJsonState};
use nano_text::Place;
use std::alloc::{AllocError, Global};
use std::str::Chars;

/// Fields that have a JSON codec.
pub trait JsonShape {
    /// Their values.
    type Values;

    /// How they are written and read.
    ghost codec: { FieldsCodec json_fields Self.Values };
}

/// Named fields that are read: one that must be there (`Required`), one that may be missing
/// (`Optional`), or fields and more fields (a pair). Of a name that both of a pair know, the first
/// has the values. Where an optional field is there, `null` is `None` too.
pub trait JsonFields {
    /// Their values.
    type Values;

    /// What is read so far.
    type Slots;

    /// How they are written and read.
    ghost codec: { FieldsCodec json_fields Self.Values };

    /// The slots hold what is read of these fields of a text.
    ghost holds: { Self.Slots → List Field → Type 0 };

    /// Slots before the first field. It takes no memory.
    fn empty() -> Self::Slots
        ensures { holds result [] };

    /// Reads the value of the field with this name, whose first token is pending, and puts it in
    /// place of an earlier one. Answers whether a field has the name; where none has, nothing is
    /// read.
    ///
    /// An error other than out of memory says that no value of that field's type stands there,
    /// with one more token or the end after it. The state may be at any position then.
    fn read_field(
        name: &str,
        slots: &mut Self::Slots,
        alloc: Global,
        state: &mut DeJsonState,
        input: &mut Chars<'_>,
    ) -> Result<bool, DeJsonErr>
        ensures { ReadsField name.now codec.struct.shape (holds slots.old) (holds slots.new)
            ((slots.new ≡ slots.old) × Keeps state.old input.old state.new input.new)
            (position state.old input.old) (position state.new input.new) result };

    /// Takes the value of the field with this name, where it stands plainly, and puts it in place of
    /// an earlier one. Answers whether a field has the name; where none has, nothing is taken.
    ///
    /// `None` says nothing of what stands there, and the place and the input, which are copies, may
    /// have moved, as `text` may, which is room for a text. So fields that always answer `None`
    /// lose speed alone.
    #[inline(always)]
    fn take_field(
        name: &str,
        slots: &mut Self::Slots,
        alloc: Global,
        place: &mut Place,
        input: &mut Chars<'_>,
        text: &mut String,
    ) -> Option<bool>
        ensures { TakesFieldPlainly name.now codec.struct.shape (holds slots.old) (holds slots.new)
            ((slots.new ≡ slots.old) × (place.new ≡ place.old) × (input.new ≡ input.old))
            place.old input.old place.new input.new result }
    {
        None
    }

    /// The values that the slots hold, unless one is missing that must be there.
    #[inline(always)]
    fn whole(slots: Self::Slots, alloc: Global) -> Option<Self::Values>
        ensures { GivesWhole codec.struct.shape (holds slots) codec.canonical.means result }
    {
        Self::discard(slots);
        None
    }

    /// The values that the slots hold. It fails with `Key not found {name}` for the first field
    /// that must be there and is missing.
    fn values(
        slots: Self::Slots,
        alloc: Global,
        state: &DeJsonState,
    ) -> Result<Self::Values, DeJsonErr>
        ensures { GivesValues codec.struct.shape (holds slots) codec.canonical.means state.now
            result };

    /// Drops what was read.
    fn discard(slots: Self::Slots);

    /// Drops the values.
    fn discard_values(values: Self::Values);

    /// A field whose name is not known changes nothing.
    ghost skips: { (slots : Self.Slots) (fs : List Field) (f : Field)
        → codec.struct.shape.knows f.name ≡ false
        → holds slots fs → holds slots (fs ++ f ∷ []) };
}

/// Fields that are written one after the other: a `Required` one is one, an `Optional` one is one
/// or none, and a pair is its first fields and then its second ones.
pub trait JsonRefs<'a> {
    /// Their values.
    type Values;

    /// References to their values.
    type Refs;

    /// What they refer to.
    ghost values: { Self.Refs → Self.Values };

    /// How they are written and read.
    ghost codec: { FieldsCodec json_fields Self.Values };

    /// Appends the fields, with their values at level `d`. Each comes after a comma, but the
    /// first where `first` says that no field comes before it. Answers whether none comes
    /// before the next.
    ///
    /// If the write fails, what was written so far is left.
    fn append_fields(
        refs: &Self::Refs,
        alloc: Global,
        first: bool,
        d: usize,
        s: &mut SerJsonState,
    ) -> Result<bool, AllocError>
        ensures ok { OnOk result (Appends s.old.out s.new.out
            (in_a_row first (field_text json_fields d)
            (codec.canonical.fields (values refs.now)))) }
        ensures next { IfOk result (λ still_first. still_first
            ≡ none_yet first (codec.canonical.fields (values refs.now))) }
        ensures err { OnErr result (AppendsPart s.old.out s.new.out) };
}
