//! The fields of a struct: what reads the field of a name, makes the values of all, and writes
//! them.

ghost use Rattle.std.specs.Prelude.{◌≡◌, List, [], ◌∷◌, ◌++◌, false, OnOk, OnErr, string_bytes};
ghost use Rattle.nano_text.specs.Outcomes.{Appends, AppendsPart};
ghost use Rattle.nano_grammar.specs.FieldCodec.{FieldsCodec};
ghost use Rattle.nano_ron_schema.specs.Reading.{Field};
ghost use Rattle.nano_ron_schema.specs.Outcomes.{ReadsField, GivesValues, on_lines, field_text};
ghost use Rattle.nano_ron_schema.specs.FieldCodecs.{ron_fields};
ghost use Rattle.nano_ron.specs.Outcomes.{position, Keeps};
ghost use Rattle.nano_ron.specs.State.{pending};
ghost use Rattle.nano_ron.specs.Token.{IsIdent};

use nano_ron::{DeRonErr, DeRonState, SerRonState};
use std::alloc::{AllocError, Global};
use std::str::Chars;

/// Fields that have a RON codec.
pub trait RonShape {
    /// Their values.
    type Values;

    /// How they are written and read.
    ghost codec: { FieldsCodec ron_fields Self.Values };
}

/// Named fields that are read: one that must be there (`Required`), one that may be missing
/// (`Optional`), or fields and more fields (a pair). Of a name that both of a pair know, the first
/// has the values. Where an optional field is there, the word `None` is `None` too.
pub trait RonFields {
    /// Their values.
    type Values;

    /// What is read so far.
    type Slots;

    /// How they are written and read.
    ghost codec: { FieldsCodec ron_fields Self.Values };

    /// The slots hold what is read of these fields of a text.
    ghost holds: { Self.Slots → List Field → Type 0 };

    /// Slots before the first field. It takes no memory.
    fn empty() -> Self::Slots
        ensures { holds result [] };

    /// Reads the field whose name is pending, and puts its value in place of an earlier one.
    /// Answers whether a field has the name; where none has, nothing is taken.
    ///
    /// An error other than out of memory says that no field with this name and a value of its
    /// type stands there, with one more token or the end after it. The state may be at any
    /// position then.
    fn read_field(
        slots: &mut Self::Slots,
        alloc: Global,
        state: &mut DeRonState,
        input: &mut Chars<'_>,
    ) -> Result<bool, DeRonErr>
        requires { IsIdent (pending state.old) }
        ensures { ReadsField (string_bytes state.old.identbuf) codec.struct.shape
            (holds slots.old) (holds slots.new)
            ((slots.new ≡ slots.old) × Keeps state.old input.old state.new input.new)
            (position state.old input.old) (position state.new input.new) result };

    /// The values that the slots hold. It fails with `Key not found {name}` for the first field
    /// that must be there and is missing.
    fn values(
        slots: Self::Slots,
        alloc: Global,
        state: &DeRonState,
    ) -> Result<Self::Values, DeRonErr>
        ensures { GivesValues codec.struct.shape (holds slots) codec.canonical.means state.now
            result };

    /// Drops what was read.
    fn discard(slots: Self::Slots);

    /// Drops the values.
    fn discard_values(values: Self::Values);

    /// A field whose name is not known changes nothing.
    ghost skips: { (slots : Self.Slots) (fs : List Field) (f : Field)
        → codec.struct.shape.knows f.name ≡ false
        → holds slots fs → holds slots (fs ++ f ∷ []) };
}

/// Fields that are written one below the other: a `Required` one is one, an `Optional` one is one
/// or none, and a pair is its first fields and then its second ones.
pub trait RonRefs<'a> {
    /// Their values.
    type Values;

    /// References to their values.
    type Refs;

    /// What they refer to.
    ghost values: { Self.Refs → Self.Values };

    /// How they are written and read.
    ghost codec: { FieldsCodec ron_fields Self.Values };

    /// Appends the fields at level `d`, each on a line of its own, with a comma after it.
    ///
    /// If the write fails, what was written so far is left.
    fn append_fields(
        refs: &Self::Refs,
        alloc: Global,
        d: usize,
        s: &mut SerRonState,
    ) -> Result<(), AllocError>
        ensures ok { OnOk result (Appends s.old.out s.new.out
            (on_lines d (field_text d) (codec.canonical.fields (values refs.now)))) }
        ensures err { OnErr result (AppendsPart s.old.out s.new.out) };
}
