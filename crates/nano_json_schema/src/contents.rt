//! What a variant holds, in JSON: nothing, one part between square brackets, or named fields
//! between curly ones.

ghost use Rattle.std.specs.Prelude.{◌≡◌, OnOk, OnErr};
ghost use Rattle.nano_value.specs.Meaning.{Meaning, nothing};
ghost use Rattle.nano_text.specs.Outcomes.{Appends, Unchanged};
ghost use Rattle.nano_json.specs.Outcomes.{position, ReadsOrEnds};
ghost use Rattle.nano_grammar.specs.Choices.{Content, stands_alone};
ghost use Rattle.nano_json_schema.specs.FieldCodecs.{single_codec};
ghost use Rattle.nano_json_schema.specs.VariantCodecs.{no_content, content_as, fields_content};
ghost use Rattle.nano_json_schema.specs.VariantCodecs.{json_variants};
ghost use Rattle.nano_json_schema.specs.Reading.{EncodesRest};

use crate::brackets::InBrackets;
use crate::fields::{JsonFields, JsonRefs, JsonShape};
use crate::part::Part;
use crate::variant_writer::{write_fields_variant, write_unit_variant, write_variant};
use crate::variants::{read_content, read_fields_content};
use nano_json::{DeJson, DeJsonErr, DeJsonState, JsonCodec, SerJson, SerJsonState};
use nano_schema::{Newtype, Struct, Unit};
use std::alloc::{AllocError, Global};
use std::str::Chars;

/// The content of a variant that has a JSON codec.
pub trait JsonContent {
    /// Its values.
    type Values;

    /// How it is written and read.
    ghost content: { Content json_variants Self.Values };
}

/// The content of a variant that is read from JSON.
pub trait ReadContent {
    /// Its values.
    type Values;

    /// How it is written and read.
    ghost content: { Content json_variants Self.Values };

    /// What it means.
    ghost means: { Self.Values → Meaning };

    /// Whether the name of the variant stands alone, with no content after it.
    fn stands_alone() -> bool
        ensures { result ≡ stands_alone content.rest };

    /// Reads what comes after the name of the variant, with the `}` after it; for a variant
    /// without content that is nothing.
    ///
    /// An error other than out of memory says that no such content is encoded there, with one
    /// more token or the end after it. Every error leaves the state at the end of the text.
    fn read(
        alloc: Global,
        state: &mut DeJsonState,
        input: &mut Chars<'_>,
    ) -> Result<Self::Values, DeJsonErr>
        ensures { ReadsOrEnds (EncodesRest content.rest) means
            (position state.old input.old) (position state.new input.new) result };
}

/// The content of a variant that is written as JSON.
pub trait WriteContent<'a> {
    /// Its values.
    type Values;

    /// References to them.
    type Refs;

    /// What they refer to.
    ghost values: { Self.Refs → Self.Values };

    /// How it is written and read.
    ghost content: { Content json_variants Self.Values };

    /// Appends the variant of this name with the content at level `d`. If the write fails,
    /// `s.out` is unchanged.
    fn write(
        name: &str,
        refs: &Self::Refs,
        alloc: Global,
        d: usize,
        s: &mut SerJsonState,
    ) -> Result<(), AllocError>
        ensures ok { OnOk result
            (Appends s.old.out s.new.out (content.text name.now d (values refs.now))) }
        ensures err { OnErr result (Unchanged s.old.out s.new.out) };
}

// ---- no content

impl JsonContent for Unit {
    type Values = ();

    ghost content = { no_content };
}

impl ReadContent for Unit {
    type Values = ();

    ghost content = { no_content };

    ghost means = { λ v. nothing };

    fn stands_alone() -> bool {
        true
    }

    fn read(
        _alloc: Global,
        _state: &mut DeJsonState,
        _input: &mut Chars<'_>,
    ) -> Result<(), DeJsonErr> {
        Ok(())
    }
}

impl<'a> WriteContent<'a> for Unit {
    type Values = ();

    type Refs = ();

    ghost values = { λ r. r };

    ghost content = { no_content };

    fn write(
        name: &str,
        _refs: &(),
        alloc: Global,
        _d: usize,
        s: &mut SerJsonState,
    ) -> Result<(), AllocError> {
        write_unit_variant(alloc, name, s)
    }
}

// ---- one part

impl<T: JsonCodec> JsonContent for Newtype<T> {
    type Values = T;

    ghost content = { content_as (single_codec T.json) };
}

impl<T: DeJson> ReadContent for Newtype<T> {
    type Values = T;

    ghost content = { content_as (single_codec T.json) };

    ghost means = { T.json.canonical.means };

    fn stands_alone() -> bool {
        false
    }

    fn read(alloc: Global, state: &mut DeJsonState, input: &mut Chars<'_>) -> Result<T, DeJsonErr> {
        match read_content::<InBrackets<T>>(alloc, state, input) {
            Ok(content) => Ok(content.part),
            Err(error) => Err(error),
        }
    }
}

impl<'a, T: SerJson + 'a> WriteContent<'a> for Newtype<T> {
    type Values = T;

    type Refs = &'a T;

    ghost values = { λ r. r.now };

    ghost content = { content_as (single_codec T.json) };

    fn write(
        name: &str,
        refs: &&'a T,
        alloc: Global,
        d: usize,
        s: &mut SerJsonState,
    ) -> Result<(), AllocError> {
        let content = InBrackets {
            part: Part { of: *refs },
        };
        write_variant(alloc, name, &content, d, s)
    }
}

// ---- named fields

impl<F: JsonShape> JsonContent for Struct<F> {
    type Values = F::Values;

    ghost content = { fields_content F.codec };
}

impl<F: JsonFields> ReadContent for Struct<F> {
    type Values = F::Values;

    ghost content = { fields_content F.codec };

    ghost means = { F.codec.canonical.means };

    fn stands_alone() -> bool {
        false
    }

    fn read(
        alloc: Global,
        state: &mut DeJsonState,
        input: &mut Chars<'_>,
    ) -> Result<F::Values, DeJsonErr> {
        read_fields_content::<F>(alloc, state, input)
    }
}

impl<'a, F: JsonRefs<'a>> WriteContent<'a> for Struct<F> {
    type Values = F::Values;

    type Refs = F::Refs;

    ghost values = { F.values };

    ghost content = { fields_content F.codec };

    fn write(
        name: &str,
        refs: &F::Refs,
        alloc: Global,
        d: usize,
        s: &mut SerJsonState,
    ) -> Result<(), AllocError> {
        write_fields_variant::<F>(name, refs, alloc, d, s)
    }
}
