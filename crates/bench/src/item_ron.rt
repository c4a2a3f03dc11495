//! The record in RON: named fields between parentheses.

ghost use Rattle.std.specs.Prelude.{codes, refl};
ghost use Rattle.nano_meaning.proofs.AgreesLaws.{agreed};
ghost use Rattle.nano_ron.specs.Codec.{codec_as};
ghost use Rattle.nano_ron_schema.specs.FieldCodecs.{required_field, optional_field, fields_pair};
ghost use Rattle.nano_ron_schema.specs.FieldCodecs.{word_names, fields_codec};

use crate::item::{Item, ItemFields};
use nano_ron::{DeRon, DeRonErr, DeRonState, RonCodec, SerRon, SerRonState};
use nano_ron_schema::{read_fields, write_fields};
use std::alloc::{AllocError, Global};
use std::str::Chars;

impl RonCodec for Item {
    ghost ron = { codec_as (λ item. (item.value, item.note)) (fields_codec
        (fields_pair (required_field (codes "value") ⟦<i32 as RonCodec>⟧.ron)
        (optional_field (codes "note") ⟦<String as RonCodec>⟧.ron))
        (word_names refl) refl) };

    ghost agrees = { agreed };
}

impl SerRon for Item {
    fn ser_ron(&self, alloc: Global, d: usize, s: &mut SerRonState) -> Result<(), AllocError> {
        write_fields::<ItemFields>(&(&self.value, &self.note), alloc, d, s)
    }
}

impl DeRon for Item {
    fn de_ron(
        alloc: Global,
        state: &mut DeRonState,
        input: &mut Chars<'_>,
    ) -> Result<Item, DeRonErr> {
        let (value, note) = read_fields::<ItemFields>(alloc, state, input)?;
        Ok(Item { value, note })
    }
}
