//! A record of a number and a note: in bytes the pair of them, in JSON named fields, as in RON
//! (`item_ron`).

ghost use Rattle.std.specs.Prelude.{codes, refl};
ghost use Rattle.nano_meaning.proofs.AgreesLaws.{agreed};
ghost use Rattle.nano_bin.specs.BaseCodecs.{codec_as as seen_as};
ghost use Rattle.nano_json.specs.Codec.{codec_as};
ghost use Rattle.nano_json_schema.specs.FieldCodecs.{required_field, optional_field, fields_pair};
ghost use Rattle.nano_json_schema.specs.FieldCodecs.{plain_names, fields_codec};

use nano_bin::{BinCodec, DeBin, DeBinErr, SerBin, append_part};
use nano_json::{DeJson, DeJsonErr, DeJsonState, JsonCodec, SerJson, SerJsonState};
use nano_json_schema::{read_fields, take_fields, write_fields};
use nano_schema::{Label, Optional, Required};
use nano_text::Place;
use nano_value::Value;
use std::alloc::{AllocError, Global};
use std::str::Chars;

/// A record.
#[derive(Drop)]
pub struct Item {
    pub value: i32,
    pub note: Option<String>,
}

/// The name `value`.
#[derive(Drop)]
pub struct ItemValue {}

impl Label for ItemValue {
    ghost label = { codes "value" };

    fn text() -> &'static str {
        "value"
    }
}

/// The name `note`.
#[derive(Drop)]
pub struct ItemNote {}

impl Label for ItemNote {
    ghost label = { codes "note" };

    fn text() -> &'static str {
        "note"
    }
}

/// Its fields.
pub type ItemFields = (Required<ItemValue, i32>, Optional<ItemNote, String>);

impl Value for Item {
    ghost means = { λ item. ⟦<(i32, Option<String>) as Value>⟧.means (item.value, item.note) };

    ghost legal = { ⟦<(i32, Option<String>) as Value>⟧.legal };

    #[tactic(auto, using(nano_meaning::proofs::MeaningLaws::pair_is_legal))]
    fn known(&self) {
        self.value.known();
        self.note.known();
    }
}

impl BinCodec for Item {
    ghost bin = { seen_as (λ item. (item.value, item.note))
        ⟦<(i32, Option<String>) as BinCodec>⟧.bin };

    ghost agrees = { agreed };
}

impl SerBin for Item {
    fn ser_bin(&self, alloc: Global, output: &mut Vec<u8>) -> Result<(), AllocError> {
        let start = output.len();
        self.value.ser_bin(alloc, output)?;
        append_part(alloc, &self.note, output, start)
    }
}

impl DeBin for Item {
    ghost is_decodable = { refl };

    fn de_bin(alloc: Global, offset: &mut usize, bytes: &[u8]) -> Result<Item, DeBinErr> {
        let (value, note) = <(i32, Option<String>)>::de_bin(alloc, offset, bytes)?;
        Ok(Item { value, note })
    }
}

impl JsonCodec for Item {
    ghost json = { codec_as (λ item. (item.value, item.note)) (fields_codec
        (fields_pair (required_field (codes "value") ⟦<i32 as JsonCodec>⟧.json)
        (optional_field (codes "note") ⟦<String as JsonCodec>⟧.json))
        (plain_names refl) refl) };

    ghost agrees = { agreed };
}

impl SerJson for Item {
    fn ser_json(&self, alloc: Global, d: usize, s: &mut SerJsonState) -> Result<(), AllocError> {
        write_fields::<ItemFields>(&(&self.value, &self.note), alloc, d, s)
    }
}

impl DeJson for Item {
    fn de_json(
        alloc: Global,
        state: &mut DeJsonState,
        input: &mut Chars<'_>,
    ) -> Result<Item, DeJsonErr> {
        let (value, note) = read_fields::<ItemFields>(alloc, state, input)?;
        Ok(Item { value, note })
    }

    fn de_json_plain(
        alloc: Global,
        place: &mut Place,
        input: &mut Chars<'_>,
        text: &mut String,
    ) -> Option<Item> {
        let (value, note) = take_fields::<ItemFields>(alloc, place, input, text)?;
        Some(Item { value, note })
    }
}
