//! A map of lists with a type of its own: in every format it is what its one field is. A row that
//! names it carries none of what a map and a list ask of their parts, so its check is short.

ghost use Rattle.std.specs.Prelude.{refl};
ghost use Rattle.nano_schema.specs.UserTypes.{agreed};
ghost use Rattle.nano_bin.specs.BaseCodecs.{codec_as};
ghost use Rattle.nano_json.specs.Codec.{codec_as as json_as};
ghost use Rattle.nano_ron.specs.Codec.{codec_as as ron_as};

use nano_bin_schema::{BinCodec, DeBin, DeBinErr, SerBin};
use nano_json_schema::{DeJson, DeJsonState, JsonCodec, JsonResult, SerJson, SerJsonState};
use nano_ron_schema::{DeRon, DeRonState, RonCodec, RonResult, SerRon, SerRonState};
use nano_schema::Value;
use std::alloc::{AllocError, Global};
use std::collections::BTreeMap;
use std::str::Chars;

/// Words by kind.
#[derive(PartialEq, Debug, Drop)]
pub struct Tags(pub BTreeMap<String, Vec<String>>);

type Words = BTreeMap<String, Vec<String>>;

impl Value for Tags {
    ghost means = { λ t. ⟦<Words as Value>⟧.means t.0 };

    ghost legal = { ⟦<Words as Value>⟧.legal };

    fn known(&self) {
        self.0.known();
    }
}

// ---- bytes

impl BinCodec for Tags {
    ghost bin = { codec_as (λ t. t.0) ⟦<Words as BinCodec>⟧.bin };

    ghost agrees = { agreed };
}

impl SerBin for Tags {
    fn ser_bin(&self, alloc: Global, output: &mut Vec<u8>) -> Result<(), AllocError> {
        self.0.ser_bin(alloc, output)
    }
}

impl DeBin for Tags {
    ghost is_decodable = { refl };

    fn de_bin(alloc: Global, offset: &mut usize, bytes: &[u8]) -> Result<Tags, DeBinErr> {
        match Words::de_bin(alloc, offset, bytes) {
            Ok(words) => Ok(Tags(words)),
            Err(error) => Err(error),
        }
    }
}

// ---- JSON

impl JsonCodec for Tags {
    ghost json = { json_as (λ t. t.0) ⟦<Words as JsonCodec>⟧.json };

    ghost agrees = { agreed };
}

impl SerJson for Tags {
    fn ser_json(&self, alloc: Global, d: usize, s: &mut SerJsonState) -> Result<(), AllocError> {
        self.0.ser_json(alloc, d, s)
    }
}

impl DeJson for Tags {
    fn de_json(alloc: Global, state: &mut DeJsonState, input: &mut Chars<'_>) -> JsonResult<Self> {
        match Words::de_json(alloc, state, input) {
            Ok(words) => Ok(Tags(words)),
            Err(error) => Err(error),
        }
    }
}

// ---- RON

impl RonCodec for Tags {
    ghost ron = { ron_as (λ t. t.0) ⟦<Words as RonCodec>⟧.ron };

    ghost agrees = { agreed };
}

impl SerRon for Tags {
    fn ser_ron(&self, alloc: Global, d: usize, s: &mut SerRonState) -> Result<(), AllocError> {
        self.0.ser_ron(alloc, d, s)
    }
}

impl DeRon for Tags {
    fn de_ron(alloc: Global, state: &mut DeRonState, input: &mut Chars<'_>) -> RonResult<Self> {
        match Words::de_ron(alloc, state, input) {
            Ok(words) => Ok(Tags(words)),
            Err(error) => Err(error),
        }
    }
}
