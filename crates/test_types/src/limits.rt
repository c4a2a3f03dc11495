//! A map with a type of its own: in every format it is what its one field is. A row that names it
//! carries none of what a map asks of its keys and values, so its check is short.

ghost use Rattle.std.specs.Prelude.{refl};
ghost use Rattle.nano_schema.specs.UserTypes.{agreed};
ghost use Rattle.nano_bin.specs.BaseCodecs.{codec_as};
ghost use Rattle.nano_json.specs.Codec.{codec_as as json_as};
ghost use Rattle.nano_ron.specs.Codec.{codec_as as ron_as};

use nano_bin_schema::{BinCodec, DeBin, DeBinErr, SerBin};
use nano_json_schema::{DeJson, DeJsonState, JsonCodec, JsonResult, SerJson, SerJsonState};
use nano_ron_schema::{DeRon, DeRonState, RonCodec, RonResult, SerRon, SerRonState};
use nano_schema::Value;
use std::alloc::{AllocError, Global};
use std::collections::HashMap;
use std::str::Chars;

/// Numbers by name.
#[derive(PartialEq, Debug, Drop)]
pub struct Limits(pub HashMap<String, u64>);

type Numbers = HashMap<String, u64>;

impl Value for Limits {
    ghost means = { λ l. ⟦<Numbers as Value>⟧.means l.0 };

    ghost legal = { ⟦<Numbers as Value>⟧.legal };

    fn known(&self) {
        self.0.known();
    }
}

// ---- bytes

impl BinCodec for Limits {
    ghost bin = { codec_as (λ l. l.0) ⟦<Numbers as BinCodec>⟧.bin };

    ghost agrees = { agreed };
}

impl SerBin for Limits {
    fn ser_bin(&self, alloc: Global, output: &mut Vec<u8>) -> Result<(), AllocError> {
        self.0.ser_bin(alloc, output)
    }
}

impl DeBin for Limits {
    ghost is_decodable = { refl };

    fn de_bin(alloc: Global, offset: &mut usize, bytes: &[u8]) -> Result<Limits, DeBinErr> {
        match Numbers::de_bin(alloc, offset, bytes) {
            Ok(numbers) => Ok(Limits(numbers)),
            Err(error) => Err(error),
        }
    }
}

// ---- JSON

impl JsonCodec for Limits {
    ghost json = { json_as (λ l. l.0) ⟦<Numbers as JsonCodec>⟧.json };

    ghost agrees = { agreed };
}

impl SerJson for Limits {
    fn ser_json(&self, alloc: Global, d: usize, s: &mut SerJsonState) -> Result<(), AllocError> {
        self.0.ser_json(alloc, d, s)
    }
}

impl DeJson for Limits {
    fn de_json(alloc: Global, state: &mut DeJsonState, input: &mut Chars<'_>) -> JsonResult<Self> {
        match Numbers::de_json(alloc, state, input) {
            Ok(numbers) => Ok(Limits(numbers)),
            Err(error) => Err(error),
        }
    }
}

// ---- RON

impl RonCodec for Limits {
    ghost ron = { ron_as (λ l. l.0) ⟦<Numbers as RonCodec>⟧.ron };

    ghost agrees = { agreed };
}

impl SerRon for Limits {
    fn ser_ron(&self, alloc: Global, d: usize, s: &mut SerRonState) -> Result<(), AllocError> {
        self.0.ser_ron(alloc, d, s)
    }
}

impl DeRon for Limits {
    fn de_ron(alloc: Global, state: &mut DeRonState, input: &mut Chars<'_>) -> RonResult<Self> {
        match Numbers::de_ron(alloc, state, input) {
            Ok(numbers) => Ok(Limits(numbers)),
            Err(error) => Err(error),
        }
    }
}
