//! A struct that is transparent: in every format it is what its one field is. It can be a key.

ghost use Rattle.std.specs.Prelude.{refl};
ghost use Rattle.nano_meaning.proofs.ExactLaws.{signed_tell};
ghost use Rattle.nano_meaning.proofs.OrderLaws.{signed_follow};
ghost use Rattle.nano_meaning.proofs.AgreesLaws.{agreed};
ghost use Rattle.nano_bin.specs.BaseCodecs.{codec_as};
ghost use Rattle.nano_json.specs.Codec.{codec_as as json_as};
ghost use Rattle.nano_ron.specs.Codec.{codec_as as ron_as};

use nano_bin::{BinCodec, DeBin, DeBinErr, SerBin};
use nano_json::{DeJson, DeJsonErr, DeJsonState, JsonCodec, SerJson, SerJsonState};
use nano_ron::{DeRon, DeRonErr, DeRonState, RonCodec, SerRon, SerRonState};
use nano_value::{Key, OrderedKey, Value};
use std::alloc::{AllocError, Global};
use std::str::Chars;

/// A number with a type of its own.
#[derive(PartialEq, Eq, Hash, PartialOrd, Ord, Debug, Drop)]
pub struct Plain(pub i32);

impl Value for Plain {
    ghost means = { λ p. ⟦<i32 as Value>⟧.means p.0 };

    ghost legal = { ⟦<i32 as Value>⟧.legal };

    fn known(&self) {
        self.0.known();
    }
}

impl Key for Plain {
    ghost order = { ⟦<i32 as Key>⟧.order };

    ghost exact = { λ x y. signed_tell x.0 y.0 };
}

impl OrderedKey for Plain {
    ghost follows = { λ x y. signed_follow x.0 y.0 };
}

// ---- bytes

impl BinCodec for Plain {
    ghost bin = { codec_as (λ p. p.0) ⟦<i32 as BinCodec>⟧.bin };

    ghost agrees = { agreed };
}

impl SerBin for Plain {
    fn ser_bin(&self, alloc: Global, output: &mut Vec<u8>) -> Result<(), AllocError> {
        self.0.ser_bin(alloc, output)
    }
}

impl DeBin for Plain {
    ghost is_decodable = { refl };

    fn de_bin(alloc: Global, offset: &mut usize, bytes: &[u8]) -> Result<Plain, DeBinErr> {
        match i32::de_bin(alloc, offset, bytes) {
            Ok(number) => Ok(Plain(number)),
            Err(error) => Err(error),
        }
    }
}

// ---- JSON

impl JsonCodec for Plain {
    ghost json = { json_as (λ p. p.0) ⟦<i32 as JsonCodec>⟧.json };

    ghost agrees = { agreed };
}

impl SerJson for Plain {
    fn ser_json(&self, alloc: Global, d: usize, s: &mut SerJsonState) -> Result<(), AllocError> {
        self.0.ser_json(alloc, d, s)
    }
}

impl DeJson for Plain {
    fn de_json(
        alloc: Global,
        state: &mut DeJsonState,
        input: &mut Chars<'_>,
    ) -> Result<Plain, DeJsonErr> {
        match i32::de_json(alloc, state, input) {
            Ok(read) => Ok(Plain(read)),
            Err(error) => Err(error),
        }
    }
}

// ---- RON

impl RonCodec for Plain {
    ghost ron = { ron_as (λ p. p.0) ⟦<i32 as RonCodec>⟧.ron };

    ghost agrees = { agreed };
}

impl SerRon for Plain {
    fn ser_ron(&self, alloc: Global, d: usize, s: &mut SerRonState) -> Result<(), AllocError> {
        self.0.ser_ron(alloc, d, s)
    }
}

impl DeRon for Plain {
    fn de_ron(
        alloc: Global,
        state: &mut DeRonState,
        input: &mut Chars<'_>,
    ) -> Result<Plain, DeRonErr> {
        match i32::de_ron(alloc, state, input) {
            Ok(read) => Ok(Plain(read)),
            Err(error) => Err(error),
        }
    }
}
