//! A struct of one part that is no name's: in JSON between square brackets, in RON in parentheses,
//! as an array of one is.

ghost use Rattle.std.specs.Prelude.{[], ◌∷◌, refl};
ghost use Rattle.nano_meaning.proofs.AgreesLaws.{agreed};
ghost use Rattle.nano_bin.specs.BaseCodecs.{codec_as};
ghost use Rattle.nano_json.specs.Codec.{codec_as as json_as};
ghost use Rattle.nano_ron.specs.Codec.{codec_as as ron_as};

use nano_bin::{BinCodec, DeBin, DeBinErr, SerBin};
use nano_json::{DeJson, DeJsonErr, DeJsonState, JsonCodec, SerJson, SerJsonState};
use nano_ron::{DeRon, DeRonErr, DeRonState, RonCodec, SerRon, SerRonState};
use nano_value::Value;
use std::alloc::{AllocError, Global};
use std::str::Chars;

/// A number alone between brackets.
#[derive(PartialEq, Debug, Drop)]
pub struct Test(pub i32);

impl Value for Test {
    ghost means = { λ t. ⟦<[i32; 1] as Value>⟧.means (t.0 ∷ []) };

    ghost legal = { ⟦<[i32; 1] as Value>⟧.legal };

    fn known(&self) {
        [self.0].known();
    }
}

// ---- bytes

impl BinCodec for Test {
    ghost bin = { codec_as (λ t. t.0 ∷ []) ⟦<[i32; 1] as BinCodec>⟧.bin };

    ghost agrees = { agreed };
}

impl SerBin for Test {
    fn ser_bin(&self, alloc: Global, output: &mut Vec<u8>) -> Result<(), AllocError> {
        [self.0].ser_bin(alloc, output)
    }
}

impl DeBin for Test {
    ghost is_decodable = { refl };

    fn de_bin(alloc: Global, offset: &mut usize, bytes: &[u8]) -> Result<Test, DeBinErr> {
        match <[i32; 1]>::de_bin(alloc, offset, bytes) {
            Ok(parts) => Ok(Test(parts[0])),
            Err(error) => Err(error),
        }
    }
}

// ---- JSON

impl JsonCodec for Test {
    ghost json = { json_as (λ t. t.0 ∷ []) ⟦<[i32; 1] as JsonCodec>⟧.json };

    ghost agrees = { agreed };
}

impl SerJson for Test {
    fn ser_json(&self, alloc: Global, d: usize, s: &mut SerJsonState) -> Result<(), AllocError> {
        [self.0].ser_json(alloc, d, s)
    }
}

impl DeJson for Test {
    fn de_json(
        alloc: Global,
        state: &mut DeJsonState,
        input: &mut Chars<'_>,
    ) -> Result<Test, DeJsonErr> {
        match <[i32; 1]>::de_json(alloc, state, input) {
            Ok(parts) => Ok(Test(parts[0])),
            Err(error) => Err(error),
        }
    }
}

// ---- RON

impl RonCodec for Test {
    ghost ron = { ron_as (λ t. t.0 ∷ []) ⟦<[i32; 1] as RonCodec>⟧.ron };

    ghost agrees = { agreed };
}

impl SerRon for Test {
    fn ser_ron(&self, alloc: Global, d: usize, s: &mut SerRonState) -> Result<(), AllocError> {
        [self.0].ser_ron(alloc, d, s)
    }
}

impl DeRon for Test {
    fn de_ron(
        alloc: Global,
        state: &mut DeRonState,
        input: &mut Chars<'_>,
    ) -> Result<Test, DeRonErr> {
        match <[i32; 1]>::de_ron(alloc, state, input) {
            Ok(parts) => Ok(Test(parts[0])),
            Err(error) => Err(error),
        }
    }
}
