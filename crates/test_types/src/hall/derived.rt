//! Written by derive_files: how the types of the module above are encoded.

ghost use Rattle.nano_bin_schema.specs.Structs.{codec_as as bin_as, bin_of};
ghost use Rattle.nano_schema.specs.UserTypes.{agreed};
ghost use Rattle.std.specs.Prelude.{refl, codes, ◌==◌, if◌then◌else◌};
ghost use Rattle.nano_json_schema.specs.Structs.{codec_as as json_as, json_of};
ghost use Rattle.nano_ron_schema.specs.Structs.{codec_as as ron_as, ron_of};

use super::*;
use nano_bin_schema::{BinCodec, BinShape, DeBin, DeBinErr, SerBin};
use nano_json_schema::{
    DeJson, DeJsonState, JsonCodec, JsonResult, JsonShape, Place, SerJson, SerJsonState,
};
use nano_ron_schema::{DeRon, DeRonState, RonCodec, RonResult, RonShape, SerRon, SerRonState};
use nano_schema::{Borrowed, FieldRefs, Label, Required, Shape, StructSchema, Value};
use std::alloc::{AllocError, Global};
use std::str::Chars;

type VisitsFields = BTreeMap<UserId, u32>;

impl Value for Visits {
    ghost means = { λ x. ⟦<VisitsFields as Value>⟧.means x.0 };

    ghost legal = { ⟦<VisitsFields as Value>⟧.legal };

    fn known(&self) {
        Value::known(&self.0);
    }
}

impl BinCodec for Visits {
    ghost bin = { bin_as (λ x. x.0) ⟦<VisitsFields as BinCodec>⟧.bin };

    ghost agrees = { agreed };
}

impl SerBin for Visits {
    fn ser_bin(&self, alloc: Global, output: &mut Vec<u8>) -> Result<(), AllocError> {
        SerBin::ser_bin(&self.0, alloc, output)
    }
}

impl DeBin for Visits {
    ghost is_decodable = { refl };

    fn de_bin(alloc: Global, offset: &mut usize, bytes: &[u8]) -> Result<Self, DeBinErr> {
        match <VisitsFields as DeBin>::de_bin(alloc, offset, bytes) {
            Ok(value) => Ok(Visits(value)),
            Err(error) => Err(error),
        }
    }
}

impl JsonCodec for Visits {
    ghost json = { json_as (λ x. x.0) ⟦<VisitsFields as JsonCodec>⟧.json };

    ghost agrees = { agreed };
}

impl SerJson for Visits {
    fn ser_json(&self, alloc: Global, d: usize, s: &mut SerJsonState) -> Result<(), AllocError> {
        SerJson::ser_json(&self.0, alloc, d, s)
    }
}

impl DeJson for Visits {
    fn de_json(alloc: Global, state: &mut DeJsonState, input: &mut Chars<'_>) -> JsonResult<Self> {
        match <VisitsFields as DeJson>::de_json(alloc, state, input) {
            Ok(value) => Ok(Visits(value)),
            Err(error) => Err(error),
        }
    }
}

impl RonCodec for Visits {
    ghost ron = { ron_as (λ x. x.0) ⟦<VisitsFields as RonCodec>⟧.ron };

    ghost agrees = { agreed };
}

impl SerRon for Visits {
    fn ser_ron(&self, alloc: Global, d: usize, s: &mut SerRonState) -> Result<(), AllocError> {
        SerRon::ser_ron(&self.0, alloc, d, s)
    }
}

impl DeRon for Visits {
    fn de_ron(alloc: Global, state: &mut DeRonState, input: &mut Chars<'_>) -> RonResult<Self> {
        match <VisitsFields as DeRon>::de_ron(alloc, state, input) {
            Ok(value) => Ok(Visits(value)),
            Err(error) => Err(error),
        }
    }
}

type GreetingsFields = HashMap<Role, String>;

impl Value for Greetings {
    ghost means = { λ x. ⟦<GreetingsFields as Value>⟧.means x.0 };

    ghost legal = { ⟦<GreetingsFields as Value>⟧.legal };

    fn known(&self) {
        Value::known(&self.0);
    }
}

impl BinCodec for Greetings {
    ghost bin = { bin_as (λ x. x.0) ⟦<GreetingsFields as BinCodec>⟧.bin };

    ghost agrees = { agreed };
}

impl SerBin for Greetings {
    fn ser_bin(&self, alloc: Global, output: &mut Vec<u8>) -> Result<(), AllocError> {
        SerBin::ser_bin(&self.0, alloc, output)
    }
}

impl DeBin for Greetings {
    ghost is_decodable = { refl };

    fn de_bin(alloc: Global, offset: &mut usize, bytes: &[u8]) -> Result<Self, DeBinErr> {
        match <GreetingsFields as DeBin>::de_bin(alloc, offset, bytes) {
            Ok(value) => Ok(Greetings(value)),
            Err(error) => Err(error),
        }
    }
}

impl JsonCodec for Greetings {
    ghost json = { json_as (λ x. x.0) ⟦<GreetingsFields as JsonCodec>⟧.json };

    ghost agrees = { agreed };
}

impl SerJson for Greetings {
    fn ser_json(&self, alloc: Global, d: usize, s: &mut SerJsonState) -> Result<(), AllocError> {
        SerJson::ser_json(&self.0, alloc, d, s)
    }
}

impl DeJson for Greetings {
    fn de_json(alloc: Global, state: &mut DeJsonState, input: &mut Chars<'_>) -> JsonResult<Self> {
        match <GreetingsFields as DeJson>::de_json(alloc, state, input) {
            Ok(value) => Ok(Greetings(value)),
            Err(error) => Err(error),
        }
    }
}

impl RonCodec for Greetings {
    ghost ron = { ron_as (λ x. x.0) ⟦<GreetingsFields as RonCodec>⟧.ron };

    ghost agrees = { agreed };
}

impl SerRon for Greetings {
    fn ser_ron(&self, alloc: Global, d: usize, s: &mut SerRonState) -> Result<(), AllocError> {
        SerRon::ser_ron(&self.0, alloc, d, s)
    }
}

impl DeRon for Greetings {
    fn de_ron(alloc: Global, state: &mut DeRonState, input: &mut Chars<'_>) -> RonResult<Self> {
        match <GreetingsFields as DeRon>::de_ron(alloc, state, input) {
            Ok(value) => Ok(Greetings(value)),
            Err(error) => Err(error),
        }
    }
}

type SeatsFields = BTreeSet<Seat>;

impl Value for Seats {
    ghost means = { λ x. ⟦<SeatsFields as Value>⟧.means x.0 };

    ghost legal = { ⟦<SeatsFields as Value>⟧.legal };

    fn known(&self) {
        Value::known(&self.0);
    }
}

impl BinCodec for Seats {
    ghost bin = { bin_as (λ x. x.0) ⟦<SeatsFields as BinCodec>⟧.bin };

    ghost agrees = { agreed };
}

impl SerBin for Seats {
    fn ser_bin(&self, alloc: Global, output: &mut Vec<u8>) -> Result<(), AllocError> {
        SerBin::ser_bin(&self.0, alloc, output)
    }
}

impl DeBin for Seats {
    ghost is_decodable = { refl };

    fn de_bin(alloc: Global, offset: &mut usize, bytes: &[u8]) -> Result<Self, DeBinErr> {
        match <SeatsFields as DeBin>::de_bin(alloc, offset, bytes) {
            Ok(value) => Ok(Seats(value)),
            Err(error) => Err(error),
        }
    }
}

impl JsonCodec for Seats {
    ghost json = { json_as (λ x. x.0) ⟦<SeatsFields as JsonCodec>⟧.json };

    ghost agrees = { agreed };
}

impl SerJson for Seats {
    fn ser_json(&self, alloc: Global, d: usize, s: &mut SerJsonState) -> Result<(), AllocError> {
        SerJson::ser_json(&self.0, alloc, d, s)
    }
}

impl DeJson for Seats {
    fn de_json(alloc: Global, state: &mut DeJsonState, input: &mut Chars<'_>) -> JsonResult<Self> {
        match <SeatsFields as DeJson>::de_json(alloc, state, input) {
            Ok(value) => Ok(Seats(value)),
            Err(error) => Err(error),
        }
    }
}

impl RonCodec for Seats {
    ghost ron = { ron_as (λ x. x.0) ⟦<SeatsFields as RonCodec>⟧.ron };

    ghost agrees = { agreed };
}

impl SerRon for Seats {
    fn ser_ron(&self, alloc: Global, d: usize, s: &mut SerRonState) -> Result<(), AllocError> {
        SerRon::ser_ron(&self.0, alloc, d, s)
    }
}

impl DeRon for Seats {
    fn de_ron(alloc: Global, state: &mut DeRonState, input: &mut Chars<'_>) -> RonResult<Self> {
        match <SeatsFields as DeRon>::de_ron(alloc, state, input) {
            Ok(value) => Ok(Seats(value)),
            Err(error) => Err(error),
        }
    }
}

pub struct HallNames<const I: usize> {}

impl<const I: usize> Label for HallNames<I> {
    ghost label = { if I == 0 then codes "visits" else if I == 1 then codes "greetings"
        else codes "taken" };

    fn text() -> &'static str {
        nano_schema::name_of!(I, 0 => "visits", 1 => "greetings", _ => "taken")
    }
}

type HallFields = (
    Required<HallNames<0>, Visits>,
    (
        Required<HallNames<1>, Greetings>,
        Required<HallNames<2>, Seats>,
    ),
);

impl StructSchema for Hall {
    type Values = <HallFields as Shape>::Values;

    ghost view = { λ x. (x.visits, (x.greetings, x.taken)) };

    fn make(values: Self::Values) -> Self {
        let (visits, (greetings, taken)) = values;
        Hall {
            visits,
            greetings,
            taken,
        }
    }
}

impl<'a> FieldRefs<'a> for Hall {
    type Refs = <HallFields as Borrowed<'a>>::Refs;

    ghost values = { ⟦<HallFields as Borrowed<'a>>⟧.values };

    fn as_refs(&'a self) -> Self::Refs {
        (&self.visits, (&self.greetings, &self.taken))
    }
}

impl Value for Hall {
    ghost means = { λ x. ⟦<HallFields as Shape>⟧.means (⟦<Hall as StructSchema>⟧.view x) };

    ghost legal = { ⟦<HallFields as Shape>⟧.legal };

    fn known(&self) {
        nano_schema::known_record::<Self, HallFields>(self);
    }
}

impl BinCodec for Hall {
    ghost bin = { bin_of ⟦<Hall as StructSchema>⟧.view ⟦<HallFields as BinShape>⟧.codec };

    ghost agrees = { agreed };
}

impl SerBin for Hall {
    fn ser_bin(&self, alloc: Global, output: &mut Vec<u8>) -> Result<(), AllocError> {
        nano_bin_schema::write_record_bin::<Self, HallFields>(self, alloc, output)
    }
}

impl DeBin for Hall {
    ghost is_decodable = { refl };

    fn de_bin(alloc: Global, offset: &mut usize, bytes: &[u8]) -> Result<Self, DeBinErr> {
        nano_bin_schema::read_record_bin::<Self, HallFields>(alloc, offset, bytes)
    }
}

impl JsonCodec for Hall {
    ghost json = { json_of ⟦<Hall as StructSchema>⟧.view ⟦<HallFields as JsonShape>⟧.codec refl };

    ghost agrees = { agreed };
}

impl SerJson for Hall {
    fn ser_json(&self, alloc: Global, d: usize, s: &mut SerJsonState) -> Result<(), AllocError> {
        nano_json_schema::write_record_json::<Self, HallFields>(self, alloc, d, s)
    }
}

impl DeJson for Hall {
    fn de_json(alloc: Global, state: &mut DeJsonState, input: &mut Chars<'_>) -> JsonResult<Self> {
        nano_json_schema::read_record_json::<Self, HallFields>(alloc, state, input)
    }

    fn de_json_plain(
        alloc: Global,
        place: &mut Place,
        input: &mut Chars<'_>,
        text: &mut String,
    ) -> Option<Self> {
        nano_json_schema::take_record_json::<Self, HallFields>(alloc, place, input, text)
    }
}

impl RonCodec for Hall {
    ghost ron = { ron_of ⟦<Hall as StructSchema>⟧.view ⟦<HallFields as RonShape>⟧.codec refl };

    ghost agrees = { agreed };
}

impl SerRon for Hall {
    fn ser_ron(&self, alloc: Global, d: usize, s: &mut SerRonState) -> Result<(), AllocError> {
        nano_ron_schema::write_record_ron::<Self, HallFields>(self, alloc, d, s)
    }
}

impl DeRon for Hall {
    fn de_ron(alloc: Global, state: &mut DeRonState, input: &mut Chars<'_>) -> RonResult<Self> {
        nano_ron_schema::read_record_ron::<Self, HallFields>(alloc, state, input)
    }
}
