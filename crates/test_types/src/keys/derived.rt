//! Written by derive_files: how the types of the module above are encoded.

ghost use Rattle.nano_bin_schema.specs.Structs.{codec_as as bin_as, bin_of};
ghost use Rattle.nano_schema.specs.UserTypes.{agreed, exact_unsigned, ordered_unsigned, exact_text};
ghost use Rattle.nano_schema.specs.UserTypes.{ordered_text, LegalVariant, variants, IsPlaced};
ghost use Rattle.nano_schema.specs.UserTypes.{variants_tell, variants_follow, placed, exact_by};
ghost use Rattle.nano_schema.specs.UserTypes.{ordered_by, exact_pair, ordered_pair};
ghost use Rattle.std.specs.Prelude.{refl, codes, ◌==◌, if◌then◌else◌, ◌∷◌, []};
ghost use Rattle.nano_json_schema.specs.Structs.{codec_as as json_as};
ghost use Rattle.nano_ron_schema.specs.Structs.{codec_as as ron_as};
ghost use Rattle.nano_schema.specs.declared.choices.Either.TheVariants.{First, Later};
ghost use Rattle.nano_bin_schema.specs.Enums.{bin_choice};
ghost use Rattle.nano_json_schema.specs.Enums.{json_choice};
ghost use Rattle.nano_ron_schema.specs.Enums.{ron_choice};

use super::*;
use nano_bin_schema::{BinCodec, BinShape, BinShapes, DeBin, DeBinErr, SerBin};
use nano_json_schema::{
    DeJson, DeJsonState, JsonCodec, JsonResult, JsonShapes, SerJson, SerJsonState,
};
use nano_ron_schema::{DeRon, DeRonState, RonCodec, RonResult, RonShapes, SerRon, SerRonState};
use nano_schema::{
    Borrowed, BorrowedChoices, Choices, Either, EnumSchema, FieldRefs, Key, Label, OrderedKey,
    Shape, StructSchema, Tuple, Unit, Value, Variant, VariantRefs,
};
use std::alloc::{AllocError, Global};
use std::str::Chars;

type UserIdFields = u64;

impl Value for UserId {
    ghost means = { λ x. ⟦<UserIdFields as Value>⟧.means x.0 };

    ghost legal = { ⟦<UserIdFields as Value>⟧.legal };

    fn known(&self) {
        Value::known(&self.0);
    }
}

impl BinCodec for UserId {
    ghost bin = { bin_as (λ x. x.0) ⟦<UserIdFields as BinCodec>⟧.bin };

    ghost agrees = { agreed };
}

impl SerBin for UserId {
    fn ser_bin(&self, alloc: Global, output: &mut Vec<u8>) -> Result<(), AllocError> {
        SerBin::ser_bin(&self.0, alloc, output)
    }
}

impl DeBin for UserId {
    ghost is_decodable = { refl };

    fn de_bin(alloc: Global, offset: &mut usize, bytes: &[u8]) -> Result<Self, DeBinErr> {
        match <UserIdFields as DeBin>::de_bin(alloc, offset, bytes) {
            Ok(value) => Ok(UserId(value)),
            Err(error) => Err(error),
        }
    }
}

impl JsonCodec for UserId {
    ghost json = { json_as (λ x. x.0) ⟦<UserIdFields as JsonCodec>⟧.json };

    ghost agrees = { agreed };
}

impl SerJson for UserId {
    fn ser_json(&self, alloc: Global, d: usize, s: &mut SerJsonState) -> Result<(), AllocError> {
        SerJson::ser_json(&self.0, alloc, d, s)
    }
}

impl DeJson for UserId {
    fn de_json(alloc: Global, state: &mut DeJsonState, input: &mut Chars<'_>) -> JsonResult<Self> {
        match <UserIdFields as DeJson>::de_json(alloc, state, input) {
            Ok(value) => Ok(UserId(value)),
            Err(error) => Err(error),
        }
    }
}

impl RonCodec for UserId {
    ghost ron = { ron_as (λ x. x.0) ⟦<UserIdFields as RonCodec>⟧.ron };

    ghost agrees = { agreed };
}

impl SerRon for UserId {
    fn ser_ron(&self, alloc: Global, d: usize, s: &mut SerRonState) -> Result<(), AllocError> {
        SerRon::ser_ron(&self.0, alloc, d, s)
    }
}

impl DeRon for UserId {
    fn de_ron(alloc: Global, state: &mut DeRonState, input: &mut Chars<'_>) -> RonResult<Self> {
        match <UserIdFields as DeRon>::de_ron(alloc, state, input) {
            Ok(value) => Ok(UserId(value)),
            Err(error) => Err(error),
        }
    }
}

// ---- a key

impl Key for UserId {
    ghost order = { ⟦<UserIdFields as Key>⟧.order };

    ghost exact = { λ x y. exact_unsigned.exact x.0 y.0 };
}

impl OrderedKey for UserId {
    ghost follows = { λ x y. ordered_unsigned.follows x.0 y.0 };
}

type HallNameFields = String;

impl Value for HallName {
    ghost means = { λ x. ⟦<HallNameFields as Value>⟧.means x.0 };

    ghost legal = { ⟦<HallNameFields as Value>⟧.legal };

    fn known(&self) {
        Value::known(&self.0);
    }
}

impl BinCodec for HallName {
    ghost bin = { bin_as (λ x. x.0) ⟦<HallNameFields as BinCodec>⟧.bin };

    ghost agrees = { agreed };
}

impl SerBin for HallName {
    fn ser_bin(&self, alloc: Global, output: &mut Vec<u8>) -> Result<(), AllocError> {
        SerBin::ser_bin(&self.0, alloc, output)
    }
}

impl DeBin for HallName {
    ghost is_decodable = { refl };

    fn de_bin(alloc: Global, offset: &mut usize, bytes: &[u8]) -> Result<Self, DeBinErr> {
        match <HallNameFields as DeBin>::de_bin(alloc, offset, bytes) {
            Ok(value) => Ok(HallName(value)),
            Err(error) => Err(error),
        }
    }
}

impl JsonCodec for HallName {
    ghost json = { json_as (λ x. x.0) ⟦<HallNameFields as JsonCodec>⟧.json };

    ghost agrees = { agreed };
}

impl SerJson for HallName {
    fn ser_json(&self, alloc: Global, d: usize, s: &mut SerJsonState) -> Result<(), AllocError> {
        SerJson::ser_json(&self.0, alloc, d, s)
    }
}

impl DeJson for HallName {
    fn de_json(alloc: Global, state: &mut DeJsonState, input: &mut Chars<'_>) -> JsonResult<Self> {
        match <HallNameFields as DeJson>::de_json(alloc, state, input) {
            Ok(value) => Ok(HallName(value)),
            Err(error) => Err(error),
        }
    }
}

impl RonCodec for HallName {
    ghost ron = { ron_as (λ x. x.0) ⟦<HallNameFields as RonCodec>⟧.ron };

    ghost agrees = { agreed };
}

impl SerRon for HallName {
    fn ser_ron(&self, alloc: Global, d: usize, s: &mut SerRonState) -> Result<(), AllocError> {
        SerRon::ser_ron(&self.0, alloc, d, s)
    }
}

impl DeRon for HallName {
    fn de_ron(alloc: Global, state: &mut DeRonState, input: &mut Chars<'_>) -> RonResult<Self> {
        match <HallNameFields as DeRon>::de_ron(alloc, state, input) {
            Ok(value) => Ok(HallName(value)),
            Err(error) => Err(error),
        }
    }
}

// ---- a key

impl Key for HallName {
    ghost order = { ⟦<HallNameFields as Key>⟧.order };

    ghost exact = { λ x y. exact_text.exact x.0 y.0 };
}

impl OrderedKey for HallName {
    ghost follows = { λ x y. ordered_text.follows x.0 y.0 };
}

pub struct RoleNames<const I: usize> {}

impl<const I: usize> Label for RoleNames<I> {
    ghost label = { if I == 0 then codes "Guest" else if I == 1 then codes "Member"
        else if I == 2 then codes "Moderator" else codes "Owner" };

    fn text() -> &'static str {
        nano_schema::name_of!(I, 0 => "Guest", 1 => "Member", 2 => "Moderator", _ => "Owner")
    }
}

type RoleVariants4 = Variant<RoleNames<3>, Unit>;

type RoleVariants3 = (Variant<RoleNames<2>, Unit>, RoleVariants4);

type RoleVariants2 = (Variant<RoleNames<1>, Unit>, RoleVariants3);

type RoleVariants = (Variant<RoleNames<0>, Unit>, RoleVariants2);

type RoleValues4 = ();

type RoleValues3 = Either<(), RoleValues4>;

type RoleValues2 = Either<(), RoleValues3>;

type RoleValues = Either<(), RoleValues2>;

type RoleRefs4<'a> = ();

type RoleRefs3<'a> = Either<(), RoleRefs4<'a>>;

type RoleRefs2<'a> = Either<(), RoleRefs3<'a>>;

type RoleRefs<'a> = Either<(), RoleRefs2<'a>>;

impl EnumSchema for Role {
    ghost use Rattle.test_types.specs.declared.keys.Role.TheVariants.{Guest, Member, Moderator};
    ghost use Rattle.test_types.specs.declared.keys.Role.TheVariants.{Owner};

    type Values = RoleValues;

    ghost view = { λ x. elim x [
      | Guest ↦ First tt
      | Member ↦ Later (First tt)
      | Moderator ↦ Later (Later (First tt))
      | Owner ↦ Later (Later (Later tt))
    ] };

    fn make(values: Self::Values) -> Self {
        let later = match values {
            Either::First(values) => {
                let () = values;
                return Self::Guest;
            }
            Either::Later(later) => later,
        };
        let later = match later {
            Either::First(values) => {
                let () = values;
                return Self::Member;
            }
            Either::Later(later) => later,
        };
        let later = match later {
            Either::First(values) => {
                let () = values;
                return Self::Moderator;
            }
            Either::Later(later) => later,
        };
        let () = later;
        Self::Owner
    }
}

impl<'a> VariantRefs<'a> for Role {
    type Refs = RoleRefs<'a>;

    ghost values = { ⟦<RoleVariants as BorrowedChoices<'a>>⟧.values };

    fn as_refs(&'a self) -> Self::Refs {
        match self {
            Self::Guest => {
                let refs = ();
                Either::First(refs)
            }
            Self::Member => {
                let refs = ();
                Either::Later(Either::First(refs))
            }
            Self::Moderator => {
                let refs = ();
                Either::Later(Either::Later(Either::First(refs)))
            }
            Self::Owner => {
                let refs = ();
                Either::Later(Either::Later(Either::Later(refs)))
            }
        }
    }
}

impl Value for Role {
    ghost means = { λ x. ⟦<RoleVariants as Choices>⟧.means 0 (⟦<Role as EnumSchema>⟧.view x) };

    ghost legal = { LegalVariant ⟦<RoleVariants as Choices>⟧.legals };

    fn known(&self) {
        nano_schema::known_variant::<Self, RoleVariants>(self);
    }
}

impl BinCodec for Role {
    ghost bin = { bin_choice ⟦<Role as EnumSchema>⟧.view ⟦<RoleVariants as BinShapes>⟧.chosen
        refl };

    ghost agrees = { agreed };
}

impl SerBin for Role {
    fn ser_bin(&self, alloc: Global, output: &mut Vec<u8>) -> Result<(), AllocError> {
        nano_bin_schema::write_choice_bin::<Self, RoleVariants>(self, alloc, output)
    }
}

impl DeBin for Role {
    ghost is_decodable = { refl };

    fn de_bin(alloc: Global, offset: &mut usize, bytes: &[u8]) -> Result<Self, DeBinErr> {
        nano_bin_schema::read_choice_bin::<Self, RoleVariants>(alloc, offset, bytes)
    }
}

impl JsonCodec for Role {
    ghost json = { json_choice ⟦<Role as EnumSchema>⟧.view ⟦<RoleVariants as JsonShapes>⟧.codec
        refl refl refl };

    ghost agrees = { agreed };
}

impl SerJson for Role {
    fn ser_json(&self, alloc: Global, d: usize, s: &mut SerJsonState) -> Result<(), AllocError> {
        nano_json_schema::write_choice_json::<Self, RoleVariants>(self, alloc, d, s)
    }
}

impl DeJson for Role {
    fn de_json(alloc: Global, state: &mut DeJsonState, input: &mut Chars<'_>) -> JsonResult<Self> {
        nano_json_schema::read_choice_json::<Self, RoleVariants>(alloc, state, input)
    }
}

impl RonCodec for Role {
    ghost ron = { ron_choice ⟦<Role as EnumSchema>⟧.view ⟦<RoleVariants as RonShapes>⟧.codec refl
        refl refl };

    ghost agrees = { agreed };
}

impl SerRon for Role {
    fn ser_ron(&self, alloc: Global, d: usize, s: &mut SerRonState) -> Result<(), AllocError> {
        nano_ron_schema::write_choice_ron::<Self, RoleVariants>(self, alloc, d, s)
    }
}

impl DeRon for Role {
    fn de_ron(alloc: Global, state: &mut DeRonState, input: &mut Chars<'_>) -> RonResult<Self> {
        nano_ron_schema::read_choice_ron::<Self, RoleVariants>(alloc, state, input)
    }
}

// ---- a key

impl Key for Role {
    ghost use Rattle.test_types.specs.declared.keys.Role.TheVariants.{Guest as Role_Guest};
    ghost use Rattle.test_types.specs.declared.keys.Role.TheVariants.{Member as Role_Member};
    ghost use Rattle.test_types.specs.declared.keys.Role.TheVariants.{Moderator as Role_Moderator};
    ghost use Rattle.test_types.specs.declared.keys.Role.TheVariants.{Owner as Role_Owner};

    ghost order = { variants };

    ghost exact = { variants_tell (λ x. elim x as (IsPlaced ⟦<Role as Value>⟧.means (Role_Guest ∷
        Role_Member ∷ Role_Moderator ∷ Role_Owner ∷ [])) [
          | Role_Guest ↦ placed refl
          | Role_Member ↦ placed refl
          | Role_Moderator ↦ placed refl
          | Role_Owner ↦ placed refl
        ]) ⟦<Role as PartialEq>⟧.eq refl };
}

impl OrderedKey for Role {
    ghost use Rattle.test_types.specs.declared.keys.Role.TheVariants.{Guest as Role_Guest};
    ghost use Rattle.test_types.specs.declared.keys.Role.TheVariants.{Member as Role_Member};
    ghost use Rattle.test_types.specs.declared.keys.Role.TheVariants.{Moderator as Role_Moderator};
    ghost use Rattle.test_types.specs.declared.keys.Role.TheVariants.{Owner as Role_Owner};

    ghost follows = { variants_follow (λ x. elim x as (IsPlaced ⟦<Role as Value>⟧.means
        (Role_Guest ∷ Role_Member ∷ Role_Moderator ∷ Role_Owner ∷ [])) [
          | Role_Guest ↦ placed refl
          | Role_Member ↦ placed refl
          | Role_Moderator ↦ placed refl
          | Role_Owner ↦ placed refl
        ]) ⟦<Role as Ord>⟧.cmp refl };
}

type SeatValues = (HallName, u16);

type SeatFields = Tuple<SeatValues>;

impl StructSchema for Seat {
    type Values = SeatValues;

    ghost view = { λ x. (x.0, x.1) };

    fn make(values: Self::Values) -> Self {
        let (first, second) = values;
        Seat(first, second)
    }
}

impl<'a> FieldRefs<'a> for Seat {
    type Refs = <SeatFields as Borrowed<'a>>::Refs;

    ghost values = { ⟦<SeatFields as Borrowed<'a>>⟧.values };

    fn as_refs(&'a self) -> Self::Refs {
        (&self.0, &self.1)
    }
}

impl Value for Seat {
    ghost means = { λ x. ⟦<SeatFields as Shape>⟧.means (⟦<Seat as StructSchema>⟧.view x) };

    ghost legal = { ⟦<SeatFields as Shape>⟧.legal };

    fn known(&self) {
        nano_schema::known_record::<Self, SeatFields>(self);
    }
}

impl BinCodec for Seat {
    ghost bin = { bin_of ⟦<Seat as StructSchema>⟧.view ⟦<SeatFields as BinShape>⟧.codec };

    ghost agrees = { agreed };
}

impl SerBin for Seat {
    fn ser_bin(&self, alloc: Global, output: &mut Vec<u8>) -> Result<(), AllocError> {
        nano_bin_schema::write_record_bin::<Self, SeatFields>(self, alloc, output)
    }
}

impl DeBin for Seat {
    ghost is_decodable = { refl };

    fn de_bin(alloc: Global, offset: &mut usize, bytes: &[u8]) -> Result<Self, DeBinErr> {
        nano_bin_schema::read_record_bin::<Self, SeatFields>(alloc, offset, bytes)
    }
}

impl JsonCodec for Seat {
    ghost json = { json_as ⟦<Seat as StructSchema>⟧.view ⟦<SeatValues as JsonCodec>⟧.json };

    ghost agrees = { agreed };
}

impl SerJson for Seat {
    fn ser_json(&self, alloc: Global, d: usize, s: &mut SerJsonState) -> Result<(), AllocError> {
        let parts = (
            nano_json_schema::Part { of: &self.0 },
            nano_json_schema::Part { of: &self.1 },
        );
        SerJson::ser_json(&parts, alloc, d, s)
    }
}

impl DeJson for Seat {
    fn de_json(alloc: Global, state: &mut DeJsonState, input: &mut Chars<'_>) -> JsonResult<Self> {
        nano_json_schema::read_parts_json::<Self, SeatValues>(alloc, state, input)
    }
}

impl RonCodec for Seat {
    ghost ron = { ron_as ⟦<Seat as StructSchema>⟧.view ⟦<SeatValues as RonCodec>⟧.ron };

    ghost agrees = { agreed };
}

impl SerRon for Seat {
    fn ser_ron(&self, alloc: Global, d: usize, s: &mut SerRonState) -> Result<(), AllocError> {
        let parts = (
            nano_ron_schema::Part { of: &self.0 },
            nano_ron_schema::Part { of: &self.1 },
        );
        SerRon::ser_ron(&parts, alloc, d, s)
    }
}

impl DeRon for Seat {
    fn de_ron(alloc: Global, state: &mut DeRonState, input: &mut Chars<'_>) -> RonResult<Self> {
        nano_ron_schema::read_parts_ron::<Self, SeatValues>(alloc, state, input)
    }
}

// ---- a key

impl Key for Seat {
    ghost order = { ⟦<SeatValues as Key>⟧.order };

    ghost exact = { λ x y. (exact_pair (exact_by ⟦<HallName as PartialEq>⟧.eq
        ⟦<HallName as Value>⟧.means (λ x y. exact_text.exact x.0 y.0)) exact_unsigned).exact
        (x.0, x.1) (y.0, y.1) };
}

impl OrderedKey for Seat {
    ghost follows = { λ x y. (ordered_pair (ordered_by ⟦<HallName as Ord>⟧.cmp
        ⟦<HallName as Value>⟧.means ⟦<HallName as Key>⟧.order (λ x y. ordered_text.follows x.0
        y.0)) ordered_unsigned).follows (x.0, x.1) (y.0, y.1) };
}
