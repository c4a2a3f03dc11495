//! Written by derive_files: how the types of the module above are encoded.

ghost use Rattle.std.specs.Prelude.{codes, ◌==◌, if◌then◌else◌, refl};
ghost use Rattle.nano_schema.specs.declared.choices.Either.TheVariants.{First, Later};
ghost use Rattle.nano_schema.specs.UserTypes.{LegalVariant, agreed, seen_agrees, pair_agrees};
ghost use Rattle.nano_schema.specs.UserTypes.{option_agrees, list_agrees, last_agrees, next_agrees};
ghost use Rattle.nano_schema.specs.UserTypes.{choice_agrees};
ghost use Rattle.nano_bin_schema.specs.Enums.{bin_choice};
ghost use Rattle.nano_bin_schema.specs.Structs.{both_are_read};

use super::*;
use nano_bin_schema::{BinCodec, BinShapes, DeBin, DeBinErr, SerBin};
use nano_schema::{
    BorrowedChoices, Choices, Either, EnumSchema, Label, Newtype, Optional, Required, Struct,
    Tuple, Unit, Value, Variant, VariantRefs,
};
use std::alloc::{AllocError, Global};

pub struct GuessNames<const I: usize> {}

impl<const I: usize> Label for GuessNames<I> {
    ghost label = { if I == 0 then codes "Nothing" else if I == 1 then codes "Is"
        else if I == 2 then codes "OneOf" else if I == 3 then codes "Likely"
        else if I == 4 then codes "Between" else if I == 5 then codes "Was"
        else if I == 6 then codes "AtLeast" else codes "Neither" };

    fn text() -> &'static str {
        nano_schema::name_of!(I, 0 => "Nothing", 1 => "Is", 2 => "OneOf", 3 => "Likely",
            4 => "Between", 5 => "Was", 6 => "AtLeast", _ => "Neither")
    }
}

type GuessIsParts<T> = T;

type GuessOneOfParts<T> = Vec<T>;

type GuessLikelyParts<T> = (T, u8);

pub struct GuessBetweenNames<const I: usize> {}

impl<const I: usize> Label for GuessBetweenNames<I> {
    ghost label = { if I == 0 then codes "least" else codes "most" };

    fn text() -> &'static str {
        nano_schema::name_of!(I, 0 => "least", _ => "most")
    }
}

type GuessBetweenParts<T> = (
    Required<GuessBetweenNames<0>, T>,
    Optional<GuessBetweenNames<1>, T>,
);

type GuessWasParts<T> = Option<T>;

type GuessAtLeastParts<T> = Box<T>;

type GuessNeitherParts<T> = (u8, T, T);

type GuessVariants8<T> = Variant<GuessNames<7>, Tuple<GuessNeitherParts<T>>>;

type GuessVariants7<T> = (
    Variant<GuessNames<6>, Newtype<GuessAtLeastParts<T>>>,
    GuessVariants8<T>,
);

type GuessVariants6<T> = (
    Variant<GuessNames<5>, Newtype<GuessWasParts<T>>>,
    GuessVariants7<T>,
);

type GuessVariants5<T> = (
    Variant<GuessNames<4>, Struct<GuessBetweenParts<T>>>,
    GuessVariants6<T>,
);

type GuessVariants4<T> = (
    Variant<GuessNames<3>, Tuple<GuessLikelyParts<T>>>,
    GuessVariants5<T>,
);

type GuessVariants3<T> = (
    Variant<GuessNames<2>, Newtype<GuessOneOfParts<T>>>,
    GuessVariants4<T>,
);

type GuessVariants2<T> = (
    Variant<GuessNames<1>, Newtype<GuessIsParts<T>>>,
    GuessVariants3<T>,
);

type GuessVariants<T> = (Variant<GuessNames<0>, Unit>, GuessVariants2<T>);

type GuessValues8<T> = (u8, T, T);

type GuessValues7<T> = Either<Box<T>, GuessValues8<T>>;

type GuessValues6<T> = Either<Option<T>, GuessValues7<T>>;

type GuessValues5<T> = Either<(T, Option<T>), GuessValues6<T>>;

type GuessValues4<T> = Either<(T, u8), GuessValues5<T>>;

type GuessValues3<T> = Either<Vec<T>, GuessValues4<T>>;

type GuessValues2<T> = Either<T, GuessValues3<T>>;

type GuessValues<T> = Either<(), GuessValues2<T>>;

type GuessRefs8<'a, T> = (&'a u8, &'a T, &'a T);

type GuessRefs7<'a, T> = Either<&'a Box<T>, GuessRefs8<'a, T>>;

type GuessRefs6<'a, T> = Either<&'a Option<T>, GuessRefs7<'a, T>>;

type GuessRefs5<'a, T> = Either<(&'a T, &'a Option<T>), GuessRefs6<'a, T>>;

type GuessRefs4<'a, T> = Either<(&'a T, &'a u8), GuessRefs5<'a, T>>;

type GuessRefs3<'a, T> = Either<&'a Vec<T>, GuessRefs4<'a, T>>;

type GuessRefs2<'a, T> = Either<&'a T, GuessRefs3<'a, T>>;

type GuessRefs<'a, T> = Either<(), GuessRefs2<'a, T>>;

impl<T: Value> EnumSchema for Guess<T> {
    ghost use Rattle.test_types.specs.declared.guess.Guess.TheVariants.{Nothing, Is, OneOf, Likely};
    ghost use Rattle.test_types.specs.declared.guess.Guess.TheVariants.{Between, Was, AtLeast};
    ghost use Rattle.test_types.specs.declared.guess.Guess.TheVariants.{Neither};

    type Values = GuessValues<T>;

    ghost view = { λ x. elim x [
      | Nothing ↦ First tt
      | Is v0 ↦ Later (First v0)
      | OneOf v0 ↦ Later (Later (First v0))
      | Likely v0 v1 ↦ Later (Later (Later (First (v0, v1))))
      | Between v0 v1 ↦ Later (Later (Later (Later (First (v0, v1)))))
      | Was v0 ↦ Later (Later (Later (Later (Later (First v0)))))
      | AtLeast v0 ↦ Later (Later (Later (Later (Later (Later (First v0))))))
      | Neither v0 v1 v2 ↦ Later (Later (Later (Later (Later (Later (Later (v0, v1, v2)))))))
    ] };

    fn make(values: Self::Values) -> Self {
        let later = match values {
            Either::First(values) => {
                let () = values;
                return Self::Nothing;
            }
            Either::Later(later) => later,
        };
        let later = match later {
            Either::First(values) => {
                let first = values;
                return Self::Is(first);
            }
            Either::Later(later) => later,
        };
        let later = match later {
            Either::First(values) => {
                let first = values;
                return Self::OneOf(first);
            }
            Either::Later(later) => later,
        };
        let later = match later {
            Either::First(values) => {
                let (first, second) = values;
                return Self::Likely(first, second);
            }
            Either::Later(later) => later,
        };
        let later = match later {
            Either::First(values) => {
                let (least, most) = values;
                return Self::Between { least, most };
            }
            Either::Later(later) => later,
        };
        let later = match later {
            Either::First(values) => {
                let first = values;
                return Self::Was(first);
            }
            Either::Later(later) => later,
        };
        let later = match later {
            Either::First(values) => {
                let first = values;
                return Self::AtLeast(first);
            }
            Either::Later(later) => later,
        };
        let (first, second, third) = later;
        Self::Neither(first, second, third)
    }
}

impl<'a, T: Value + 'a> VariantRefs<'a> for Guess<T> {
    type Refs = GuessRefs<'a, T>;

    ghost values = { ⟦<GuessVariants<T> as BorrowedChoices<'a>>⟧.values };

    fn as_refs(&'a self) -> Self::Refs {
        match self {
            Self::Nothing => {
                let refs = ();
                Either::First(refs)
            }
            Self::Is(first) => {
                let refs = first;
                Either::Later(Either::First(refs))
            }
            Self::OneOf(first) => {
                let refs = first;
                Either::Later(Either::Later(Either::First(refs)))
            }
            Self::Likely(first, second) => {
                let refs = (first, second);
                Either::Later(Either::Later(Either::Later(Either::First(refs))))
            }
            Self::Between { least, most } => {
                let refs = (least, most);
                let refs = Either::Later(Either::Later(Either::Later(Either::First(refs))));
                Either::Later(refs)
            }
            Self::Was(first) => {
                let refs = first;
                let refs = Either::Later(Either::Later(Either::Later(Either::First(refs))));
                Either::Later(Either::Later(refs))
            }
            Self::AtLeast(first) => {
                let refs = first;
                let refs = Either::Later(Either::Later(Either::Later(Either::First(refs))));
                Either::Later(Either::Later(Either::Later(refs)))
            }
            Self::Neither(first, second, third) => {
                let refs = (first, second, third);
                let refs = Either::Later(Either::Later(Either::Later(Either::Later(refs))));
                Either::Later(Either::Later(Either::Later(refs)))
            }
        }
    }
}

impl<T: Value> Value for Guess<T> {
    ghost means = { λ x. ⟦<GuessVariants<T> as Choices>⟧.means 0 (⟦<Guess<T> as EnumSchema>⟧.view
        x) };

    ghost legal = { LegalVariant ⟦<GuessVariants<T> as Choices>⟧.legals };

    fn known(&self) {
        nano_schema::known_variant::<Self, GuessVariants<T>>(self);
    }
}

impl<T: BinCodec> BinCodec for Guess<T> {
    ghost bin = { bin_choice ⟦<Guess<T> as EnumSchema>⟧.view
        ⟦<GuessVariants<T> as BinShapes>⟧.chosen refl };

    ghost agrees = { choice_agrees (next_agrees (agreed {means = ⟦<() as Value>⟧.means} {legal =
        ⟦<() as Value>⟧.legal}) (next_agrees T.agrees (next_agrees (seen_agrees (list_agrees
        T.agrees) (λ x. x.items)) (next_agrees (seen_agrees (pair_agrees T.agrees (agreed {means
        = ⟦<u8 as Value>⟧.means} {legal = ⟦<u8 as Value>⟧.legal})) (λ x. (x.0, x.1)))
        (next_agrees (pair_agrees T.agrees (option_agrees T.agrees)) (next_agrees (option_agrees
        T.agrees) (next_agrees (seen_agrees T.agrees (λ x. x.value)) (last_agrees (seen_agrees
        (pair_agrees (agreed {means = ⟦<u8 as Value>⟧.means} {legal = ⟦<u8 as Value>⟧.legal})
        (pair_agrees T.agrees T.agrees)) (λ x. (x.0, (x.1, x.2))))))))))))
        ⟦<Guess<T> as EnumSchema>⟧.view };
}

impl<T: SerBin> SerBin for Guess<T> {
    fn ser_bin(&self, alloc: Global, output: &mut Vec<u8>) -> Result<(), AllocError> {
        nano_bin_schema::write_choice_bin::<Self, GuessVariants<T>>(self, alloc, output)
    }
}

impl<T: DeBin> DeBin for Guess<T> {
    ghost is_decodable = { (both_are_read refl (both_are_read T.is_decodable (both_are_read
        T.is_decodable (both_are_read (both_are_read T.is_decodable refl) (both_are_read
        (both_are_read T.is_decodable T.is_decodable) (both_are_read T.is_decodable
        (both_are_read T.is_decodable (both_are_read (both_are_read refl (both_are_read
        T.is_decodable T.is_decodable)) refl)))))))) };

    fn de_bin(alloc: Global, offset: &mut usize, bytes: &[u8]) -> Result<Self, DeBinErr> {
        nano_bin_schema::read_choice_bin::<Self, GuessVariants<T>>(alloc, offset, bytes)
    }
}
