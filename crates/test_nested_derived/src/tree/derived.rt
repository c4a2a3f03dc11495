//! Written by derive_files: how the types of the module above are encoded.

ghost use Rattle.std.specs.Prelude.{codes, ◌==◌, if◌then◌else◌, refl};
ghost use Rattle.nano_schema.specs.UserTypes.{agreed};

use super::*;
use nano_bin_nested::{
    ReadsBin, WritesBin, append_variant, append_variant_within, no_memory, read_choice_within,
};
use nano_bin_schema::{BinCodec, DeBin, DeBinErr, SerBin};
use nano_json_nested::{
    NestedJson, ReadsJson, WritesJson, no_levels, read_choice_json_within, too_deep,
    write_variant_other, write_variant_within,
};
use nano_json_schema::{DeJson, DeJsonErr, DeJsonState, JsonCodec, SerJson, SerJsonState};
use nano_levels::{Levels, Other, Within};
use nano_ron_nested::{NestedRon, ReadsRon, WritesRon, read_choice_ron_within};
use nano_ron_schema::{DeRon, DeRonErr, DeRonState, RonCodec, SerRon, SerRonState};
use nano_schema::{Either, EnumSchema, Label, Newtype, Value, Variant};
use std::alloc::{AllocError, Global};
use std::str::Chars;

pub struct TreeNames<const I: usize> {}

impl<const I: usize> Label for TreeNames<I> {
    ghost label = { if I == 0 then codes "Leaf" else codes "Node" };

    fn text() -> &'static str {
        nano_schema::name_of!(I, 0 => "Leaf", _ => "Node")
    }
}

type TreeVariants2 = Variant<TreeNames<1>, Within<Newtype<Vec<Tree>>>>;

type TreeVariants = (Variant<TreeNames<0>, Other<Newtype<i32>>>, TreeVariants2);

type TreeValues2 = Vec<Tree>;

type TreeValues = Either<i32, TreeValues2>;

impl EnumSchema for Tree {
    ghost use Rattle.test_nested_derived.specs.TreeCodecs.{tree_view};

    type Values = TreeValues;

    ghost view = { tree_view };

    #[tactic(auto, using(crate::proofs::TreeCodecsLaws::tree_views))]
    fn make(values: Self::Values) -> Self {
        let later = match values {
            Either::First(values) => {
                let first = values;
                return Self::Leaf(first);
            }
            Either::Later(later) => later,
        };
        let first = later;
        Self::Node(first)
    }
}

impl Value for Tree {
    ghost use Rattle.test_nested_derived.specs.TreeCodecs.{tree_means, tree_codec};

    ghost means = { tree_means };

    ghost legal = { tree_codec.encoding.legal };

    fn known(&self) {
        match self {
            Self::Leaf(first) => Value::known(first),
            Self::Node(first) => Value::known(first),
        }
    }
}

// ---- bytes

impl BinCodec for Tree {
    ghost use Rattle.test_nested_derived.specs.TreeCodecs.{tree_codec};

    ghost bin = { tree_codec };

    ghost agrees = { agreed };
}

impl WritesBin for Tree {
    #[tactic(auto, using(crate::proofs::TreeCodecsLaws::tree_written_laws))]
    fn write_bin(&self, alloc: Global, output: &mut Vec<u8>) -> Result<(), AllocError> {
        match self {
            Self::Leaf(first) => append_variant(alloc, 0, first, output),
            Self::Node(first) => append_variant_within(alloc, 1, first, output),
        }
    }
}

impl SerBin for Tree {
    fn ser_bin(&self, alloc: Global, output: &mut Vec<u8>) -> Result<(), AllocError> {
        WritesBin::write_bin(self, alloc, output)
    }
}

impl ReadsBin<Tree> for Levels {
    #[cycle(read)]
    fn read_bin(&self, alloc: Global, offset: &mut usize, bytes: &[u8]) -> Result<Tree, DeBinErr> {
        let Levels::More(below) = self else {
            return Err(no_memory(*offset, bytes));
        };
        let Some(below) = below.first() else {
            return Err(no_memory(*offset, bytes));
        };
        read_choice_within::<Levels, Tree, TreeVariants>(below, alloc, offset, bytes)
    }
}

impl DeBin for Tree {
    ghost is_decodable = { refl };

    fn de_bin(alloc: Global, offset: &mut usize, bytes: &[u8]) -> Result<Self, DeBinErr> {
        let levels = Levels::most();
        ReadsBin::<Self>::read_bin(levels, alloc, offset, bytes)
    }
}

// ---- JSON

impl JsonCodec for Tree {
    ghost use Rattle.test_nested_derived.specs.TreeJsonCodecs.{tree_json};

    ghost json = { tree_json };

    ghost agrees = { agreed };
}

impl NestedJson for Tree {
    ghost use Rattle.test_nested_derived.specs.TreeCodecs.{tree_means};
    ghost use Rattle.test_nested_derived.specs.TreeJsonCodecs.{tree_json_at};

    ghost means = { tree_means };

    ghost at = { tree_json_at };
}

impl WritesJson for Tree {
    #[tactic(auto, using(crate::proofs::TreeJsonCodecsLaws::tree_json_texts))]
    fn write_json(&self, alloc: Global, d: usize, s: &mut SerJsonState) -> Result<(), AllocError> {
        match self {
            Self::Leaf(first) => write_variant_other(alloc, "Leaf", first, d, s),
            Self::Node(first) => write_variant_within(alloc, "Node", first, d, s),
        }
    }
}

impl SerJson for Tree {
    fn ser_json(&self, alloc: Global, d: usize, s: &mut SerJsonState) -> Result<(), AllocError> {
        WritesJson::write_json(self, alloc, d, s)
    }
}

impl ReadsJson<Tree> for Levels {
    #[cycle(read)]
    fn read_json(
        &self,
        left: usize,
        alloc: Global,
        state: &mut DeJsonState,
        input: &mut Chars<'_>,
    ) -> Result<Tree, DeJsonErr> {
        if left == 0 {
            return Err(too_deep(alloc, state));
        }
        let Levels::More(below) = self else {
            return Err(no_levels(alloc, state));
        };
        let Some(below) = below.first() else {
            return Err(no_levels(alloc, state));
        };
        match read_choice_json_within::<Levels, TreeVariants>(
            below,
            left - 1,
            alloc,
            state,
            input,
        ) {
            Ok(values) => Ok(Tree::make(values)),
            Err(error) => Err(error),
        }
    }
}

impl DeJson for Tree {
    fn de_json(
        alloc: Global,
        state: &mut DeJsonState,
        input: &mut Chars<'_>,
    ) -> Result<Self, DeJsonErr> {
        let levels = Levels::most();
        ReadsJson::<Self>::read_json(levels, 128, alloc, state, input)
    }
}

// ---- RON

impl RonCodec for Tree {
    ghost use Rattle.test_nested_derived.specs.TreeRonCodecs.{tree_ron};

    ghost ron = { tree_ron };

    ghost agrees = { agreed };
}

impl NestedRon for Tree {
    ghost use Rattle.test_nested_derived.specs.TreeCodecs.{tree_means};
    ghost use Rattle.test_nested_derived.specs.TreeRonCodecs.{tree_ron_at};

    ghost means = { tree_means };

    ghost at = { tree_ron_at };
}

impl WritesRon for Tree {
    #[tactic(auto, using(crate::proofs::TreeRonCodecsLaws::tree_ron_texts))]
    fn write_ron(&self, alloc: Global, d: usize, s: &mut SerRonState) -> Result<(), AllocError> {
        match self {
            Self::Leaf(first) => nano_ron_nested::write_variant_other(alloc, "Leaf", first, d, s),
            Self::Node(first) => nano_ron_nested::write_variant_within(alloc, "Node", first, d, s),
        }
    }
}

impl SerRon for Tree {
    fn ser_ron(&self, alloc: Global, d: usize, s: &mut SerRonState) -> Result<(), AllocError> {
        WritesRon::write_ron(self, alloc, d, s)
    }
}

impl ReadsRon<Tree> for Levels {
    #[cycle(read)]
    fn read_ron(
        &self,
        left: usize,
        alloc: Global,
        state: &mut DeRonState,
        input: &mut Chars<'_>,
    ) -> Result<Tree, DeRonErr> {
        if left == 0 {
            return Err(nano_ron_nested::too_deep(alloc, state));
        }
        let Levels::More(below) = self else {
            return Err(nano_ron_nested::no_levels(alloc, state));
        };
        let Some(below) = below.first() else {
            return Err(nano_ron_nested::no_levels(alloc, state));
        };
        match read_choice_ron_within::<Levels, TreeVariants>(below, left - 1, alloc, state, input) {
            Ok(values) => Ok(Tree::make(values)),
            Err(error) => Err(error),
        }
    }
}

impl DeRon for Tree {
    fn de_ron(
        alloc: Global,
        state: &mut DeRonState,
        input: &mut Chars<'_>,
    ) -> Result<Self, DeRonErr> {
        let levels = Levels::most();
        ReadsRon::<Self>::read_ron(levels, 128, alloc, state, input)
    }
}
