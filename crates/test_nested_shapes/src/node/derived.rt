//! Written by derive_files: how the types of the module above are encoded.

ghost use Rattle.std.specs.Prelude.{codes, ◌==◌, if◌then◌else◌, refl, OnOk, OnErr};
ghost use Rattle.nano_schema.specs.UserTypes.{agreed};
ghost use Rattle.nano_text.specs.Outcomes.{Appends, AppendsPart};

use super::*;
use nano_bin_nested::{
    ReadsBin, WritesBin, append_part_within, append_variant, no_memory, read_choice_within,
    read_record_within,
};
use nano_bin_schema::{BinCodec, DeBin, DeBinErr, SerBin};
use nano_json_nested::{
    NestedJson, ReadsJson, WritesJson, append_required_within, no_levels, read_choice_json_within,
    read_record_json_within, rollback_on_error, too_deep, write_triple_within,
};
use nano_json_schema::{
    DeJson, DeJsonErr, DeJsonState, JsonCodec, JsonRefs, SerJson, SerJsonState,
};
use nano_levels::{Levels, Other, Within};
use nano_ron_nested::{
    NestedRon, ReadsRon, WritesRon, append_required, read_choice_ron_within, read_record_ron_within,
};
use nano_ron_schema::{DeRon, DeRonErr, DeRonState, RonCodec, SerRon, SerRonState};
use nano_schema::{
    Either, EnumSchema, Label, Newtype, Required, StructSchema, Tuple, Unit, Value, Variant,
};
use std::alloc::{AllocError, Global};
use std::str::Chars;

pub struct NodeNames<const I: usize> {}

impl<const I: usize> Label for NodeNames<I> {
    ghost label = { if I == 0 then codes "name" else if I == 1 then codes "at"
        else if I == 2 then codes "size" else if I == 3 then codes "tags"
        else if I == 4 then codes "effects" else codes "children" };

    fn text() -> &'static str {
        nano_schema::name_of!(I, 0 => "name", 1 => "at", 2 => "size", 3 => "tags",
            4 => "effects", _ => "children")
    }
}

type NodeFields = (
    (
        Other<Required<NodeNames<0>, String>>,
        (
            Other<Required<NodeNames<1>, [i32; 3]>>,
            Other<Required<NodeNames<2>, (u32, u32)>>,
        ),
    ),
    (
        Other<Required<NodeNames<3>, BTreeSet<String>>>,
        (
            Other<Required<NodeNames<4>, HashMap<String, u32>>>,
            Within<Required<NodeNames<5>, Vec<Node>>>,
        ),
    ),
);

impl StructSchema for Node {
    ghost use Rattle.test_nested_shapes.specs.NodeCodecs.{node_view};

    type Values = (
        (String, ([i32; 3], (u32, u32))),
        (BTreeSet<String>, (HashMap<String, u32>, Vec<Node>)),
    );

    ghost view = { node_view };

    fn make(values: Self::Values) -> Self {
        let (name_to_size, tags_to_children) = values;
        let (name, at_to_size) = name_to_size;
        let (at, size) = at_to_size;
        let (tags, effects_to_children) = tags_to_children;
        let (effects, children) = effects_to_children;
        Node {
            name,
            at,
            size,
            tags,
            effects,
            children,
        }
    }
}

impl Value for Node {
    ghost use Rattle.test_nested_shapes.specs.NodeCodecs.{node_means, node_codec};

    ghost means = { node_means };

    ghost legal = { node_codec.encoding.legal };

    #[tactic(auto, using(crate::proofs::NodeCodecsLaws::node_legal))]
    fn known(&self) {
        Value::known(&self.name);
        Value::known(&self.at);
        Value::known(&self.size);
        Value::known(&self.tags);
        Value::known(&self.effects);
        Value::known(&self.children);
    }
}

// ---- bytes

impl BinCodec for Node {
    ghost use Rattle.test_nested_shapes.specs.NodeCodecs.{node_codec};

    ghost bin = { node_codec };

    ghost agrees = { agreed };
}

impl WritesBin for Node {
    #[tactic(auto, using(crate::proofs::NodeCodecsLaws::node_written_laws))]
    fn write_bin(&self, alloc: Global, output: &mut Vec<u8>) -> Result<(), AllocError> {
        let start = output.len();
        SerBin::ser_bin(&self.name, alloc, output)?;
        nano_bin::append_part(alloc, &self.at, output, start)?;
        nano_bin::append_part(alloc, &self.size, output, start)?;
        nano_bin::append_part(alloc, &self.tags, output, start)?;
        nano_bin::append_part(alloc, &self.effects, output, start)?;
        append_part_within(alloc, &self.children, output, start)
    }
}

impl SerBin for Node {
    fn ser_bin(&self, alloc: Global, output: &mut Vec<u8>) -> Result<(), AllocError> {
        WritesBin::write_bin(self, alloc, output)
    }
}

impl ReadsBin<Node> for Levels {
    #[cycle(read)]
    fn read_bin(&self, alloc: Global, offset: &mut usize, bytes: &[u8]) -> Result<Node, DeBinErr> {
        let Levels::More(below) = self else {
            return Err(no_memory(*offset, bytes));
        };
        let Some(below) = below.first() else {
            return Err(no_memory(*offset, bytes));
        };
        read_record_within::<Levels, Node, NodeFields>(below, alloc, offset, bytes)
    }
}

impl DeBin for Node {
    ghost is_decodable = { refl };

    fn de_bin(alloc: Global, offset: &mut usize, bytes: &[u8]) -> Result<Self, DeBinErr> {
        let levels = Levels::most();
        ReadsBin::<Self>::read_bin(levels, alloc, offset, bytes)
    }
}

// ---- JSON

impl JsonCodec for Node {
    ghost use Rattle.test_nested_shapes.specs.NodeJsonCodecs.{node_json};

    ghost json = { node_json };

    ghost agrees = { agreed };
}

impl NestedJson for Node {
    ghost use Rattle.test_nested_shapes.specs.NodeCodecs.{node_means};
    ghost use Rattle.test_nested_shapes.specs.NodeJsonCodecs.{node_json_at};

    ghost means = { node_means };

    ghost at = { node_json_at };
}

/// What writes `Node` as JSON.
struct NodeJsonWriter {}

impl NodeJsonWriter {
    ghost use Rattle.test_nested_shapes.specs.NodeJsonCodecs.{node_json};

    /// Appends the fields between braces. If the write fails, what was written so far is left.
    #[cycle(write_node_json)]
    fn append_record(
        value: &Node,
        alloc: Global,
        d: usize,
        s: &mut SerJsonState,
    ) -> Result<(), AllocError>
        ensures ok { OnOk result
            (Appends s.old.out s.new.out (node_json.canonical.text d value.now)) }
        ensures err { OnErr result (AppendsPart s.old.out s.new.out) }
    {
        s.st_pre()?;
        let inner = d.saturating_add(1);
        let at_is_first = Required::<NodeNames<0>, String>::append_fields(
            &&value.name,
            alloc,
            true,
            inner,
            s,
        )?;
        let size_is_first = Required::<NodeNames<1>, [i32; 3]>::append_fields(
            &&value.at,
            alloc,
            at_is_first,
            inner,
            s,
        )?;
        let tags_is_first = Required::<NodeNames<2>, (u32, u32)>::append_fields(
            &&value.size,
            alloc,
            size_is_first,
            inner,
            s,
        )?;
        let effects_is_first = Required::<NodeNames<3>, BTreeSet<String>>::append_fields(
            &&value.tags,
            alloc,
            tags_is_first,
            inner,
            s,
        )?;
        let children_is_first = Required::<NodeNames<4>, HashMap<String, u32>>::append_fields(
            &&value.effects,
            alloc,
            effects_is_first,
            inner,
            s,
        )?;
        append_required_within(
            alloc,
            "children",
            &value.children,
            children_is_first,
            inner,
            s,
        )?;
        s.st_post(d)
    }
}

impl WritesJson for Node {
    #[cycle(write_node_json)]
    fn write_json(&self, alloc: Global, d: usize, s: &mut SerJsonState) -> Result<(), AllocError> {
        let start = s.out.len();
        let written = NodeJsonWriter::append_record(self, alloc, d, s);
        rollback_on_error(&mut s.out, start, written)
    }
}

impl SerJson for Node {
    fn ser_json(&self, alloc: Global, d: usize, s: &mut SerJsonState) -> Result<(), AllocError> {
        WritesJson::write_json(self, alloc, d, s)
    }
}

impl ReadsJson<Node> for Levels {
    #[cycle(read)]
    fn read_json(
        &self,
        left: usize,
        alloc: Global,
        state: &mut DeJsonState,
        input: &mut Chars<'_>,
    ) -> Result<Node, DeJsonErr> {
        if left == 0 {
            return Err(too_deep(alloc, state));
        }
        let Levels::More(below) = self else {
            return Err(no_levels(alloc, state));
        };
        let Some(below) = below.first() else {
            return Err(no_levels(alloc, state));
        };
        match read_record_json_within::<Levels, NodeFields>(below, left - 1, alloc, state, input) {
            Ok(values) => Ok(Node::make(values)),
            Err(error) => Err(error),
        }
    }
}

impl DeJson for Node {
    fn de_json(
        alloc: Global,
        state: &mut DeJsonState,
        input: &mut Chars<'_>,
    ) -> Result<Self, DeJsonErr> {
        let levels = Levels::most();
        ReadsJson::<Self>::read_json(levels, 128, alloc, state, input)
    }
}

// ---- RON

impl RonCodec for Node {
    ghost use Rattle.test_nested_shapes.specs.NodeRonCodecs.{node_ron};

    ghost ron = { node_ron };

    ghost agrees = { agreed };
}

impl NestedRon for Node {
    ghost use Rattle.test_nested_shapes.specs.NodeCodecs.{node_means};
    ghost use Rattle.test_nested_shapes.specs.NodeRonCodecs.{node_ron_at};

    ghost means = { node_means };

    ghost at = { node_ron_at };
}

/// What writes `Node` as RON.
struct NodeRonWriter {}

impl NodeRonWriter {
    ghost use Rattle.test_nested_shapes.specs.NodeRonCodecs.{node_ron};

    /// Appends the fields between parentheses. If the write fails, what was written so far is left.
    #[cycle(write_node_ron)]
    fn append_record(
        value: &Node,
        alloc: Global,
        d: usize,
        s: &mut SerRonState,
    ) -> Result<(), AllocError>
        ensures ok { OnOk result
            (Appends s.old.out s.new.out (node_ron.canonical.text d value.now)) }
        ensures err { OnErr result (AppendsPart s.old.out s.new.out) }
    {
        s.st_pre()?;
        let inner = d.saturating_add(1);
        append_required(alloc, "name", &value.name, inner, s)?;
        append_required(alloc, "at", &value.at, inner, s)?;
        append_required(alloc, "size", &value.size, inner, s)?;
        append_required(alloc, "tags", &value.tags, inner, s)?;
        append_required(alloc, "effects", &value.effects, inner, s)?;
        nano_ron_nested::append_required_within(alloc, "children", &value.children, inner, s)?;
        s.st_post(d)
    }
}

impl WritesRon for Node {
    #[cycle(write_node_ron)]
    fn write_ron(&self, alloc: Global, d: usize, s: &mut SerRonState) -> Result<(), AllocError> {
        let start = s.out.len();
        let written = NodeRonWriter::append_record(self, alloc, d, s);
        nano_ron_nested::rollback_on_error(&mut s.out, start, written)
    }
}

impl SerRon for Node {
    fn ser_ron(&self, alloc: Global, d: usize, s: &mut SerRonState) -> Result<(), AllocError> {
        WritesRon::write_ron(self, alloc, d, s)
    }
}

impl ReadsRon<Node> for Levels {
    #[cycle(read)]
    fn read_ron(
        &self,
        left: usize,
        alloc: Global,
        state: &mut DeRonState,
        input: &mut Chars<'_>,
    ) -> Result<Node, DeRonErr> {
        if left == 0 {
            return Err(nano_ron_nested::too_deep(alloc, state));
        }
        let Levels::More(below) = self else {
            return Err(nano_ron_nested::no_levels(alloc, state));
        };
        let Some(below) = below.first() else {
            return Err(nano_ron_nested::no_levels(alloc, state));
        };
        match read_record_ron_within::<Levels, NodeFields>(below, left - 1, alloc, state, input) {
            Ok(values) => Ok(Node::make(values)),
            Err(error) => Err(error),
        }
    }
}

impl DeRon for Node {
    fn de_ron(
        alloc: Global,
        state: &mut DeRonState,
        input: &mut Chars<'_>,
    ) -> Result<Self, DeRonErr> {
        let levels = Levels::most();
        ReadsRon::<Self>::read_ron(levels, 128, alloc, state, input)
    }
}

pub struct TrailNames<const I: usize> {}

impl<const I: usize> Label for TrailNames<I> {
    ghost label = { if I == 0 then codes "End" else codes "Through" };

    fn text() -> &'static str {
        nano_schema::name_of!(I, 0 => "End", _ => "Through")
    }
}

type TrailThroughParts = (
    Other<Newtype<LinkedList<(String, u8)>>>,
    (Other<Newtype<HashSet<u16>>>, Within<Newtype<Box<Trail>>>),
);

type TrailVariants2 = Variant<TrailNames<1>, TrailThroughParts>;

type TrailVariants = (Variant<TrailNames<0>, Other<Unit>>, TrailVariants2);

type TrailValues2 = (LinkedList<(String, u8)>, (HashSet<u16>, Box<Trail>));

type TrailValues = Either<(), TrailValues2>;

impl EnumSchema for Trail {
    ghost use Rattle.test_nested_shapes.specs.NodeCodecs.{trail_view};

    type Values = TrailValues;

    ghost view = { trail_view };

    #[tactic(auto, using(crate::proofs::NodeCodecsLaws::trail_views))]
    fn make(values: Self::Values) -> Self {
        let later = match values {
            Either::First(values) => {
                let () = values;
                return Self::End;
            }
            Either::Later(later) => later,
        };
        let (first, (second, third)) = later;
        Self::Through(first, second, third)
    }
}

impl Value for Trail {
    ghost use Rattle.test_nested_shapes.specs.NodeCodecs.{trail_means, trail_codec};

    ghost means = { trail_means };

    ghost legal = { trail_codec.encoding.legal };

    fn known(&self) {
        match self {
            Self::End => Value::known(&()),
            Self::Through(first, second, third) => {
                Value::known(first);
                Value::known(second);
                Value::known(third);
            }
        }
    }
}

// ---- bytes

impl BinCodec for Trail {
    ghost use Rattle.test_nested_shapes.specs.NodeCodecs.{trail_codec};

    ghost bin = { trail_codec };

    ghost agrees = { agreed };
}

impl WritesBin for Trail {
    #[tactic(auto, using(crate::proofs::NodeCodecsLaws::trail_written_laws))]
    fn write_bin(&self, alloc: Global, output: &mut Vec<u8>) -> Result<(), AllocError> {
        let start = output.len();
        match self {
            Self::End => append_variant(alloc, 0, &(), output),
            Self::Through(first, second, third) => {
                append_variant(alloc, 1, first, output)?;
                nano_bin::append_part(alloc, second, output, start)?;
                append_part_within(alloc, third, output, start)
            }
        }
    }
}

impl SerBin for Trail {
    fn ser_bin(&self, alloc: Global, output: &mut Vec<u8>) -> Result<(), AllocError> {
        WritesBin::write_bin(self, alloc, output)
    }
}

impl ReadsBin<Trail> for Levels {
    #[cycle(read)]
    fn read_bin(&self, alloc: Global, offset: &mut usize, bytes: &[u8]) -> Result<Trail, DeBinErr> {
        let Levels::More(below) = self else {
            return Err(no_memory(*offset, bytes));
        };
        let Some(below) = below.first() else {
            return Err(no_memory(*offset, bytes));
        };
        read_choice_within::<Levels, Trail, TrailVariants>(below, alloc, offset, bytes)
    }
}

impl DeBin for Trail {
    ghost is_decodable = { refl };

    fn de_bin(alloc: Global, offset: &mut usize, bytes: &[u8]) -> Result<Self, DeBinErr> {
        let levels = Levels::most();
        ReadsBin::<Self>::read_bin(levels, alloc, offset, bytes)
    }
}

// ---- JSON

impl JsonCodec for Trail {
    ghost use Rattle.test_nested_shapes.specs.NodeJsonCodecs.{trail_json};

    ghost json = { trail_json };

    ghost agrees = { agreed };
}

impl NestedJson for Trail {
    ghost use Rattle.test_nested_shapes.specs.NodeCodecs.{trail_means};
    ghost use Rattle.test_nested_shapes.specs.NodeJsonCodecs.{trail_json_at};

    ghost means = { trail_means };

    ghost at = { trail_json_at };
}

type TrailJsonVariants2 = Variant<TrailNames<1>, Tuple<TrailThroughParts>>;

type TrailJsonVariants = (Variant<TrailNames<0>, Other<Unit>>, TrailJsonVariants2);

impl WritesJson for Trail {
    #[tactic(auto, using(crate::proofs::NodeJsonCodecsLaws::trail_json_texts))]
    fn write_json(&self, alloc: Global, d: usize, s: &mut SerJsonState) -> Result<(), AllocError> {
        match self {
            Self::End => nano_json_schema::write_unit_variant(alloc, "End", s),
            Self::Through(first, second, third) => {
                let first = &nano_json_schema::Part { of: first };
                let second = &nano_json_schema::Part { of: second };
                write_triple_within(alloc, "Through", first, second, third, d, s)
            }
        }
    }
}

impl SerJson for Trail {
    fn ser_json(&self, alloc: Global, d: usize, s: &mut SerJsonState) -> Result<(), AllocError> {
        WritesJson::write_json(self, alloc, d, s)
    }
}

impl ReadsJson<Trail> for Levels {
    #[cycle(read)]
    fn read_json(
        &self,
        left: usize,
        alloc: Global,
        state: &mut DeJsonState,
        input: &mut Chars<'_>,
    ) -> Result<Trail, DeJsonErr> {
        if left == 0 {
            return Err(too_deep(alloc, state));
        }
        let Levels::More(below) = self else {
            return Err(no_levels(alloc, state));
        };
        let Some(below) = below.first() else {
            return Err(no_levels(alloc, state));
        };
        match read_choice_json_within::<Levels, TrailJsonVariants>(
            below,
            left - 1,
            alloc,
            state,
            input,
        ) {
            Ok(values) => Ok(Trail::make(values)),
            Err(error) => Err(error),
        }
    }
}

impl DeJson for Trail {
    fn de_json(
        alloc: Global,
        state: &mut DeJsonState,
        input: &mut Chars<'_>,
    ) -> Result<Self, DeJsonErr> {
        let levels = Levels::most();
        ReadsJson::<Self>::read_json(levels, 128, alloc, state, input)
    }
}

// ---- RON

impl RonCodec for Trail {
    ghost use Rattle.test_nested_shapes.specs.NodeRonCodecs.{trail_ron};

    ghost ron = { trail_ron };

    ghost agrees = { agreed };
}

impl NestedRon for Trail {
    ghost use Rattle.test_nested_shapes.specs.NodeCodecs.{trail_means};
    ghost use Rattle.test_nested_shapes.specs.NodeRonCodecs.{trail_ron_at};

    ghost means = { trail_means };

    ghost at = { trail_ron_at };
}

impl WritesRon for Trail {
    #[tactic(auto, using(crate::proofs::NodeRonCodecsLaws::trail_ron_texts))]
    fn write_ron(&self, alloc: Global, d: usize, s: &mut SerRonState) -> Result<(), AllocError> {
        match self {
            Self::End => nano_ron_schema::write_unit_variant("End", s),
            Self::Through(first, second, third) => {
                let first = &nano_ron_schema::Part { of: first };
                let second = &nano_ron_schema::Part { of: second };
                nano_ron_nested::write_triple_within(alloc, "Through", first, second, third, d, s)
            }
        }
    }
}

impl SerRon for Trail {
    fn ser_ron(&self, alloc: Global, d: usize, s: &mut SerRonState) -> Result<(), AllocError> {
        WritesRon::write_ron(self, alloc, d, s)
    }
}

impl ReadsRon<Trail> for Levels {
    #[cycle(read)]
    fn read_ron(
        &self,
        left: usize,
        alloc: Global,
        state: &mut DeRonState,
        input: &mut Chars<'_>,
    ) -> Result<Trail, DeRonErr> {
        if left == 0 {
            return Err(nano_ron_nested::too_deep(alloc, state));
        }
        let Levels::More(below) = self else {
            return Err(nano_ron_nested::no_levels(alloc, state));
        };
        let Some(below) = below.first() else {
            return Err(nano_ron_nested::no_levels(alloc, state));
        };
        match read_choice_ron_within::<Levels, TrailVariants>(
            below,
            left - 1,
            alloc,
            state,
            input,
        ) {
            Ok(values) => Ok(Trail::make(values)),
            Err(error) => Err(error),
        }
    }
}

impl DeRon for Trail {
    fn de_ron(
        alloc: Global,
        state: &mut DeRonState,
        input: &mut Chars<'_>,
    ) -> Result<Self, DeRonErr> {
        let levels = Levels::most();
        ReadsRon::<Self>::read_ron(levels, 128, alloc, state, input)
    }
}
