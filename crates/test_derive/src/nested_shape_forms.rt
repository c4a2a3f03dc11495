//! Sources with enums that contain each other, a variant of three parts and collections in types
//! that contain themselves, and lines that are written of them.

/// Lines of the module of the impls.
pub(crate) const SHAPE_IMPLS: &str = r#"// nanoserde: json ron
enum A {
    C(u8, Box<A>, Vec<A>),
}
=>
type ACParts = (
    Other<Newtype<u8>>,
    (Within<Newtype<Box<A>>>, Within<Newtype<Vec<A>>>),
);
=>
            Self::C(first, second, third) => {
                let first = &nano_json_schema::Part { of: first };
                write_triple_within(alloc, "C", first, second, third, d, s)
            }
=>
                write_triple_within(alloc, "C", first, second, third, d, s)
----
// nanoserde: bin
#[cycle(a)]
enum B {
    C(Box<A>),
    D,
}

// nanoserde: bin
#[cycle(a)]
enum A {
    D(B),
    E,
}
=>
        read_choice_within::<Levels, A, AVariants>(self, alloc, offset, bytes)
=>
    #[cycle(read_b_bin)]
----
// nanoserde: json
#[cycle(a)]
enum B {
    C(Box<A>),
    D,
}

// nanoserde: json
#[cycle(a)]
enum A {
    D(B),
    F { b: Vec<B> },
}
=>
        match read_choice_json_within::<Levels, AVariants>(self, left, alloc, state, input) {
=>
            ((a_json_content_f.codec b_json).canonical.text d v0.now)) }
----
// nanoserde: bin
struct A {
    a: Vec<A>,
    b: [u8; 2],
    c: (u8, bool),
}
=>
        let (a, b_to_c) = values;
        let (b, c) = b_to_c;
        A { a, b, c }
----
use std::collections::{HashMap, HashSet, LinkedList};

// nanoserde: bin
struct A {
    a: Vec<A>,
    b: [(u8, HashSet<bool>); 2],
    c: Option<LinkedList<HashMap<u8, B>>>,
}

// nanoserde: bin
struct B(u8);
=>
    Within<Required<ANames<0>, Vec<A>>>,
=>
    Other<Required<ANames<1>, [(u8, HashSet<bool>); 2]>>,
=>
    Other<Optional<ANames<2>, LinkedList<HashMap<u8, B>>>>,
"#;

/// Lines of the files beside the sources.
pub(crate) const SHAPE_FILES: &str = r#"// nanoserde: bin
#[cycle(a)]
enum B {
    C(u8, Box<B>, Vec<A>),
}

// nanoserde: bin
#[cycle(a)]
enum A {
    D(B),
    E,
}
=>
a_means x =
    (either_is (λ (v : B). tagged 0 (b_means v))
    (λ (v : Unit {0}). tagged 1 nothing)) (a_view x)
=>
abbrev pub a_variants : ChoiceLayer B (AContent B)
=>
use Rattle.app.specs.declared.shapes.A.TheOpen.{B-F}
=>
b_means = fold-B Meaning Meaning a_means_step b_means_step
=>
abbrev pub a_around : Layer B A
a_around = seen_layer a_view a_layer
=>
    layer_written a_view a_layer b_codec (A-D v) (First v) (a_view_d v)
=>
    layer_legal a_view a_layer b_codec (A-D v) (First v) (a_view_d v)
=>
BValue::known-returns-in-C t c =
=>
AValue::known-returns-in-D t c = rw c.in-D.is (a_legal_d c.in-D.first c.known.ensures)
----
// nanoserde: json ron, levels = "9"
#[cycle(a)]
enum B {
    C(u8, Box<B>, Vec<A>),
    E(u8),
}

// nanoserde: json ron
#[cycle(a)]
enum A {
    D(B),
    E,
}
=>
a_opened A-F.A::E = Later (tt {0})
=>
b_opened (B-F.C v0 v1 v2) = First (v0, (v1, v2))
b_opened (B-F.B::E v) = Later v
=>
a_json_at levels = a_around.codec (b_json_at levels)

abbrev pub a_json : Codec A
a_json =
    choice_as a_view a_json_variants (λ f. refl) (λ f. refl) b_json
    (b_json_at 9) refl
=>
    layer_text a_view a_ron_layer b_ron d A-E (Later (tt {0})) a_view_e
=>
pub LevelsReadsRonA::read_ron-returns-in-Ok : goal.LevelsReadsRonA::read_ron-returns-in-Ok
LevelsReadsRonA::read_ron-returns-in-Ok t c =
    layer_read a_view a_ron_layer (b_ron_at c.args.left) b_means
    c.make.result c.in-Ok.values c.make.ensures c.in-Ok.ensures.read
----
// nanoserde: json
enum A {
    C(u8, Box<A>, Vec<A>),
}
=>
    last_variant json_variants (codes "C") (triple_layer tuple_style block_brackets (other_layer u8_codec) (seen_layer (λ x. x.value) itself_layer) (seen_layer (λ x. x.items) (list_layer block_style block_brackets itself_layer))) (λ f x d. tt)
----
use std::collections::{BTreeSet, HashMap, HashSet, LinkedList};

// nanoserde: bin ron
struct A {
    a: Vec<A>,
    b: [(u8, HashSet<bool>); 2],
    c: LinkedList<HashMap<String, B>>,
    d: (bool, BTreeSet<i8>, ()),
}

// nanoserde: bin ron
struct B(u8);
=>
    paired (paired (listed y.a.items, listed (map (λ x. paired (whole x.0, set_means (item_set truth x.1.keys))) y.b)), paired (listed (map (λ x. table_means (table_of (λ x. text (string_bytes x)) b_value.means x.entries)) y.c), paired (truth y.d.0, paired (ordered_means int_cmp number y.d.1.keys, nothing))))
=>
    LegalPair (LegalPair (LegalList P) (LegalArray 2 (LegalPair (LegalUnsigned 8) (LegalSet LegalTruth)))) (LegalPair (LegalList (LegalMap LegalText b_value.legal)) (LegalPair LegalTruth (LegalPair (LegalSet (LegalSigned w8)) LegalUnit)))
=>
    pair_layer (pair_layer (seen_layer (λ x. x.items) (list_layer itself_layer)) (other_layer (array_codec 2 (pair_codec u8_codec (codec_as (λ (x : HashSet Bool (BuildHasherDefault FoldHasher)). x.keys) (set_codec wholes boolean_codec)))))) (other_layer (pair_codec (linked_codec (codec_as (λ (x : HashMap (String Global) B (BuildHasherDefault FoldHasher)). x.entries) (map_codec texts string_codec b_part))) (triple_codec boolean_codec (codec_as (λ (x : BTreeSet ℤ). x.keys) (ordered_codec numbers int_cmp i8_codec)) unit_codec)))
=>
use Rattle.nano_bin.specs.ContainerCodecs.{list_codec as linked_codec, map_codec, ordered_codec, pair_codec, set_codec}
=>
use Rattle.nano_bin_nested.specs.TupleCodecs.{array_codec, triple_codec}
=>
use Rattle.nano_ron.specs.ContainerCodecs.{array_codec, linked_codec, map_codec, ordered_codec, pair_codec, set_codec, triple_codec}
"#;
