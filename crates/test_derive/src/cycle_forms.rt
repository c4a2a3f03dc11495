//! A source with types that contain each other, and lines that are written of it.

/// Lines of the module of the impls.
pub(crate) const CYCLE_IMPLS: &str = r#"use std::collections::BTreeMap;

// nanoserde: bin json levels = "9"
#[cycle(a)]
enum A {
    B(u8),
    C(Vec<D>),
}

// nanoserde: bin json
#[cycle(a)]
struct D {
    a: Option<Box<A>>,
    b: BTreeMap<String, E>,
}

// nanoserde: bin json
#[cycle(a)]
struct E {
    a: A,
}
=>
type AVariants2 = Variant<ANames<1>, Within<Newtype<Vec<D>>>>;
=>
    Within<Required<DNames<1>, BTreeMap<String, E>>>,
=>
    #[tactic(auto, using(crate::proofs::ShapesCodecsLaws::d_legal))]
    #[cycle(known_a)]
    fn known(&self) {
=>
    #[tactic(auto, using(crate::proofs::ShapesCodecsLaws::d_written_laws))]
    #[cycle(write_a_bin)]
=>
    #[cycle(read_a_bin)]
    fn read_bin(&self, alloc: Global, offset: &mut usize, bytes: &[u8]) -> Result<D, DeBinErr> {
        read_record_within::<Levels, D, DFields>(self, alloc, offset, bytes)
    }
=>
        let levels = Levels::at_most(9);
=>
            return Err(too_many_levels(alloc, 9, state));
=>
        match read_record_json_within::<Levels, EFields>(self, left, alloc, state, input) {
=>
        ReadsJson::<Self>::read_json(levels, 9, alloc, state, input)
"#;

/// Lines of the files beside the sources.
pub(crate) const CYCLE_FILES: &str = r#"use std::collections::BTreeMap;

// nanoserde: bin json levels = "9"
#[cycle(a)]
enum A {
    B(u8),
    C(Vec<D>),
}

// nanoserde: bin json
#[cycle(a)]
struct D {
    a: Option<Box<A>>,
    b: BTreeMap<String, E>,
}

// nanoserde: bin json
#[cycle(a)]
struct E {
    a: A,
}
=>
use Rattle.app.specs.declared.shapes.A.TheFolds.{map-D, fold-D, fold_out-D}
=>
AContent X = Either ℕ (Vec D Global)
=>
abbrev pub d_opened : {X : Type 0} → D-F X D E → DContent X
=>
a_means_step (A-F.C v) = tagged 1 (listed (map (λ x. x) v.items))
=>
a_means = fold-A Meaning Meaning Meaning a_means_step d_means_step e_means_step
=>
e_depth_folded = fold-E ℕ ℕ ℕ a_depth_step d_depth_step e_depth_step
=>
d_step P = LegalPair (LegalOption P) (LegalMap LegalText (e_step P))
=>
abbrev pub d_around : Layer A D
d_around = seen_layer d_view d_layer
=>
    (last_variant (seen_layer (λ x. x.items) (list_layer d_around)))
=>
e_codec = e_around.codec a_codec
=>
abbrev pub e_around : Layer json json_grammar A E
=>
e_json_at levels = e_around.codec (a_json_at levels)
=>
proofs/shapes/derived/+known_a/Answers.antt
=>
proofs/shapes/derived/+read_a_json/Answers.antt
=>
pub EJsonWriter::append_record-returns-clause-ok :
    goal.EJsonWriter::append_record-returns-clause-ok
"#;
