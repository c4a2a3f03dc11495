//! Sources with types that contain themselves, and lines that are written of each.

/// Lines of the module of the impls.
pub(crate) const IMPLS: &str = r#"// nanoserde: bin
enum A {
    B,
    C(u8),
    D(Vec<A>, String),
    E { a: Option<Box<A>>, b: bool },
}
=>
type ADParts = (Within<Newtype<Vec<A>>>, Other<Newtype<String>>);
=>
type AEParts = (
    Within<Optional<AENames<0>, Box<A>>>,
    Other<Required<AENames<1>, bool>>,
);
=>
type AVariants4 = Variant<ANames<3>, Struct<AEParts>>;
=>
type AVariants = (Variant<ANames<0>, Other<Unit>>, AVariants2);
=>
    ghost use Rattle.app.specs.ShapesCodecs.{a_view};
=>
    #[tactic(auto, using(crate::proofs::ShapesCodecsLaws::a_views))]
    fn make(values: Self::Values) -> Self {
=>
    fn known(&self) {
        match self {
            Self::B => Value::known(&()),
            Self::C(first) => Value::known(first),
            Self::D(first, second) => {
                Value::known(first);
                Value::known(second);
            }
=>
    #[tactic(auto, using(crate::proofs::ShapesCodecsLaws::a_written_laws))]
    fn write_bin(&self, alloc: Global, output: &mut Vec<u8>) -> Result<(), AllocError> {
=>
            Self::B => append_variant(alloc, 0, &(), output),
            Self::C(first) => append_variant(alloc, 1, first, output),
            Self::D(first, second) => {
                append_variant_within(alloc, 2, first, output)?;
                nano_bin::append_part(alloc, second, output, start)
            }
=>
        read_choice_within::<Levels, A, AVariants>(below, alloc, offset, bytes)
----
// nanoserde: bin
struct A {
    a: u8,
    b: Vec<A>,
}

// nanoserde: bin
struct B {
    a: Vec<A>,
}
=>
type AFields = (
    Other<Required<ANames<0>, u8>>,
    Within<Required<ANames<1>, Vec<A>>>,
);
=>
    #[tactic(auto, using(crate::proofs::ShapesCodecsLaws::a_legal))]
    fn known(&self) {
=>
        let (a, b) = values;
        A { a, b }
=>
        let start = output.len();
        SerBin::ser_bin(&self.a, alloc, output)?;
        append_part_within(alloc, &self.b, output, start)
=>
        read_record_within::<Levels, A, AFields>(below, alloc, offset, bytes)
=>
        nano_bin_schema::write_record_bin::<Self, BFields>(self, alloc, output)
----
// nanoserde: bin json ron, levels = "64"
enum A {
    B {
        // nanoserde: rename = "l"
        left: Box<A>,
        right: Box<A>,
    },
    C,
}
=>
        let levels = Levels::at_most(64);
        ReadsBin::<Self>::read_bin(levels, alloc, offset, bytes)
=>
            return Err(too_many_levels(alloc, 64, state));
=>
            return Err(too_many_levels(alloc, 64, state));
=>
        let levels = Levels::most();
        ReadsJson::<Self>::read_json(levels, 64, alloc, state, input)
=>
impl AJsonWriter {
    ghost use Rattle.app.specs.declared.shapes.A.{B as A-B};
=>
    fn append_b_fields(
        value: &A,
        v0: &Box<A>,
        v1: &Box<A>,
        alloc: Global,
        d: usize,
        s: &mut SerJsonState,
    ) -> Result<(), AllocError>
        requires { value.now ≡ A-B v0.now v1.now }
=>
        let right_is_first = append_required_within(alloc, "l", v0, true, inner, s)?;
        append_required_within(alloc, "right", v1, right_is_first, inner, s)?;
=>
            Self::B {
                left: v0,
                right: v1,
            } => AJsonWriter::write_b(self, v0, v1, alloc, d, s),
=>
            } => ARonWriter::write_b(self, v0, v1, alloc, d, s),
----
// nanoserde: ron
enum A {
    B(Box<A>, Box<A>),
    C(u8, Vec<A>),
    D,
    VariantWhoseNameIsSoLongThatItsCallIsCut(Box<A>, Vec<A>),
}
=>
            Self::B(first, second) => write_pair_within(alloc, "B", first, second, d, s),
            Self::C(first, second) => {
                let first = &nano_ron_schema::Part { of: first };
                write_pair_within(alloc, "C", first, second, d, s)
            }
            Self::D => nano_ron_schema::write_unit_variant("D", s),
=>
                write_pair_within(
                    alloc,
                    "VariantWhoseNameIsSoLongThatItsCallIsCut",
                    first,
                    second,
                    d,
                    s,
                )
"#;

/// The paths of the files beside the sources, and lines of those.
pub(crate) const FILES: &str = r#"// nanoserde: bin
enum A {
    B(i32),
    C(Vec<Box<A>>, u8),
}
=>
specs/ShapesCodecs.antt, declared by `pub mod ShapesCodecs`
=>
AContent X = Either ℤ (Vec (Box X Global) Global × ℕ)
=>
a_opened (A-F.C v0 v1) = Later (v0, v1)
=>
a_means_step (A-F.C v0 v1) = tagged 1 (paired (listed (map (λ x. x.value) v0.items), whole v1))
=>
a_depth_step (A-F.C v0 v1) = max (greatest (map (λ x. suc x.value) v0.items)) 0
=>
a_codec = nested_codec a_nested
=>
proofs/ShapesCodecsLaws.antt, declared by `mod ShapesCodecsLaws`
=>
pub a_view_c : (v0 : Vec (Box A Global) Global)
    → (v1 : ℕ)
    → a_view (A-C v0 v1) ≡ Later (v0, v1)
=>
pub ruleset a_views = (a_view_b, a_view_c)
=>
pub ruleset a_written_laws = (append_assoc, a_written_b, a_written_c)
=>
proofs/shapes/derived/LevelsReadsBinA/+read/Answers.antt
=>
proofs/shapes/derived/AValue/+known/Answers.antt
=>
returns-in-B t c = rw c.in-B.is (a_legal_b c.in-B.first c.known.ensures)
=>
returns-in-C t c =
    rw c.in-C.is (a_legal_c c.in-C.first c.in-C.second c.known-in-C.ensures c.known-in-C-2.ensures)
----
// nanoserde: bin
struct A {
    a: Option<Vec<A>>,
}
=>
a_opened y = y.a
=>
a_means_step y = optional (option_map (λ x. listed x.items) y.a)
=>
a_layer = option_layer (seen_layer (λ x. x.items) (list_layer itself_layer))
----
use std::collections::BTreeMap;

// nanoserde: bin json ron
enum A {
    B(BTreeMap<i8, Vec<A>,>),
    C { c: Option<BTreeMap<bool, A>>, d: BTreeMap<String, u16> },
}
=>
    Either (BTreeMap ℤ (Vec X Global)) (Option (BTreeMap Bool X) × BTreeMap (String Global) ℕ)
=>
a_means_step (A-F.B v) = tagged 0 (ordered_map_means int_cmp number (λ x. listed x.items) v.entries)
=>
    greatest (map (λ (x : ℤ × Vec ℕ Global). greatest (map (λ x. suc x) x.1.items)) v.entries)
=>
use Rattle.nano_schema_levels.proofs.StepsLaws.{by_option, list_depth, map_means, pair_depth, pair_means}
=>
use Rattle.app.specs.ShapesCodecs.{a_depth, a_depth_step}
----
// nanoserde: bin json
struct B(u8);

// nanoserde: bin json
struct A {
    a: Vec<A>,
    b: Option<B>,
}
=>
use Rattle.app.specs.contracts.shapes.derived.BBinCodec.TheImpl.{ghosts as b_bin}
=>
pub a_json_agrees : Agrees a_means a_codec.encoding.legal a_means
    (limited a_json_nested 128).encoding.legal
=>
a_json = legal_as (limited a_json_nested 128) a_json_agrees
=>
pub AJsonWriter::append_record-returns-clause-ok :
    goal.AJsonWriter::append_record-returns-clause-ok
"#;
