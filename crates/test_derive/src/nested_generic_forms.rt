//! A source with a type that contains itself and has a type parameter, and lines that are written
//! of it.

/// Lines of the module of the impls.
pub(crate) const GENERIC_IMPLS: &str = r#"// nanoserde: bin json
enum A<T> {
    B(T),
    C(Vec<A<T>>),
}
=>
type AVariants2<T> = Variant<ANames<1>, Within<Newtype<Vec<A<T>>>>>;
=>
impl<T> EnumSchema for A<T> {
=>
impl<T: BinCodec> Value for A<T> {
=>
    ghost means = { a_means T.bin.canonical.means };

    ghost legal = { (a_codec T.bin).encoding.legal };
=>
impl<T: SerBin> WritesBin for A<T> {
=>
impl<T: DeBin> ReadsBin<A<T>> for Levels {
=>
    ghost is_decodable = { a_is_read T.bin T.is_decodable };
=>
impl<T: BinCodec + JsonCodec> JsonCodec for A<T> {
=>
    ghost agrees = { a_json_agrees T.json T.bin (between T.BinCodec.agrees T.JsonCodec.agrees) };
=>
impl<T: JsonCodec> NestedJson for A<T> {
=>
impl<T: BinCodec + DeJson> DeJson for A<T> {
----
// nanoserde: ron
struct A<T, U> {
    a: Vec<A<T, U>>,
    b: T,
    c: Vec<U>,
}
=>
impl<T: RonCodec, U: RonCodec> RonCodec for A<T, U> {
    ghost use Rattle.app.specs.ShapesRonCodecs.{a_ron};

    ghost ron = { a_ron T.ron U.ron };

    ghost agrees = { agreed };
}
=>
    fn append_record<T: SerRon, U: SerRon>(
        value: &A<T, U>,"#;

/// Lines of the files beside the sources.
pub(crate) const GENERIC_FILES: &str = r#"// nanoserde: bin json
enum A<T> {
    B(T),
    C(Vec<A<T>>),
}
=>
abbrev pub AContent : Type 0 → Type 0 → Type 0
AContent T X = Either T (Vec X Global)
=>
abbrev pub a_means : {T : Type 0} → (T → Meaning) → (A T) → Meaning
a_means {T} t_means = fold-A T Meaning (a_means_step t_means)
=>
module _ {T : Type 0} (t_bin : Codec T) where
=>
  pub a_is_read : t_bin.is_decodable ≡ true → a_codec.is_decodable ≡ true
  a_is_read t_read = rw (t_read) refl
=>
    rw (c.in-B.is, (a_written_b g.T.BinCodec.bin) c.in-B.first)
    c.append_variant.ensures.ok
=>
    (λ i. a_means ((between g.met.T.BinCodec.agrees g.met.T.JsonCodec.agrees).means_is i)) c.read_json.ensures
"#;
