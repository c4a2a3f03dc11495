//! A source with defaults in a type that contains itself, and lines that are written of it.

/// Lines of the module of the impls.
pub(crate) const DEFAULT_IMPLS: &str = r#"// nanoserde: json ron
struct A {
    // nanoserde: default
    a: Vec<A>,
    // nanoserde: default = "7"
    b: u8,
    // nanoserde: default = "x"
    c: String,
}
=>
/// The default of `c`.
pub struct ACDefault {}

impl DefaultOf<String> for ACDefault {
    ghost missing = { text (codes "x") };
=>
type AFields = (
    Within<Defaulted<ANames<0>, Vec<A>, TypeDefault>>,
    (
        Other<Defaulted<ANames<1>, u8, DefaultU8<7>>>,
        Other<Defaulted<ANames<2>, String, ACDefault>>,
    ),
);
=>
        let c_is_first = Required::<ANames<1>, u8>::append_fields(
            &&value.b, alloc, b_is_first, inner, s,
        )?;
        Required::<ANames<2>, String>::append_fields(&&value.c, alloc, c_is_first, inner, s)?;
=>
        append_required(alloc, "b", &value.b, inner, s)?;
"#;

/// Lines of the files beside the sources.
pub(crate) const DEFAULT_FILES: &str = r#"// nanoserde: json ron
struct A {
    // nanoserde: default
    a: Vec<A>,
    // nanoserde: default = "-7"
    b: i8,
}
=>
    fields_pair_layer (defaulted_layer json_fields (codes "a") (seen_layer (λ x. x.items) (list_layer block_style block_brackets itself_layer)) nothing) (other_fields json_fields (defaulted_field (codes "b") i8_codec (number (neg_ℤ (pos 7)))))
=>
(other_fields ron_fields (defaulted_field (codes "b") i8_codec (number (neg_ℤ (pos 7)))))
"#;
