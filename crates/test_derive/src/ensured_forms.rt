//! Sources with skipped fields that `make` makes, and lines that are written of each, as in `forms`.

/// What `make` ensures of each kind of default: a number, with its sign, a truth value, and that of a
/// type, whose name may be long.
pub(crate) const ENSURED: &str = r#"// nanoserde: bin
struct A<T> {
    a: T,
    // nanoserde: skip, default = "5"
    b: i8,
    // nanoserde: skip, default = "-5"
    c: i128,
    // nanoserde: skip, default = "true"
    d: bool,
    // nanoserde: skip
    what_was_found: Option<(u8, Vec<Option<bool>>)>,
}
=>
        ensures seen { ⟦<A<T> as StructSchema>⟧.view result ≡ values }
        ensures skipped { (result.b ≡ pos 5)
            × (result.c ≡ neg_ℤ (pos 5))
            × (result.d ≡ true)
            × (⟦<Option<(u8, Vec<Option<bool>>)> as std::default::Default>⟧.is_default
            result.what_was_found) }
    {
----
// nanoserde: bin
enum A {
    B,
    C {
        // nanoserde: skip, default = "false"
        a: bool,
        b: u8,
        // nanoserde: skip, default = "-1"
        c: i64,
    },
    D(u8),
    E {
        // nanoserde: skip
        a: Option<(u8, Vec<Option<Option<bool>>>)>,
    },
}
=>
        ensures skipped { elim result [
          | C v0 v1 v2 ↦ (v0 ≡ false)
              × (v2 ≡ neg_ℤ (pos 1))
          | E v0 ↦ ⟦<Option<(u8, Vec<Option<Option<bool>>>)> as std::default::Default>⟧.is_default
              v0
          | _ ↦ ⊤
        ] }
    {
"#;
