//! Keys, and after each, parted by `=>`, lines that are written of it. A line of hyphens parts
//! them.

/// A struct is a key by its parts, and an enum by the places of its variants.
pub(crate) const KEYS: &str = r#"// nanoserde: json key
#[derive(PartialEq, Eq, PartialOrd, Ord, Hash)]
struct A(i64);
=>
impl Key for A {
    ghost order = { ⟦<AFields as Key>⟧.order };

    ghost exact = { λ x y. exact_signed.exact x.0 y.0 };
}

impl OrderedKey for A {
    ghost follows = { λ x y. ordered_signed.follows x.0 y.0 };
}
----
// nanoserde: bin, key
#[derive(Debug, PartialEq, Eq, PartialOrd, Ord, Hash, Drop)]
struct A<T>(T)
where
    T: Clone;
=>
impl<T: Key> Key for A<T>
where
    T: Clone,
{
    ghost order = { ⟦<AFields<T> as Key>⟧.order };

    ghost exact = { λ x y. (exact_by T.eq T.means T.exact).exact x.0 y.0 };
=>
    ghost follows = { λ x y. (ordered_by T.cmp T.means T.order T.follows).follows x.0 y.0 };
----
// nanoserde: bin key
#[derive(PartialEq, Eq, PartialOrd, Ord, Hash)]
struct A((bool, usize), (), (String, u8, (i8, u128)));
=>
    ghost order = { ⟦<AValues as Key>⟧.order };
=>
    ghost exact = { λ x y. (exact_pair (exact_pair exact_bool exact_unsigned) (exact_pair
=>
(x.0, (x.1, x.2)) (y.0, (y.1, y.2)) };
----
// nanoserde: json key
#[derive(PartialEq, Eq, PartialOrd, Ord, Hash)]
enum B {
    Low,
    // nanoserde: rename = "high"
    High,
}
// nanoserde: json key
#[derive(PartialEq, Eq, PartialOrd, Ord, Hash)]
struct A(B, B);
=>
impl Key for B {
    ghost use Rattle.app.specs.declared.shapes.B.TheVariants.{Low as B_Low, High as B_High};

    ghost order = { variants };

    ghost exact = { variants_tell (λ x. elim x as (IsPlaced ⟦<B as Value>⟧.means (B_Low ∷ B_High
        ∷ [])) [
          | B_Low ↦ placed refl
          | B_High ↦ placed refl
        ]) ⟦<B as PartialEq>⟧.eq refl };
}
=>
        ]) ⟦<B as Ord>⟧.cmp refl };
=>
    ghost exact = { λ x y. (exact_pair (exact_by ⟦<B as PartialEq>⟧.eq ⟦<B as Value>⟧.means
"#;
