//! Sources, and lines that are written of each, as in `forms`: type parameters, and paths.

/// Each impl has the bounds of its type.
pub(crate) const BOUNDED: &str = r#"// nanoserde: bin
struct A<T: Clone + PartialEq<u8>, U>
where
    U: Ord + 'static,
    Vec<T>: self::B,
{
    a: T,
    b: U,
}
=>
impl<T: Value, U: Value> StructSchema for A<T, U>
where
    T: Clone + PartialEq<u8>,
    U: Ord + 'static,
    Vec<T>: super::B,
{
    type Values = <AFields<T, U> as Shape>::Values;
=>
impl<'a, T: Value + 'a, U: Value + 'a> FieldRefs<'a> for A<T, U>
where
    T: Clone + PartialEq<u8>,
=>
impl<T: DeBin, U: DeBin> DeBin for A<T, U>
where
    T: Clone + PartialEq<u8>,
----
// nanoserde: json
struct A<T>(T) where T: Clone;
=>
impl<T: Value> Value for A<T>
where
    T: Clone,
{
=>
impl<T: SerJson> SerJson for A<T>
where
    T: Clone,
{
----
// nanoserde: ron
enum A<T: Label> {
    B(T),
}
=>
impl<T: Value> EnumSchema for A<T>
where
    T: Label,
{
=>
impl nano_schema::Label for AName {
=>
impl<'a, T: Value + 'a> VariantRefs<'a> for A<T>
where
    T: Label,
{
----
// nanoserde: ron
struct A<T>(T)
where
    T: TheVeryFirstOfTheTraits + TheVerySecondOfTheTraits
        + TheThirdOfTheTraits + TheFourthOfTheTraits;
=>
where
    T: TheVeryFirstOfTheTraits
        + TheVerySecondOfTheTraits
        + TheThirdOfTheTraits
        + TheFourthOfTheTraits,
{
"#;

/// A type that holds others agrees as they do.
pub(crate) const HELD: &str = r#"// nanoserde: bin
struct A<T, U>(Vec<Option<Box<T>>>, (u8, U, Vec<T>));
=>
    ghost agrees = { seen_agrees (pair_agrees (seen_agrees (list_agrees (option_agrees
        (seen_agrees T.agrees (λ x. x.value)))) (λ x. x.items)) (seen_agrees (pair_agrees (agreed
=>
 (pair_agrees U.agrees
        (seen_agrees (list_agrees T.agrees) (λ x. x.items)))) (λ x. (x.0, (x.1, x.2))))) (λ x.
        (x.0, x.1)) };
=>
    ghost is_decodable = { (both_are_read T.is_decodable (both_are_read refl (both_are_read
        U.is_decodable T.is_decodable))) };
=>
fn means_as_bin<T: BinCodec>(value: &T)
    ensures { T.bin.canonical.means value.now ≡ T.means value.now }
{
    let _value = value;
}
=>
        match nano_bin_schema::read_record_bin::<Self, AFields<T, U>>(alloc, offset, bytes) {
            Ok(value) => {
                means_as_bin::<Self>(&value);
                Ok(value)
            }
            Err(error) => Err(error),
        }
----
// nanoserde: json
enum A<T> {
    B(Vec<(T, u8)>),
}
=>
        match nano_json_schema::read_choice_json::<Self, AVariants<T>>(alloc, state, input) {
            Ok(value) => {
                means_as_json::<Self>(&value);
                Ok(value)
            }
----
use std::collections::LinkedList;
// nanoserde: json
struct A<T> {
    a: LinkedList<std::vec::Vec<std::boxed::Box<T>>>,
    b: std::option::Option<T>,
}
=>
type AFields<T> = (
    Required<ANames<0>, LinkedList<std::vec::Vec<std::boxed::Box<T>>>>,
    Optional<ANames<1>, T>,
);
=>
    ghost agrees = { seen_agrees (pair_agrees (list_agrees (seen_agrees (list_agrees (seen_agrees
        T.agrees (λ x. x.value))) (λ x. x.items))) (option_agrees T.agrees))
"#;

/// A path names what it names in the file of the definitions.
pub(crate) const PATHS: &str = r#"// nanoserde: json
struct A {
    a: crate::b::B,
    b: self::B,
    c: Vec<super::B>,
    d: Option<self::super::c::B>,
    // nanoserde: default = "super::D"
    e: (super::super::B, b::B),
    // nanoserde: default = "self::D"
    f: u8,
    // nanoserde: default = "crate::D"
    g: u8,
}
=>
        Required<ANames<0>, crate::b::B>,
        (
            Required<ANames<1>, super::B>,
            Required<ANames<2>, Vec<super::super::B>>,
        ),
=>
    Optional<ANames<3>, super::super::c::B>,
=>
    Defaulted<ANames<4>, (super::super::super::B, b::B), super::super::D>,
=>
    Defaulted<ANames<5>, u8, super::D>,
=>
    Defaulted<ANames<6>, u8, crate::D>,
----
// nanoserde: json
struct A<B>(pub (super::c::C, u8), crate::b::B, pub(super) B);
=>
type AValues<B> = ((super::super::c::C, u8), crate::b::B, B);
=>
        ⟦<(super::super::c::C, u8) as Value>⟧.legal}) (pair_agrees (agreed {means =
        ⟦<crate::b::B as Value>⟧.means} {legal = ⟦<crate::b::B as Value>⟧.legal}) B.agrees)) (λ
"#;
