//! Tuple structs of more parts than a tuple has, and lines that are written of each, as in `forms`.

/// A struct of five to eight parts is the first of them and the others.
pub(crate) const WIDE: &str = r#"// nanoserde: bin json ron
struct A(u8, String, bool, Vec<u16>, i64);
=>
use nano_json_schema::{
    DeJson, DeJsonState, JsonCodec, JsonParts, JsonResult, SerJson, SerJsonState,
};
=>
type AFields = (
    Newtype<u8>,
    (
        Newtype<String>,
        (Newtype<bool>, (Newtype<Vec<u16>>, Newtype<i64>)),
    ),
);
=>
    type Values = <AFields as Shape>::Values;

    ghost view = { λ x. (x.0, (x.1, (x.2, (x.3, x.4)))) };
=>
        let (first, (second, (third, (fourth, fifth)))) = values;
        A(first, second, third, fourth, fifth)
=>
        (&self.0, (&self.1, (&self.2, (&self.3, &self.4))))
=>
    ghost bin = { bin_of ⟦<A as StructSchema>⟧.view ⟦<AFields as BinShape>⟧.codec };
=>
        nano_bin_schema::read_record_bin::<Self, AFields>(alloc, offset, bytes)
=>
ghost use Rattle.nano_json_schema.specs.Structs.{tuple_json_of};
=>
    ghost json = { tuple_json_of ⟦<A as StructSchema>⟧.view ⟦<AFields as JsonParts>⟧.codec };

    ghost agrees = { agreed };
=>
        nano_json_schema::write_tuple_json::<Self, AFields>(self, alloc, d, s)
=>
        nano_json_schema::read_tuple_json::<Self, AFields>(alloc, state, input)
=>
    ghost ron = { tuple_ron_of ⟦<A as StructSchema>⟧.view ⟦<AFields as RonParts>⟧.codec };
=>
        nano_ron_schema::write_tuple_ron::<Self, AFields>(self, alloc, d, s)
=>
        nano_ron_schema::read_tuple_ron::<Self, AFields>(alloc, state, input)
----
// nanoserde: bin json
struct A<T>(u8, T, Vec<T>, bool, u16, (T, u8));
=>
type AFields<T> = (
    Newtype<u8>,
    (
        Newtype<T>,
        (
            Newtype<Vec<T>>,
            (Newtype<bool>, (Newtype<u16>, Newtype<(T, u8)>)),
        ),
    ),
);
=>
impl<T: BinCodec> BinCodec for A<T> {
    ghost bin = { bin_of ⟦<A<T> as StructSchema>⟧.view ⟦<AFields<T> as BinShape>⟧.codec };

    ghost agrees = { seen_agrees (pair_agrees (agreed {means = ⟦<u8 as Value>⟧.means} {legal =
        ⟦<u8 as Value>⟧.legal}) (pair_agrees T.agrees (pair_agrees (seen_agrees (list_agrees
        T.agrees) (λ x. x.items)) (pair_agrees (agreed {means = ⟦<bool as Value>⟧.means} {legal =
        ⟦<bool as Value>⟧.legal}) (pair_agrees (agreed {means = ⟦<u16 as Value>⟧.means} {legal =
        ⟦<u16 as Value>⟧.legal}) (seen_agrees (pair_agrees T.agrees (agreed {means =
        ⟦<u8 as Value>⟧.means} {legal = ⟦<u8 as Value>⟧.legal})) (λ x. (x.0, x.1)))))))) (λ x.
        (x.0, (x.1, (x.2, (x.3, (x.4, x.5)))))) };
=>
    ghost is_decodable = { (both_are_read refl (both_are_read T.is_decodable (both_are_read
        T.is_decodable (both_are_read refl (both_are_read refl (both_are_read T.is_decodable
        refl)))))) };
=>
    ghost json = { tuple_json_of ⟦<A<T> as StructSchema>⟧.view ⟦<AFields<T> as JsonParts>⟧.codec };

    ghost agrees = { seen_agrees (pair_agrees (agreed {means = ⟦<u8 as Value>⟧.means} {legal =
=>
        match nano_json_schema::read_tuple_json::<Self, AFields<T>>(alloc, state, input) {
            Ok(value) => {
                means_as_json::<Self>(&value);
                Ok(value)
            }
----
// nanoserde: ron
struct TheTypeWhoseNameIsSoLongThatCallsAreCut(u8, u8, u8, u8, u8, u8, u8, bool);
=>
                (Newtype<u8>, (Newtype<u8>, (Newtype<u8>, Newtype<bool>))),
=>
    ghost view = { λ x. (x.0, (x.1, (x.2, (x.3, (x.4, (x.5, (x.6, x.7))))))) };
=>
        let (first, (second, (third, (fourth, (fifth, (sixth, (seventh, eighth))))))) = values;
        TheTypeWhoseNameIsSoLongThatCallsAreCut(
            first, second, third, fourth, fifth, sixth, seventh, eighth,
        )
=>
        (
            &self.0,
            (
                &self.1,
                (&self.2, (&self.3, (&self.4, (&self.5, (&self.6, &self.7))))),
            ),
        )
"#;
