//! The defaults of types, made through their bound. The tables of `conformance_run` have those of
//! fields.

use crate::type_checks::is_so;
use nano_schema::{DefaultOf, TypeDefault};
use nano_value::Value;
use std::alloc::{AllocError, Global};

/// Whether a default, made through its bound, is this value.
fn is_default<T: Value + PartialEq + Drop, D: DefaultOf<T>>(
    alloc: Global,
    expected: &T,
) -> Result<bool, AllocError> {
    Ok(D::default(alloc)? == *expected)
}

#[test]
fn types_have_defaults(rt: HostRuntime) {
    let alloc = rt.alloc();
    let number = is_default::<u128, TypeDefault>(alloc, &0);
    is_so(&rt, number, "a number");
    let truth = is_default::<bool, TypeDefault>(alloc, &false);
    is_so(&rt, truth, "a truth value");
    let text = is_default::<String, TypeDefault>(alloc, &String::new(alloc));
    is_so(&rt, text, "a text");
    let option = is_default::<Option<String>, TypeDefault>(alloc, &None);
    is_so(&rt, option, "an option");
}
