//! Names in each case of `rename_all`, as serde has them.

use crate::outcome::outcome_above;
use std::alloc::{AllocError, Global};
use std::process::Abort;

/// A struct, whose fields have these names in each case.
const STRUCT: &str = "struct A {
    outcome: u8,
    very_tasty: u8,
    a: u8,
    z42: u8,
    _foo__barBaz: u8,
}";

const FIELDS: &str = "lowercase outcome very_tasty a z42 _foo__barBaz
UPPERCASE OUTCOME VERY_TASTY A Z42 _FOO__BARBAZ
PascalCase Outcome VeryTasty A Z42 FooBarBaz
camelCase outcome veryTasty a z42 fooBarBaz
snake_case outcome very_tasty a z42 _foo__barBaz
SCREAMING_SNAKE_CASE OUTCOME VERY_TASTY A Z42 _FOO__BARBAZ
kebab-case outcome very-tasty a z42 -foo--barBaz
SCREAMING-KEBAB-CASE OUTCOME VERY-TASTY A Z42 -FOO--BARBAZ";

/// An enum, whose variants have these names in each case. That of the field is as it stands.
const ENUM: &str = "enum A {
    Outcome,
    VeryTasty(u8),
    A,
    Z42 { field_of: u8 },
    HTTPServer_v2,
}";

const VARIANTS: &str = "lowercase outcome verytasty a z42 httpserver_v2 field_of
UPPERCASE OUTCOME VERYTASTY A Z42 HTTPSERVER_V2 field_of
PascalCase Outcome VeryTasty A Z42 HTTPServer_v2 field_of
camelCase outcome veryTasty a z42 hTTPServer_v2 field_of
snake_case outcome very_tasty a z42 h_t_t_p_server_v2 field_of
SCREAMING_SNAKE_CASE OUTCOME VERY_TASTY A Z42 H_T_T_P_SERVER_V2 field_of
kebab-case outcome very-tasty a z42 h-t-t-p-server-v2 field_of
SCREAMING-KEBAB-CASE OUTCOME VERY-TASTY A Z42 H-T-T-P-SERVER-V2 field_of";

/// The names that are written of a type in a case, each after a space.
fn names(alloc: Global, of: &str, case: &str) -> Result<String, AllocError> {
    let above = format!(in alloc; "// nanoserde: json, rename_all = \"{case}\"\n{of}")?;
    let written = outcome_above(alloc, above.as_str())?;
    let mut names = String::new(alloc);
    for part in written.as_str().split("codes \"").skip(1) {
        let (name, _after) = part.split_once('"').unwrap_or(("", ""));
        names.push(' ')?;
        names.push_str(name)?;
    }
    Ok(names)
}

/// Each row is a case, and the names in it.
fn are_written(rt: &impl Abort, alloc: Global, of: &str, rows: &str) {
    for row in rows.lines() {
        let (case, _after) = row.split_once(' ').unwrap_or((row, ""));
        match names(alloc, of, case) {
            Ok(names) => {
                assert!(rt;
                    row.strip_prefix(case) == Some(names.as_str()),
                    "{case}{names}"
                );
            }
            Err(_failed) => assert!(rt; false, "no memory"),
        }
    }
}

#[test]
fn fields_are_named_in_each_case(rt: HostRuntime) {
    are_written(&rt, rt.alloc(), STRUCT, FIELDS);
}

#[test]
fn variants_are_named_in_each_case(rt: HostRuntime) {
    are_written(&rt, rt.alloc(), ENUM, VARIANTS);
}
