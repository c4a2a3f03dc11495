//! What the ghost terms of keys cite.

/// The names that the terms of a key may cite, and the lines that bring them in.
pub(crate) const CITED: [(&str, &str); 24] = [
    (
        "exact_by",
        "ghost use Rattle.nano_schema.specs.UserTypes.{exact_by};",
    ),
    (
        "ordered_by",
        "ghost use Rattle.nano_schema.specs.UserTypes.{ordered_by};",
    ),
    (
        "exact_unsigned",
        "ghost use Rattle.nano_schema.specs.UserTypes.{exact_unsigned};",
    ),
    (
        "ordered_unsigned",
        "ghost use Rattle.nano_schema.specs.UserTypes.{ordered_unsigned};",
    ),
    (
        "exact_signed",
        "ghost use Rattle.nano_schema.specs.UserTypes.{exact_signed};",
    ),
    (
        "ordered_signed",
        "ghost use Rattle.nano_schema.specs.UserTypes.{ordered_signed};",
    ),
    (
        "exact_bool",
        "ghost use Rattle.nano_schema.specs.UserTypes.{exact_bool};",
    ),
    (
        "ordered_bool",
        "ghost use Rattle.nano_schema.specs.UserTypes.{ordered_bool};",
    ),
    (
        "exact_unit",
        "ghost use Rattle.nano_schema.specs.UserTypes.{exact_unit};",
    ),
    (
        "ordered_unit",
        "ghost use Rattle.nano_schema.specs.UserTypes.{ordered_unit};",
    ),
    (
        "exact_text",
        "ghost use Rattle.nano_schema.specs.UserTypes.{exact_text};",
    ),
    (
        "ordered_text",
        "ghost use Rattle.nano_schema.specs.UserTypes.{ordered_text};",
    ),
    (
        "exact_pair",
        "ghost use Rattle.nano_schema.specs.UserTypes.{exact_pair};",
    ),
    (
        "ordered_pair",
        "ghost use Rattle.nano_schema.specs.UserTypes.{ordered_pair};",
    ),
    (
        "exact_triple",
        "ghost use Rattle.nano_schema.specs.UserTypes.{exact_triple};",
    ),
    (
        "ordered_triple",
        "ghost use Rattle.nano_schema.specs.UserTypes.{ordered_triple};",
    ),
    (
        "exact_quadruple",
        "ghost use Rattle.nano_schema.specs.UserTypes.{exact_quadruple};",
    ),
    (
        "ordered_quadruple",
        "ghost use Rattle.nano_schema.specs.UserTypes.{ordered_quadruple};",
    ),
    (
        "IsPlaced",
        "ghost use Rattle.nano_schema.specs.UserTypes.{IsPlaced};",
    ),
    (
        "variants_tell",
        "ghost use Rattle.nano_schema.specs.UserTypes.{variants_tell};",
    ),
    (
        "variants_follow",
        "ghost use Rattle.nano_schema.specs.UserTypes.{variants_follow};",
    ),
    (
        "placed",
        "ghost use Rattle.nano_schema.specs.UserTypes.{placed};",
    ),
    ("refl", "ghost use Rattle.std.specs.Prelude.{refl};"),
    ("∷", "ghost use Rattle.std.specs.Prelude.{◌∷◌, []};"),
];
