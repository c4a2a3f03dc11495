//! The type parameters of types that contain themselves: what each impl asks of them, and what the
//! definitions of the type are given.

use crate::output::nested_bodies::{Held, parts_of};
use crate::output::nested_names::specs_of;
use crate::output::nested_text::first_text;
use derive_impls::sheet::Sheet;
use derive_impls::target::Target;
use derive_syntax::{Case, Content, Holes, Token};
use std::alloc::{AllocError, Global};

/// What stands in the names of the traits of a format, by its name.
fn word_of(format: &str) -> &'static str {
    match format {
        "json" => "Json",
        "ron" => "Ron",
        _ => "Bin",
    }
}

/// The name of the first format of a type.
pub(crate) fn first_name<'a>(target: &Target<'a>) -> &'static str {
    match first_text(target.attributes) {
        Some(format) => format.name,
        None => "bin",
    }
}

/// The parameters in angle brackets, if there are any.
pub(crate) fn arguments<'a>(alloc: Global, target: &Target<'a>) -> Result<String, AllocError> {
    named(alloc, &target.parameters, "")
}

/// These parameters, each with a bound, in angle brackets, if there are any.
fn named<'a>(alloc: Global, parameters: &[Token<'a>], bound: &str) -> Result<String, AllocError> {
    let mut text = String::new(alloc);
    for parameter in parameters {
        text.push_str(if text.is_empty() { "<" } else { ", " })?;
        text.push_str(parameter.text)?;
        text.push_str(bound)?;
    }
    if !text.is_empty() {
        text.push('>')?;
    }
    Ok(text)
}

/// Those of the parameters of a type that what a variant holds names, in angle brackets.
pub(crate) fn arguments_in<'a>(
    alloc: Global,
    target: &Target<'a>,
    content: &Content<'a>,
) -> Result<String, AllocError> {
    let types = parts_of(alloc, content)?;
    let mut found = Vec::new(alloc);
    for parameter in &target.parameters {
        if is_named(*parameter, &types) {
            found.push(*parameter)?;
        }
    }
    named(alloc, &found, "")
}

/// Whether a parameter stands in one of these parts.
fn is_named<'a>(parameter: Token<'a>, parts: &[Held<'a>]) -> bool {
    for part in parts {
        if part.of.parameter_of(&[parameter]).is_some() {
            return true;
        }
    }
    false
}

/// The parameters with these bounds in formats each, in angle brackets, if there are any: the
/// beginning of a trait's name, its end, and the name of the format.
fn bounded<'a>(
    sheet: &mut Sheet,
    target: &Target<'a>,
    bounds: &[(&str, &str, &str)],
) -> Result<String, AllocError> {
    let alloc = sheet.alloc;
    let mut bound = String::new(alloc);
    for (begin, end, format) in bounds {
        let between = if bound.is_empty() { ": " } else { " + " };
        sheet.add(&mut bound, between);
        let word = word_of(*format);
        let path = sheet.made(format!(in alloc; "nano_{format}_schema::{begin}{word}{end}"));
        if !target.parameters.is_empty() {
            bound.push_str(sheet.short(path.as_str()).as_str())?;
        }
    }
    named(alloc, &target.parameters, bound.as_str())
}

/// Puts what the impls ask that no format has.
pub(crate) fn put_shared<'a>(
    holes: &mut Holes,
    sheet: &mut Sheet,
    target: &Target<'a>,
) -> Result<(), AllocError> {
    let (alloc, first) = (sheet.alloc, first_name(target));
    let name = Case::Snake.of_variant(alloc, target.name.text)?;
    let means = sheet.made(format!(in alloc; "{name}_means"));
    let none = bounded(sheet, target, &[])?;
    holes.put("BY_NONE", none.as_str());
    let value = bounded(sheet, target, &[("", "Codec", first)])?;
    holes.put("BY_VALUE", value.as_str());
    let meant = sheet.made(meant(alloc, target, means.as_str(), first));
    holes.put("IS_MEANT", meant.as_str());
    Ok(())
}

/// Puts what the impls of a format ask.
pub(crate) fn put_bounds<'a>(
    holes: &mut Holes,
    sheet: &mut Sheet,
    target: &Target<'a>,
    format: &str,
) -> Result<(), AllocError> {
    let first = first_name(target);
    let is_first = first == format;
    for (hole, begin, end) in [
        ("BY_CODEC", "", "Codec"),
        ("BY_SER", "Ser", ""),
        ("BY_DE", "De", ""),
    ] {
        let own = (begin, end, format);
        let bounds = if is_first {
            bounded(sheet, target, &[own])?
        } else {
            bounded(sheet, target, &[("", "Codec", first), own])?
        };
        holes.put(hole, bounds.as_str());
    }
    let nested = bounded(sheet, target, &[("", "Codec", format)])?;
    holes.put("BY_NESTED", nested.as_str());
    let levels = bounded(sheet, target, &[("De", "", format)])?;
    holes.put("BY_LEVELS", levels.as_str());
    Ok(())
}

/// What a function asks of the parameters that writes a type in a format of texts.
pub(crate) fn writer_bounds<'a>(
    sheet: &mut Sheet,
    target: &Target<'a>,
    format: &str,
) -> Result<String, AllocError> {
    let first = first_name(target);
    if first == format {
        return bounded(sheet, target, &[("Ser", "", format)]);
    }
    bounded(sheet, target, &[("", "Codec", first), ("Ser", "", format)])
}

/// A definition with the codecs of the parameters in a format, by their names.
pub(crate) fn given<'a>(
    alloc: Global,
    target: &Target<'a>,
    definition: &str,
    format: &str,
) -> Result<String, AllocError> {
    with_each(alloc, target, definition, (".", format, ""))
}

/// The same as one term.
pub(crate) fn given_term<'a>(
    alloc: Global,
    target: &Target<'a>,
    definition: &str,
    format: &str,
) -> Result<String, AllocError> {
    let term = given(alloc, target, definition, format)?;
    if target.parameters.is_empty() {
        return Ok(term);
    }
    format!(in alloc; "({term})")
}

/// What a value means, where the values of the parameters mean what their codecs in a format say.
pub(crate) fn meant<'a>(
    alloc: Global,
    target: &Target<'a>,
    definition: &str,
    format: &str,
) -> Result<String, AllocError> {
    with_each(alloc, target, definition, (".", format, ".canonical.means"))
}

/// A definition, and each parameter with what stands around the name of a format.
fn with_each<'a>(
    alloc: Global,
    target: &Target<'a>,
    definition: &str,
    (before, format, after): (&str, &str, &str),
) -> Result<String, AllocError> {
    let mut text = String::from_str(alloc, definition)?;
    for parameter in &target.parameters {
        let name = parameter.text;
        text.push_str(format!(in alloc; " {name}{before}{format}{after}")?.as_str())?;
    }
    Ok(text)
}

/// Puts that a type is read, if its parameters are.
pub(crate) fn put_read<'a>(
    holes: &mut Holes,
    sheet: &mut Sheet,
    target: &Target<'a>,
) -> Result<(), AllocError> {
    let alloc = sheet.alloc;
    if target.parameters.is_empty() {
        sheet.import("ghost use Rattle.std.specs.Prelude.{refl};");
        holes.put("CITES_READ", "");
        holes.put("IS_READ", "refl");
        return Ok(());
    }
    let name = Case::Snake.of_variant(alloc, target.name.text)?;
    let specs = sheet.made(specs_of(alloc, target.module, ""));
    let cited = sheet.made(format!(in alloc;
        "    ghost use Rattle.{specs}.{{{name}_is_read}};\n\n"
    ));
    let law = sheet.made(format!(in alloc; "{name}_is_read"));
    let mut term = sheet.made(given(alloc, target, law.as_str(), "bin"));
    for parameter in &target.parameters {
        sheet.add_made(
            &mut term,
            format!(in alloc; " {}.is_decodable", parameter.text),
        );
    }
    holes.put("CITES_READ", cited.as_str());
    holes.put("IS_READ", term.as_str());
    Ok(())
}

/// Puts that a format of texts agrees with the values of the type.
pub(crate) fn put_agreement<'a>(
    holes: &mut Holes,
    sheet: &mut Sheet,
    target: &Target<'a>,
    format: &str,
) -> Result<(), AllocError> {
    let (alloc, first) = (sheet.alloc, first_name(target));
    if target.parameters.is_empty() || first == format {
        sheet.import("ghost use Rattle.nano_schema.specs.UserTypes.{agreed};");
        holes.put("AND_LAW", "");
        holes.put("AGREED", "agreed");
        return Ok(());
    }
    sheet.import("ghost use Rattle.nano_schema_levels.proofs.LegalLevelsLaws.{between};");
    let name = Case::Snake.of_variant(alloc, target.name.text)?;
    let law = sheet.made(format!(in alloc; "{name}_{format}_agrees"));
    let own = sheet.made(given(alloc, target, law.as_str(), format));
    let mut term = sheet.made(given(alloc, target, own.as_str(), first));
    for parameter in &target.parameters {
        let (of, here, there) = (parameter.text, word_of(format), word_of(first));
        let same = sheet.made(format!(in alloc;
            " (between {of}.{there}Codec.agrees {of}.{here}Codec.agrees)"
        ));
        sheet.add(&mut term, same.as_str());
    }
    holes.put_made("AND_LAW", format!(in alloc; ", {law}"));
    holes.put("AGREED", term.as_str());
    Ok(())
}
