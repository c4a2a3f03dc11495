//! The impls of a type in each of its formats.

use crate::codec::{BIN, Codec, DEFINITION, JSON, RON};
use crate::forms::{Form, OPEN, STRICT};
use crate::means::with_law;
use crate::sheet::Sheet;
use crate::target::Target;
use derive_syntax::{Directions, Holes};
use std::alloc::AllocError;

/// Appends the impls of each format that is named above the type: what it is in bytes, and what in
/// a text.
pub(crate) fn append_codecs<'a>(
    sheet: &mut Sheet,
    target: &Target<'a>,
    in_bytes: &Form<'_>,
    in_text: &Form<'_>,
) -> Result<(), AllocError> {
    let named = target.attributes;
    let denies = named.deny_unknown.is_some();
    let allows = named.allow_unknown.is_some();
    let in_json = if denies { STRICT } else { *in_text };
    let in_ron = if allows { OPEN } else { *in_text };
    let [bin, _, _] = in_bytes.imports;
    let [_, json, _] = in_json.imports;
    let [_, _, ron] = in_ron.imports;
    append_codec(sheet, target, in_bytes, bin, &BIN, named.bin)?;
    append_codec(sheet, target, &in_json, json, &JSON, named.json)?;
    append_codec(sheet, target, &in_ron, ron, &RON, named.ron)
}

/// Appends the impls of a format, as far as it is used.
fn append_codec<'a>(
    sheet: &mut Sheet,
    target: &Target<'a>,
    form: &Form<'_>,
    imports: &[&'static str],
    codec: &Codec,
    directions: Directions,
) -> Result<(), AllocError> {
    if !directions.is_used() {
        return Ok(());
    }
    for line in imports {
        sheet.import(*line);
    }
    import_cited(sheet, target.agreement.agrees.as_str());
    append_impl(sheet, target, codec, CODEC, (DEFINITION, form.term, ""), "")?;
    if directions.writes {
        let (writer, arguments) = codec.writer;
        append_impl(
            sheet,
            target,
            codec,
            SER,
            (writer, form.write, arguments),
            "",
        )?;
    }
    if directions.reads {
        append_reader(sheet, target, form, codec)?;
    }
    Ok(())
}

/// Appends the impl by which a value is read.
fn append_reader<'a>(
    sheet: &mut Sheet,
    target: &Target<'a>,
    form: &Form<'_>,
    codec: &Codec,
) -> Result<(), AllocError> {
    if codec.says_decodable {
        import_cited(sheet, target.agreement.decodable.as_str());
    }
    let (reader, arguments) = codec.reader;
    let read = if target.is_deep && form.is_by_codec {
        with_law(sheet, codec, form.read)?
    } else {
        String::from_str(sheet.alloc, form.read)?
    };
    // Of a deep type it would need the law, too.
    let taker = if codec.takes_plainly && !target.is_deep {
        form.taker
    } else {
        ""
    };
    let body = (reader, read.as_str(), arguments);
    append_impl(sheet, target, codec, DE, body, taker)
}

const CODEC: &str = ": nano_$MODULE_schema::$NAMECodec";

const SER: &str = ": nano_$MODULE_schema::Ser$NAME";

const DE: &str = ": nano_$MODULE_schema::De$NAME";

/// Appends an impl, whose parameters have this bound: its template, its body, and the arguments
/// there, and a further method.
fn append_impl<'a>(
    sheet: &mut Sheet,
    target: &Target<'a>,
    codec: &Codec,
    bound: &str,
    (template, body, arguments): (&str, &str, &str),
    taker: &str,
) -> Result<(), AllocError> {
    let alloc = sheet.alloc;
    let mut holes = target.holes(alloc);
    holes.put("MODULE", codec.module);
    holes.put("NAME", codec.name);
    holes.put("PROOF", codec.proof);
    holes.put("CHOSEN", codec.chosen);
    holes.put("ARGUMENTS", arguments);
    holes.put("AGREES", target.agreement.agrees.as_str());
    holes.put("DECODABLE", target.agreement.decodable.as_str());
    let body = holes.fill(body)?;
    holes.put("BODY", body.as_str());
    let taker = holes.fill(taker)?;
    holes.put("TAKER", taker.as_str());
    let bound = holes.fill(bound)?;
    let bounds = target.bounds(alloc, bound.as_str())?;
    holes.put("BOUNDS", bounds.as_str());
    let text = holes.fill(template)?;
    sheet.write(text.as_str(), &Holes::new(alloc));
    Ok(())
}

/// Brings in what a ghost term cites.
fn import_cited(sheet: &mut Sheet, term: &str) {
    for (name, line) in &CITED {
        if term.contains(*name) {
            sheet.import(*line);
        }
    }
}

/// The names that the terms of a definition may cite, and the lines that bring them in.
const CITED: [(&str, &str); 10] = [
    (
        "agreed",
        "ghost use Rattle.nano_schema.specs.UserTypes.{agreed};",
    ),
    (
        "seen_agrees",
        "ghost use Rattle.nano_schema.specs.UserTypes.{seen_agrees};",
    ),
    (
        "pair_agrees",
        "ghost use Rattle.nano_schema.specs.UserTypes.{pair_agrees};",
    ),
    (
        "option_agrees",
        "ghost use Rattle.nano_schema.specs.UserTypes.{option_agrees};",
    ),
    (
        "list_agrees",
        "ghost use Rattle.nano_schema.specs.UserTypes.{list_agrees};",
    ),
    (
        "last_agrees",
        "ghost use Rattle.nano_schema.specs.UserTypes.{last_agrees};",
    ),
    (
        "next_agrees",
        "ghost use Rattle.nano_schema.specs.UserTypes.{next_agrees};",
    ),
    (
        "choice_agrees",
        "ghost use Rattle.nano_schema.specs.UserTypes.{choice_agrees};",
    ),
    ("refl", "ghost use Rattle.std.specs.Prelude.{refl};"),
    (
        "both_are_read",
        "ghost use Rattle.nano_bin_schema.specs.Structs.{both_are_read};",
    ),
];
