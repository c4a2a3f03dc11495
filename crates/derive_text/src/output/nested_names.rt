//! The names that stand in the impls of a type that contains itself: those of its definitions and of
//! its laws.

use crate::output::nested_parameters::{given_term, put_shared};
use crate::output::nested_text::first_text;
use derive_impls::sheet::Sheet;
use derive_impls::target::Target;
use derive_syntax::{Attributes, Case, Holes, Variant, codecs_name, crate_of};
use std::alloc::{AllocError, Global};

/// Adds the laws that tactics name: those by which an enum is made, a struct is known to be legal,
/// and a value is written.
pub(crate) fn put_laws<'a>(
    holes: &mut Holes,
    alloc: Global,
    target: &Target<'a>,
    is_enum: bool,
) -> Result<(), AllocError> {
    let laws = laws_of(alloc, target, "")?;
    let views = format!(in alloc; "    #[tactic(auto, using({laws}_views))]\n")?;
    let first = laws_of(alloc, target, first_infix(target.attributes))?;
    let legal = format!(in alloc; "    #[tactic(auto, using({first}_legal))]\n")?;
    holes.put("LAWS", laws.as_str());
    if is_enum {
        holes.put("VIEWS", views.as_str());
        holes.put("LEGAL", "");
    } else {
        holes.put("VIEWS", "");
        holes.put("LEGAL", legal.as_str());
    }
    Ok(())
}

/// The beginning of the names of the laws of a type, in all formats or in one of texts.
pub(crate) fn laws_of<'a>(
    alloc: Global,
    target: &Target<'a>,
    infix: &str,
) -> Result<String, AllocError> {
    let name = Case::Snake.of_variant(alloc, target.name.text)?;
    let specs = specs_of(alloc, target.module, infix)?;
    let (_crate, file) = specs.as_str().rsplit_once('.').unwrap_or(("", ""));
    format!(in alloc; "crate::proofs::{file}Laws::{name}")
}

/// What stands in the names of the files of the first format of a type.
fn first_infix(attributes: Attributes<'_>) -> &'static str {
    match first_text(attributes) {
        Some(format) => format.word,
        None => "",
    }
}

/// Adds the codec by which a value is legal, and the lines that bring it in.
pub(crate) fn put_codec<'a>(
    holes: &mut Holes,
    alloc: Global,
    target: &Target<'a>,
) -> Result<(), AllocError> {
    let name = Case::Snake.of_variant(alloc, target.name.text)?;
    let specs = specs_of(alloc, target.module, "")?;
    let Some(format) = first_text(target.attributes) else {
        let cited = format!(in alloc;
            "    ghost use Rattle.{specs}.{{{name}_means, {name}_codec}};"
        )?;
        holes.put("CITED", cited.as_str());
        let codec = format!(in alloc; "{name}_codec")?;
        holes.put_made("FIRST", given_term(alloc, target, codec.as_str(), "bin"));
        return Ok(());
    };
    let (texts, end) = (specs_of(alloc, target.module, format.word)?, format.name);
    let cited = format!(in alloc;
        "    ghost use Rattle.{specs}.{{{name}_means}};
    ghost use Rattle.{texts}.{{{name}_{end}}};"
    )?;
    holes.put("CITED", cited.as_str());
    let codec = format!(in alloc; "{name}_{end}")?;
    holes.put_made("FIRST", given_term(alloc, target, codec.as_str(), end));
    Ok(())
}

/// The holes that names of a type stand in, with those of its definitions.
pub(crate) fn nested_holes<'a>(
    sheet: &mut Sheet,
    target: &Target<'a>,
) -> Result<Holes, AllocError> {
    let alloc = sheet.alloc;
    let name = Case::Snake.of_variant(alloc, target.name.text)?;
    let mut holes = target.holes(alloc);
    holes.put_made("SPECS", specs_of(alloc, target.module, ""));
    holes.put_made("SEEN", format!(in alloc; "{name}_view"));
    holes.put_made("MEANS", format!(in alloc; "{name}_means"));
    put_shared(&mut holes, sheet, target)?;
    Ok(holes)
}

/// Adds what says that a value is of a variant with so many fields, and the line that brings in the
/// variant for it.
pub(crate) fn put_variant<'a>(
    holes: &mut Holes,
    alloc: Global,
    target: &Target<'a>,
    (variant, count): (&Variant<'a>, usize),
) -> Result<(), AllocError> {
    let (of, own) = (target.name.text, variant.name.text);
    let (library, path) = crate_of(target.module);
    let mut whole = format!(in alloc; "{of}-{own}")?;
    for i in 0..count {
        whole.push_str(format!(in alloc; " v{i}.now")?.as_str())?;
    }
    holes.put("WHOLE", whole.as_str());
    let line = format!(in alloc;
        "    ghost use Rattle.{library}.specs.declared{path}.{of}.{{{own} as {of}-{own}}};\n"
    )?;
    holes.put("BROUGHT", line.as_str());
    Ok(())
}

/// The line that says which functions of types that contain each other call each other: those whose
/// names begin and end so, around the name of the root. A type alone has none.
pub(crate) fn cycle_line<'a>(
    alloc: Global,
    target: &Target<'a>,
    verb: &str,
    end: &str,
) -> Result<String, AllocError> {
    if !target.is_one_of_several() {
        return Ok(String::new(alloc));
    }
    let root = Case::Snake.of_variant(alloc, target.root.text)?;
    format!(in alloc; "    #[cycle({verb}_{root}{end})]\n")
}

/// The name of the functions that read a type in a format, as far as these call each other.
pub(crate) fn reader_cycle<'a>(
    alloc: Global,
    target: &Target<'a>,
    format: &str,
) -> Result<String, AllocError> {
    if !target.is_one_of_several() {
        return String::from_str(alloc, "read");
    }
    let root = Case::Snake.of_variant(alloc, target.root.text)?;
    format!(in alloc; "read_{root}_{format}")
}

/// The name of the functions that write a type in a format of texts, as far as these call each
/// other.
pub(crate) fn writer_cycle<'a>(
    alloc: Global,
    target: &Target<'a>,
    format: &str,
) -> Result<String, AllocError> {
    let root = Case::Snake.of_variant(alloc, target.root.text)?;
    format!(in alloc; "write_{root}_{format}")
}

/// The module of the definitions of the types of a module, or of those of a format of texts.
pub(crate) fn specs_of(alloc: Global, module: &str, format: &str) -> Result<String, AllocError> {
    let (library, _path) = crate_of(module);
    let file = codecs_name(alloc, module)?;
    let stem = file.as_str().strip_suffix("Codecs").unwrap_or("");
    format!(in alloc; "{library}.specs.{stem}{format}Codecs")
}
