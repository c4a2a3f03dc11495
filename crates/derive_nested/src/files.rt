//! The files that are written for the types of a source that contain themselves.

ghost use Rattle.std.specs.Prelude.{IfErr};
ghost use Rattle.derive_source.specs.Errors.{IsErrorIn};

use crate::answers::{Answers, answers_of};
use crate::bodies::{
    Body, File, append_definitions, append_laws, append_text_definitions, append_text_laws,
    nested_members,
};
use crate::brought::text_codecs_name;
use crate::cited::{BYTES, SHARED};
use crate::imports::{Known, imports};
use crate::nested::counted_in;
use crate::ron_cited::RON as RON_CITED;
use crate::text_cited::{JSON as JSON_CITED, TEXTS};
use crate::text_codec::{JSON, RON, TextTerms};
use derive_pen::Pen;
use derive_syntax::{
    Cycle, Definition, DeriveError, Fault, Source, check_source, codecs_name, error_of, source_of,
    text_above, tokens_of,
};
use std::alloc::Global;

/// A folder of a crate, beside its sources.
#[derive(Clone, Copy, PartialEq)]
pub enum Folder {
    /// Definitions.
    Specs,
    /// What is proved of them.
    Proofs,
}

impl Folder {
    /// Its name.
    pub fn name(self) -> &'static str {
        match self {
            Folder::Specs => "specs",
            Folder::Proofs => "proofs",
        }
    }
}

/// A file beside the sources of a crate.
#[derive(Drop)]
pub struct NestedFile {
    /// The folder.
    pub folder: Folder,
    /// Its path in there.
    pub path: String,
    /// The line of `Lib.antt` in that folder that declares it, if it takes one.
    pub declared: Option<String>,
    /// Its text.
    pub text: String,
}

/// The files that are written for those types of a source that contain themselves: their
/// definitions, the laws of these, and the answers to what is to be proved of the impls. There are
/// none for a source that has no such type. `module` is the module that the source is, as ghost
/// names say it.
///
/// # Errors
///
/// The source is at fault, or an allocation fails.
pub fn nested_files(
    alloc: Global,
    module: &str,
    source: &str,
) -> Result<Vec<NestedFile>, DeriveError>
    ensures error { IfErr result (IsErrorIn source.now) }
{
    let pen = Pen::new(alloc);
    match files(&pen, module, source) {
        Ok(files) => Ok(files),
        Err(fault) => Err(error_of(alloc, source, fault)),
    }
}

/// The files for a source.
fn files(pen: &Pen, module: &str, source: &str) -> Result<Vec<NestedFile>, Fault> {
    let above = text_above(source)?;
    let tokens = tokens_of(pen.alloc(), above)?;
    let source = source_of(pen.alloc(), &tokens, above.len())?;
    check_source(pen.alloc(), &source)?;
    let mut files = Vec::new(pen.alloc());
    let cycles = cycles_of(pen, &source)?;
    if cycles.is_empty() {
        return Ok(files);
    }
    append_codecs(pen, module, &source, &cycles, &mut files)?;
    append_texts(
        pen,
        module,
        &source,
        &cycles,
        (&JSON, &JSON_CITED),
        &mut files,
    )?;
    append_texts(
        pen,
        module,
        &source,
        &cycles,
        (&RON, &RON_CITED),
        &mut files,
    )?;
    append_answers(pen, module, &source, &cycles, &mut files)?;
    pen.check()?;
    Ok(files)
}

/// The types of a source with formats that contain each other, or one that contains itself, in the
/// order of the first of them.
fn cycles_of<'a>(pen: &Pen, source: &Source<'a>) -> Result<Vec<Cycle<'a>>, Fault> {
    let mut cycles = Vec::new(pen.alloc());
    for definition in &source.definitions {
        if definition.attributes.codec.is_none() {
            continue;
        }
        if let Some(cycle) = source.cycle_of(pen.alloc(), definition)? {
            if is_first(&cycle, definition) {
                pen.push(&mut cycles, cycle);
            }
        }
    }
    Ok(cycles)
}

/// Whether a type is the first of a cycle.
fn is_first<'a>(cycle: &Cycle<'a>, definition: &Definition<'a>) -> bool {
    match cycle.names.first() {
        Some(name) => name.text == definition.name.text,
        None => false,
    }
}

/// Appends the files of what every format has, and of bytes.
fn append_codecs<'a>(
    pen: &Pen,
    module: &str,
    source: &Source<'a>,
    cycles: &[Cycle<'a>],
    files: &mut Vec<NestedFile>,
) -> Result<(), Fault> {
    let name = pen.whole(codecs_name(pen.alloc(), module));
    let file = File {
        module,
        name: name.as_str(),
    };
    let mut specs = Body::new(pen);
    let mut proofs = Body::new(pen);
    for cycle in cycles {
        append_definitions(pen, file, (source, cycle), &mut specs)?;
        append_laws(pen, file, (source, cycle), &mut proofs)?;
    }
    let tables: [&[Known]; 2] = [&SHARED, &BYTES];
    pen.push(files, specs_file(pen, name.as_str(), &specs, &tables));
    pen.push(files, proofs_file(pen, name.as_str(), &proofs, &tables));
    Ok(())
}

/// Appends the files of a format of texts, which cite these modules, if one of the types has it.
fn append_texts<'a>(
    pen: &Pen,
    module: &str,
    source: &Source<'a>,
    cycles: &[Cycle<'a>],
    (format, cited): (&TextTerms, &[Known]),
    files: &mut Vec<NestedFile>,
) -> Result<(), Fault> {
    let name = text_codecs_name(pen, module, format);
    let file = File {
        module,
        name: name.as_str(),
    };
    let mut specs = Body::new(pen);
    let mut proofs = Body::new(pen);
    for cycle in cycles {
        append_text_definitions(pen, file, (source, cycle, format), &mut specs)?;
        append_text_laws(pen, file, (source, cycle, format), &mut proofs)?;
    }
    if specs.text.is_empty() {
        return Ok(());
    }
    let tables: [&[Known]; 3] = [&SHARED, &TEXTS, cited];
    pen.push(files, specs_file(pen, name.as_str(), &specs, &tables));
    pen.push(files, proofs_file(pen, name.as_str(), &proofs, &tables));
    Ok(())
}

/// A file of definitions.
fn specs_file(pen: &Pen, name: &str, body: &Body, tables: &[&[Known]]) -> NestedFile {
    let brought = imports(pen, body.text.as_str(), tables);
    NestedFile {
        folder: Folder::Specs,
        path: pen.one("{}.antt", name),
        declared: Some(pen.one("pub mod {}", name)),
        text: pen.four(
            "{}{}{}{}",
            DEFINITIONS,
            brought.as_str(),
            body.brought.as_str(),
            body.text.as_str(),
        ),
    }
}

/// A file of laws.
fn proofs_file(pen: &Pen, name: &str, body: &Body, tables: &[&[Known]]) -> NestedFile {
    let brought = imports(pen, body.text.as_str(), tables);
    NestedFile {
        folder: Folder::Proofs,
        path: pen.one("{}Laws.antt", name),
        declared: Some(pen.one("mod {}Laws", name)),
        text: pen.four(
            "{}{}{}{}",
            LAWS,
            brought.as_str(),
            body.brought.as_str(),
            body.text.as_str(),
        ),
    }
}

const DEFINITIONS: &str =
    "-- Written by derive_files: types that contain themselves, and their codecs.\n";

const LAWS: &str = "-- Written by derive_files: what is proved of types that contain themselves.\n";

/// Appends the files of the answers to what is to be proved of the impls of types.
fn append_answers<'a>(
    pen: &Pen,
    module: &str,
    source: &Source<'a>,
    cycles: &[Cycle<'a>],
    files: &mut Vec<NestedFile>,
) -> Result<(), Fault> {
    for cycle in cycles {
        let Some(attributes) = counted_in(source, cycle) else {
            continue;
        };
        let members = nested_members(pen, source, cycle, false)?;
        for Answers { path, text } in answers_of(pen, module, &members, attributes) {
            pen.push(
                files,
                NestedFile {
                    folder: Folder::Proofs,
                    path,
                    declared: None,
                    text,
                },
            );
        }
    }
    Ok(())
}
