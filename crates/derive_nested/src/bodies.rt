//! What the files of definitions and of laws say of each type.

use crate::bin_codec::bin_codecs;
use crate::brought::{cited_lines, declared_lines, text_cited, text_lines};
use crate::codec_laws::codec_laws;
use crate::definitions::definitions;
use crate::formats::{before, has_several, has_text};
use crate::generic::with_parameters;
use crate::nested::{Nested, counted_in, nested_of};
use crate::others::{BIN, Other, add_others_of, append_cited, append_codecs_of, append_others};
use crate::text_codec::{TextTerms, text_codecs};
use crate::text_laws::text_laws;
use derive_pen::Pen;
use derive_syntax::{Attributes, Cycle, Fault, Source};

/// What a file of ghost terms says.
#[derive(Drop)]
pub(crate) struct Body {
    /// The lines that bring in what is declared of its types.
    pub(crate) brought: String,
    /// Its definitions or laws.
    pub(crate) text: String,
}

impl Body {
    /// Nothing.
    pub(crate) fn new(pen: &Pen) -> Body {
        Body {
            brought: pen.empty(),
            text: pen.empty(),
        }
    }

    /// Says something, for which these lines bring names in.
    fn say(&mut self, pen: &Pen, text: &str, brought: &str) {
        pen.add(&mut self.text, text);
        pen.add(&mut self.brought, brought);
    }
}

/// The file of the definitions of a module.
#[derive(Clone, Copy)]
pub(crate) struct File<'a> {
    /// The module, as ghost names say it.
    pub(crate) module: &'a str,
    /// Its name.
    pub(crate) name: &'a str,
}

/// Types of a source that contain each other, or one that contains itself, as what is written says
/// them: each after those that it contains but the root, which is the last. The fields of a struct
/// are those of `y`, or of what it is seen as.
pub(crate) fn nested_members<'a>(
    pen: &Pen,
    source: &Source<'a>,
    cycle: &Cycle<'a>,
    is_seen: bool,
) -> Result<Vec<Nested<'a>>, Fault> {
    let mut members = Vec::new(pen.alloc());
    for name in &cycle.inward {
        let value = value_of(pen, name.text, is_seen);
        for definition in &source.definitions {
            if definition.name.text == name.text {
                pen.push(
                    &mut members,
                    nested_of(pen, (source, definition), value.as_str())?,
                );
            }
        }
    }
    Ok(members)
}

/// What the fields of a struct of this name are fields of.
fn value_of(pen: &Pen, name: &str, is_seen: bool) -> String {
    if is_seen {
        pen.one("(out-{} x)", name)
    } else {
        pen.copy("y")
    }
}

/// The other types within some types of a module, each once.
fn others_of<'a>(
    pen: &Pen,
    module: &str,
    source: &Source<'a>,
    members: &[Nested<'a>],
) -> Vec<Other> {
    let mut others = Vec::new(pen.alloc());
    for nested in members {
        add_others_of(pen, module, source, nested, &mut others);
    }
    others
}

/// Appends the definitions of types that no format changes, and those of bytes if they have them.
pub(crate) fn append_definitions<'a>(
    pen: &Pen,
    file: File<'_>,
    (source, cycle): (&Source<'a>, &Cycle<'a>),
    specs: &mut Body,
) -> Result<(), Fault> {
    let Some(attributes) = counted_in(source, cycle) else {
        return Ok(());
    };
    let members = nested_members(pen, source, cycle, false)?;
    let others = others_of(pen, file.module, source, &members);
    say_definitions(pen, file, (&members, &others), attributes, specs);
    Ok(())
}

/// Appends these definitions, of types with others in them.
fn say_definitions(
    pen: &Pen,
    file: File<'_>,
    (members, others): (&[Nested<'_>], &[Other]),
    attributes: Attributes<'_>,
    specs: &mut Body,
) {
    let mut text = definitions(pen, members, has_several(attributes));
    if attributes.bin.is_used() {
        append_codecs_of(pen, file.module, others, &BIN, specs);
        pen.add(&mut text, bin_codecs(pen, members).as_str());
    }
    if let [nested] = members {
        text = with_parameters(pen, nested, "bin", text);
    }
    let mut brought = pen.empty();
    for nested in members {
        let lines = declared_lines(pen, file.module, nested);
        pen.add(&mut brought, lines.as_str());
    }
    specs.say(pen, text.as_str(), brought.as_str());
    append_others(pen, file.module, others, specs);
}

/// Appends the laws of types that no format changes, and those of bytes if they have them.
pub(crate) fn append_laws<'a>(
    pen: &Pen,
    file: File<'_>,
    (source, cycle): (&Source<'a>, &Cycle<'a>),
    proofs: &mut Body,
) -> Result<(), Fault> {
    let Some(attributes) = counted_in(source, cycle) else {
        return Ok(());
    };
    let members = nested_members(pen, source, cycle, true)?;
    let others = others_of(pen, file.module, source, &members);
    let has_bin = attributes.bin.is_used();
    for nested in &members {
        let text = codec_laws(pen, nested, has_bin);
        let text = with_parameters(pen, nested, "bin", text);
        let brought = cited_lines(pen, file.module, nested, has_bin);
        proofs.say(pen, text.as_str(), brought.as_str());
    }
    append_others(pen, file.module, &others, proofs);
    append_cited(pen, file, &others, proofs);
    Ok(())
}

/// Appends the definitions of types in a format of texts, if they have it.
pub(crate) fn append_text_definitions<'a>(
    pen: &Pen,
    file: File<'_>,
    (source, cycle, format): (&Source<'a>, &Cycle<'a>, &TextTerms),
    specs: &mut Body,
) -> Result<(), Fault> {
    let Some(attributes) = text_attributes(source, cycle, format) else {
        return Ok(());
    };
    let before = before(attributes, format);
    let members = nested_members(pen, source, cycle, false)?;
    let others = others_of(pen, file.module, source, &members);
    say_texts(pen, file, (&members, &others), (format, before), specs);
    Ok(())
}

/// Appends these definitions, of types with others in them, after the format before.
fn say_texts(
    pen: &Pen,
    file: File<'_>,
    (members, others): (&[Nested<'_>], &[Other]),
    (format, before): (&TextTerms, Option<&str>),
    specs: &mut Body,
) {
    append_codecs_of(pen, file.module, others, &format.said, specs);
    let mut text = text_codecs(pen, members, format, before);
    if let [nested] = members {
        text = with_parameters(pen, nested, format.name, text);
    }
    let mut brought = pen.empty();
    for nested in members {
        let lines = text_lines(pen, file.module, nested, before);
        pen.add(&mut brought, lines.as_str());
    }
    specs.say(pen, text.as_str(), brought.as_str());
    append_others(pen, file.module, others, specs);
}

/// What stands above the root of a cycle, if its types have a format of texts.
fn text_attributes<'a>(
    source: &Source<'a>,
    cycle: &Cycle<'a>,
    format: &TextTerms,
) -> Option<Attributes<'a>> {
    match counted_in(source, cycle) {
        Some(attributes) if has_text(attributes, format) => Some(attributes),
        _ => None,
    }
}

/// Appends the laws of types in a format of texts, if they have it.
pub(crate) fn append_text_laws<'a>(
    pen: &Pen,
    file: File<'_>,
    (source, cycle, format): (&Source<'a>, &Cycle<'a>, &TextTerms),
    proofs: &mut Body,
) -> Result<(), Fault> {
    let Some(attributes) = text_attributes(source, cycle, format) else {
        return Ok(());
    };
    let is_first = before(attributes, format).is_none();
    let members = nested_members(pen, source, cycle, true)?;
    let others = others_of(pen, file.module, source, &members);
    for nested in &members {
        let text = text_laws(pen, nested, format, is_first);
        let text = with_parameters(pen, nested, format.name, text);
        let brought = text_cited(pen, file.module, nested, format, is_first);
        proofs.say(pen, text.as_str(), brought.as_str());
    }
    append_others(pen, file.module, &others, proofs);
    append_cited(pen, file, &others, proofs);
    Ok(())
}
