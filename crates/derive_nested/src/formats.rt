//! The formats of a type that contains itself: bytes, and then JSON and RON.

use crate::brought::text_codecs_name;
use crate::text_codec::{JSON, RON, TextTerms};
use derive_pen::Pen;
use derive_syntax::{Attributes, codecs_name};

/// Whether a type has a format of texts.
pub(crate) fn has_text(attributes: Attributes<'_>, format: &TextTerms) -> bool {
    if format.name == RON.name {
        attributes.ron.is_used()
    } else {
        attributes.json.is_used()
    }
}

/// The first format of a type before this one of texts, if it has one.
pub(crate) fn before(attributes: Attributes<'_>, format: &TextTerms) -> Option<&'static str> {
    if attributes.bin.is_used() {
        return Some("bin");
    }
    if format.name == RON.name && attributes.json.is_used() {
        return Some(JSON.name);
    }
    None
}

/// Whether a type has more than one format.
pub(crate) fn has_several(attributes: Attributes<'_>) -> bool {
    let (bin, json) = (attributes.bin.is_used(), attributes.json.is_used());
    (bin && json) || ((bin || json) && attributes.ron.is_used())
}

/// The name of the file of definitions for the first format of a type in a module.
pub(crate) fn first_codecs_name(pen: &Pen, module: &str, attributes: Attributes<'_>) -> String {
    if attributes.bin.is_used() {
        return pen.whole(codecs_name(pen.alloc(), module));
    }
    let first = if attributes.json.is_used() { JSON } else { RON };
    text_codecs_name(pen, module, &first)
}
