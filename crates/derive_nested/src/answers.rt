//! The answers to what is to be proved of the impls of a type that contains itself.

use crate::formats::first_codecs_name;
use crate::generic_answers::with_writer;
use crate::generic_goals::with_goals;
use crate::generic_readers::later_reader;
use crate::json_answers::json_writer;
use crate::known_answers::known_answers;
use crate::known_struct::known_struct;
use crate::nested::Nested;
use crate::parameters::{Format, first_of};
use crate::ron_answers::ron_writer;
use crate::text_answers::text_readers;
use crate::text_codec::{JSON, RON, TextTerms};
use derive_pen::Pen;
use derive_syntax::{Attributes, codecs_name, crate_of};

/// The answers for a function.
#[derive(Drop)]
pub(crate) struct Answers {
    /// The path of their file in the folder of the proofs.
    pub(crate) path: String,
    /// The text of that file.
    pub(crate) text: String,
}

/// The answers for each function of types in a module that contain each other, or of one that
/// contains itself, above which these formats stand. The root is the last.
pub(crate) fn answers_of(
    pen: &Pen,
    module: &str,
    members: &[Nested<'_>],
    attributes: Attributes<'_>,
) -> Vec<Answers> {
    let mut files = Vec::new(pen.alloc());
    let Some(nested) = members.last() else {
        return files;
    };
    let place = place_of(pen, module);
    let mut own = Own {
        pen,
        nested,
        files: &mut files,
    };
    own.append_known(module, members, (attributes, &place));
    if attributes.bin.is_used() {
        own.append_bytes(&place);
    }
    let first = first_of(attributes);
    if attributes.json.is_used() {
        let writer = json_writer(pen, members, &place);
        own.append_texts(members, &JSON, (first, &place), writer);
    }
    if attributes.ron.is_used() {
        let writer = ron_writer(pen, members, &place);
        own.append_texts(members, &RON, (first, &place), writer);
    }
    files
}

/// The files of the answers for a type, or for the root of several.
#[derive(Drop)]
struct Own<'p, 'f, 'n, 'a> {
    /// What texts are written with.
    pen: &'p Pen,
    /// The type.
    nested: &'n Nested<'a>,
    /// The files.
    files: &'f mut Vec<Answers>,
}

impl Own<'_, '_, '_, '_> {
    /// Appends answers that speak of the format of this name, if there are any.
    fn append(&mut self, format: &'static str, answers: Option<Answers>) {
        let Some(Answers { path, text }) = answers else {
            return;
        };
        let text = with_goals(self.pen, self.nested, format, text);
        self.pen.push(self.files, Answers { path, text });
    }

    /// Appends the answers for which meanings are legal, in the first format of these types.
    fn append_known(
        &mut self,
        module: &str,
        members: &[Nested<'_>],
        (attributes, place): (Attributes<'_>, &Place<'_>),
    ) {
        let (pen, nested) = (self.pen, self.nested);
        let first = first_of(attributes).name;
        let file = first_codecs_name(pen, module, attributes);
        let known = known_answers(pen, members, place, file.as_str());
        self.append(first, known);
        if !nested.is_enum && nested.is_generic() {
            let known = known_struct(pen, module, nested, (place, file.as_str()));
            self.append(first, Some(known));
        }
    }

    /// Appends the answers for what reads and writes these types as bytes.
    fn append_bytes(&mut self, place: &Place<'_>) {
        let (pen, nested) = (self.pen, self.nested);
        self.append("bin", Some(read_answers(pen, nested, place)));
        self.append("bin", with_writer(pen, nested, ("bin", place), None));
    }

    /// Appends the answers for what reads and writes these types in a format of texts.
    fn append_texts(
        &mut self,
        members: &[Nested<'_>],
        format: &TextTerms,
        (first, place): (Format, &Place<'_>),
        writer: Option<Answers>,
    ) {
        let (pen, nested, name) = (self.pen, self.nested, format.name);
        self.append(name, text_readers(pen, members, format, place));
        self.append(name, later_reader(pen, nested, format, (first, place)));
        let mut writer = writer;
        for member in members {
            writer = with_writer(pen, member, (name, place), writer);
        }
        self.append(name, writer);
    }
}

/// What stands in the answers for the functions of the types of a module.
#[derive(Drop)]
pub(crate) struct Place<'a> {
    /// The crate.
    pub(crate) library: &'a str,
    /// The folder of the answers.
    pub(crate) folder: String,
    /// The module of the goals.
    pub(crate) goals: String,
    /// What the names of the files of definitions begin with.
    pub(crate) stem: String,
}

/// The place of the answers for the types of a module.
fn place_of<'a>(pen: &Pen, module: &'a str) -> Place<'a> {
    let (library, path) = crate_of(module);
    let file = pen.whole(codecs_name(pen.alloc(), module));
    let stem = file.as_str().strip_suffix("Codecs").unwrap_or("");
    Place {
        library,
        folder: folder_of(pen, path),
        goals: pen.two("Rattle.{}.proofs{}.derived", library, path),
        stem: pen.copy(stem),
    }
}

/// The goals of a function.
#[derive(Drop)]
pub(crate) struct Goals {
    /// The path of the file of the answers.
    pub(crate) path: String,
    /// The module of the goals.
    pub(crate) module: String,
    /// What the names of the goals begin with.
    pub(crate) prefix: String,
}

/// The goals of a function of an impl, which stand by themselves. Those of types that contain each
/// other stand with the goals of the others, by the verb and the format.
pub(crate) fn goals_of(
    pen: &Pen,
    nested: &Nested<'_>,
    place: &Place<'_>,
    (of, function, verb, format): (&str, &str, &str, &str),
) -> Goals {
    let Place { folder, goals, .. } = place;
    if !nested.members.are_several() {
        return Goals {
            path: pen.three("{}/{}/+{}/Answers.antt", folder.as_str(), of, verb),
            module: pen.three("{}.{}.+{}.Goals", goals.as_str(), of, verb),
            prefix: pen.empty(),
        };
    }
    let root = nested.root().snake.as_str();
    Goals {
        path: pen.four(
            "{}/+{}_{}{}/Answers.antt",
            folder.as_str(),
            verb,
            root,
            format,
        ),
        module: pen.four("{}.+{}_{}{}.Goals", goals.as_str(), verb, root, format),
        prefix: pen.two("{}::{}-", of, function),
    }
}

/// The folder of the proofs of the impls of a module with this path in its crate.
pub(crate) fn folder_of(pen: &Pen, path: &str) -> String {
    let mut folder = pen.empty();
    for part in path.split('.') {
        if !part.is_empty() {
            pen.add(&mut folder, part);
            pen.add(&mut folder, "/");
        }
    }
    pen.add(&mut folder, "derived");
    folder
}

/// The first line of each file.
pub(crate) const HEAD: &str = "-- Written by derive_files.";

/// The answers for the reader of bytes of a type.
fn read_answers(pen: &Pen, nested: &Nested<'_>, place: &Place<'_>) -> Answers {
    let read = if nested.is_enum {
        "read_choice_within"
    } else {
        "read_record_within"
    };
    let of = pen.one("LevelsReadsBin{}", nested.names.of.as_str());
    let of = (of.as_str(), "read_bin", "read", "_bin");
    let Goals {
        path,
        module,
        prefix,
    } = goals_of(pen, nested, place, of);
    let mut holes = nested.holes(pen);
    holes.put("HEAD", HEAD);
    holes.put("LIBRARY", place.library);
    holes.put("STEM", place.stem.as_str());
    holes.put("GOALS", module.as_str());
    holes.put("OWN", prefix.as_str());
    holes.put("READ", read);
    Answers {
        path,
        text: pen.whole(holes.fill(READ_TEXT)),
    }
}

const READ_TEXT: &str = "\
$HEAD
use Rattle.nano_bin_nested.proofs.NestedLaws.{seen_ok, seen_err}
use Rattle.$LIBRARY.specs.$STEMCodecs.{$SNAKE_nested}
use $GOALS as goal

pub $OWNreturns-clause-ok : goal.$OWNreturns-clause-ok
$OWNreturns-clause-ok t c =
    seen_ok $SNAKE_nested _ _ _ c.$READ.result c.$READ.ensures.ok

pub $OWNreturns-clause-err : goal.$OWNreturns-clause-err
$OWNreturns-clause-err t c =
    seen_err $SNAKE_nested _ _ _ c.$READ.result c.$READ.ensures.err
";
