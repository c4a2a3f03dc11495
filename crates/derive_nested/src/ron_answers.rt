//! The answers to what is to be proved of what writes RON of a type that contains itself field by
//! field: of a struct, and of the variants with named fields of an enum.

use crate::answers::{Answers, HEAD, Place};
use crate::codec_laws::law_end;
use crate::failed_steps::{late_ron_answers, lemmas};
use crate::held::Held;
use crate::nested::Nested;
use crate::ron_rows::{Written, fields_proof, struct_proof};
use crate::text_codec::RON;
use crate::text_fields::field_name;
use derive_pen::Pen;
use derive_syntax::Holes;

/// The answers for what writes types that contain each other, or one that contains itself, where it
/// is written by several calls.
pub(crate) fn ron_writer(pen: &Pen, members: &[Nested<'_>], place: &Place<'_>) -> Option<Answers> {
    let mut cited = pen.empty();
    let mut answers = pen.empty();
    for nested in members {
        append_answers(pen, nested, &mut cited, &mut answers);
    }
    let (Some(nested), false) = (members.first(), answers.is_empty()) else {
        return None;
    };
    let (folder, snake) = (place.folder.as_str(), nested.root().snake.as_str());
    let (library, stem, goals) = (place.library, place.stem.as_str(), place.goals.as_str());
    let mut holes = nested.all_holes(pen);
    holes.put("HEAD", HEAD);
    holes.put("LIBRARY", library);
    holes.put("STEM", stem);
    holes.put("CITED", cited.as_str());
    holes.put("GOALS", goals);
    holes.put("LEMMAS", lemmas(members));
    holes.put("ANSWERS", answers.as_str());
    Some(Answers {
        path: pen.two("{}/+write_{}_ron/Answers.antt", folder, snake),
        text: pen.whole(holes.fill(WRITER)),
    })
}

/// Appends the answers for what writes a type, and the names that they cite.
fn append_answers(pen: &Pen, nested: &Nested<'_>, cited: &mut String, answers: &mut String) {
    for held in &nested.contents {
        if nested.is_enum && !held.has_fields {
            continue;
        }
        let names = names_of(pen, nested, held);
        let written = written_by(pen, nested, (held, &names));
        pen.add_between(cited, ", ");
        pen.add(cited, written.cited.as_str());
        pen.add(answers, answered(pen, nested, &names, &written).as_str());
        let late = late_ron_answers(pen, nested, held, names.append.as_str());
        pen.add(answers, late.as_str());
    }
}

const WRITER: &str = "\
$HEAD
use Rattle.std.proofs.Common.{◌++◌, chars, codes, string_bytes}
use Rattle.std.proofs.lemmas.Result.{on_ok_weaker}
use Rattle.nano_grammar.specs.FieldCodec.{field_text, fields_text}
use Rattle.nano_grammar.proofs.WrittenLists.{both_written}
use Rattle.nano_text.proofs.RollbackLaws.{unchanged_by}
use Rattle.nano_ron_schema.specs.FieldCodecs.{ron_fields}
use Rattle.nano_ron_schema.proofs.WrittenFields.{more_lines}
use Rattle.nano_ron_nested.proofs.WrittenLaws.{written_between}
use Rattle.$LIBRARY.proofs.$STEMRonCodecsLaws.{$CITED}
use $GOALS.+write_$BASE_ron.Goals as goal
$LEMMAS$ANSWERS";

/// The names of what writes a struct, or a variant.
#[derive(Drop)]
pub(crate) struct WriterNames {
    /// What appends it, in the writer of the type.
    pub(crate) append: String,
    /// What leaves the text unchanged where that fails.
    pub(crate) write: String,
    /// The names of the definitions of what its fields are written as.
    pub(crate) fields: Vec<String>,
}

/// The names of what writes a struct, or a variant.
fn names_of(pen: &Pen, nested: &Nested<'_>, held: &Held<'_>) -> WriterNames {
    let name = nested.names.of.as_str();
    let mut fields = Vec::new(pen.alloc());
    for called in &held.called {
        pen.push(
            &mut fields,
            field_name(pen, nested, &RON, (held, called.as_str())),
        );
    }
    if !nested.is_enum {
        return WriterNames {
            append: pen.copy("append_record"),
            write: pen.one("{}WritesRon::write_ron", name),
            fields,
        };
    }
    let end = law_end(pen, held);
    WriterNames {
        append: pen.one("append_{}", end.as_str()),
        write: pen.two("{}RonWriter::write_{}", name, end.as_str()),
        fields,
    }
}

/// What is proved of what appends a struct, or a variant.
fn written_by(pen: &Pen, nested: &Nested<'_>, (held, names): (&Held<'_>, &WriterNames)) -> Written {
    if !nested.is_enum {
        return struct_proof(pen, nested, (held, names));
    }
    fields_proof(pen, (held, names))
}

/// The answers for what writes it.
fn answered(pen: &Pen, nested: &Nested<'_>, names: &WriterNames, written: &Written) -> String {
    let WriterNames { append, write, .. } = names;
    let proof = written.proof.as_str();
    let mut holes = nested.holes(pen);
    holes.put("WRITE", write.as_str());
    holes.put("APPEND", append.as_str());
    holes.put("PROOF", proof);
    pen.whole(holes.fill(ANSWERED))
}

const ANSWERED: &str = "
pub $WRITE-rollback_on_error-requires :
    goal.$WRITE-rollback_on_error-requires
$WRITE-rollback_on_error-requires t c =
    unchanged_by c.$APPEND-written.result c.args.s.now.out c.$APPEND-written.new.s.out
    c.len-start.result _ c.len-start.ensures c.$APPEND-written.ensures.ok
    c.$APPEND-written.ensures.err

pub $NAMERonWriter::$APPEND-returns-clause-ok : goal.$NAMERonWriter::$APPEND-returns-clause-ok
$NAMERonWriter::$APPEND-returns-clause-ok t c =
$PROOF";
