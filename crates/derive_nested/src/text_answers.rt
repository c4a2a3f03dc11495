//! The answers to what is to be proved of the readers of a type that contains itself, in a format
//! of texts.

use crate::answers::{Answers, Goals, HEAD, Place, goals_of};
use crate::nested::Nested;
use crate::text_codec::TextTerms;
use derive_pen::Pen;
use derive_syntax::Holes;

/// The answers for the readers of types in a format of texts, of which the last is the root.
pub(crate) fn text_readers(
    pen: &Pen,
    members: &[Nested<'_>],
    format: &TextTerms,
    place: &Place<'_>,
) -> Option<Answers> {
    let Some(root) = members.last() else {
        return None;
    };
    let goals = reader_goals(pen, root, format, place);
    let cited = pen.two("{}_{}", root.names.snake.as_str(), format.name);
    let own = (cited.as_str(), goals.prefix.as_str());
    let mut answers = read_answers(pen, root, own);
    let mut brought = pen.empty();
    for nested in members {
        if nested.is_around() && nested.is_enum {
            let more = around_lines(pen, nested, format, place);
            pen.add(&mut brought, more.as_str());
            let more = around_answers(pen, nested, format, place);
            pen.add(&mut answers, more.as_str());
        }
    }
    let mut holes = root.holes(pen);
    holes.put("HEAD", HEAD);
    holes.put("SUFFIX", format.name);
    holes.put("LIBRARY", place.library);
    holes.put("STEM", place.stem.as_str());
    holes.put("WORD", format.word);
    holes.put("CITED", cited.as_str());
    holes.put("BROUGHT", brought.as_str());
    holes.put("GOALS", goals.module.as_str());
    holes.put("ANSWERS", answers.as_str());
    Some(Answers {
        path: goals.path,
        text: pen.whole(holes.fill(READERS)),
    })
}

const READERS: &str = "\
$HEAD
use Rattle.nano_schema_levels.proofs.ReadingLaws.{seen_read, seen_none}
use Rattle.nano_$SUFFIX_nested.proofs.NestedLaws.{none_left, ran_out}
use Rattle.$LIBRARY.specs.$STEM$WORDCodecs.{$CITED_at, $CITED_nested}
$BROUGHTuse $GOALS as goal
$ANSWERS";

/// The goals of the reader of a type in a format of texts.
fn reader_goals(pen: &Pen, nested: &Nested<'_>, format: &TextTerms, place: &Place<'_>) -> Goals {
    let of = pen.two("LevelsReads{}{}", format.word, nested.names.of.as_str());
    let function = pen.one("read_{}", format.name);
    let end = pen.one("_{}", format.name);
    let of = (of.as_str(), function.as_str(), "read", end.as_str());
    goals_of(pen, nested, place, of)
}

/// The lines that bring in what the answers for an enum cite that is a layer around values of the
/// root.
fn around_lines(pen: &Pen, nested: &Nested<'_>, format: &TextTerms, place: &Place<'_>) -> String {
    let mut holes = format.holes(pen, nested);
    holes.put("LIBRARY", place.library);
    holes.put("STEM", place.stem.as_str());
    holes.put("WORD", format.word);
    pen.whole(holes.fill(AROUND_LINES))
}

const AROUND_LINES: &str = "\
use Rattle.nano_schema_levels.proofs.AroundLaws.{layer_read}
use Rattle.$LIBRARY.specs.$STEMCodecs.{$SNAKE_view, $BASE_means}
use Rattle.$LIBRARY.specs.$STEM$WORDCodecs.{$SNAKE_$INFIXlayer}
";

/// The answers for the reader of an enum that is a layer around values of the root.
fn around_answers(pen: &Pen, nested: &Nested<'_>, format: &TextTerms, place: &Place<'_>) -> String {
    let Goals { prefix, .. } = reader_goals(pen, nested, format, place);
    let mut holes = format.holes(pen, nested);
    holes.put("OWN", prefix.as_str());
    pen.whole(holes.fill(AROUND_ANSWERS))
}

const AROUND_ANSWERS: &str = "
pub $OWNreturns-in-Ok : goal.$OWNreturns-in-Ok
$OWNreturns-in-Ok t c =
    layer_read $SNAKE_view $SNAKE_$INFIXlayer ($BASE_$INFIXat c.args.left) $BASE_means
    c.make.result c.in-Ok.values c.make.ensures c.in-Ok.ensures.read

pub $OWNreturns-in-Err : goal.$OWNreturns-in-Err
$OWNreturns-in-Err t c = c.in-Err.ensures.none
";

/// The answers for the reader of a type whose definitions in the format, and the names of whose
/// goals, begin so.
fn read_answers(pen: &Pen, nested: &Nested<'_>, (cited, prefix): (&str, &str)) -> String {
    let (read, none) = if nested.is_enum {
        ("c.in-Ok.ensures.read", "c.in-Err.ensures.none")
    } else {
        ("c.in-Ok.ensures", "c.in-Err.ensures")
    };
    let mut holes = Holes::new(pen.alloc());
    holes.put("CITED", cited);
    holes.put("OWN", prefix);
    holes.put("TOO_DEEP", nested.too_deep);
    holes.put("READ", read);
    holes.put("NONE", none);
    pen.whole(holes.fill(READ_ANSWERS))
}

const READ_ANSWERS: &str = "
pub $OWNreturns-then-left-eq0 : goal.$OWNreturns-then-left-eq0
$OWNreturns-then-left-eq0 t c =
    none_left $CITED_nested c.args.left c.args.input.now c.if-left-eq0.true c.$TOO_DEEP.ensures

pub $OWNreturns-in_default : goal.$OWNreturns-in_default
$OWNreturns-in_default t c =
    ran_out ($CITED_at c.args.left).encoding.encodes c.args.input.now c.no_levels.ensures

pub $OWNreturns-in_default-first : goal.$OWNreturns-in_default-first
$OWNreturns-in_default-first t c =
    ran_out ($CITED_at c.args.left).encoding.encodes c.args.input.now
    c.no_levels-in_default-first.ensures

pub $OWNreturns-in-Ok : goal.$OWNreturns-in-Ok
$OWNreturns-in-Ok t c =
    seen_read $CITED_nested c.args.left c.if-left-eq0.false c.make.result c.in-Ok.values
    c.make.ensures $READ

pub $OWNreturns-in-Err : goal.$OWNreturns-in-Err
$OWNreturns-in-Err t c =
    seen_none $CITED_nested c.args.left c.if-left-eq0.false $NONE
";
