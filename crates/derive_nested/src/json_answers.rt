//! The answers to what is to be proved of what writes named fields of a type that contains itself
//! in JSON.

use crate::answers::{Answers, HEAD, Place};
use crate::brought::content_names;
use crate::cycle::snake_of;
use crate::failed_steps::{late_json_answers, lemmas};
use crate::held::Held;
use crate::json_rows::{Appended, fields_proof};
use crate::nested::Nested;
use crate::text_codec::JSON;
use crate::text_fields::{field_name, has_contents, has_long_row};
use crate::text_layers::content_name;
use derive_pen::Pen;
use derive_syntax::Holes;

/// The answers for what writes structs in JSON, and the variants with named fields of enums, of
/// types that contain each other or of one that contains itself, if there are such.
pub(crate) fn json_writer(pen: &Pen, members: &[Nested<'_>], place: &Place<'_>) -> Option<Answers> {
    let answers = all_answered(pen, members);
    let (Some(nested), false) = (members.first(), answers.is_empty()) else {
        return None;
    };
    let (folder, snake) = (place.folder.as_str(), nested.root().snake.as_str());
    let mut holes = nested.all_holes(pen);
    holes.put("HEAD", HEAD);
    holes.put("LIBRARY", place.library);
    holes.put("STEM", place.stem.as_str());
    holes.put("BESIDE", beside(members));
    put_cited(&mut holes, pen, members, place);
    holes.put("GOALS", place.goals.as_str());
    holes.put("LEMMAS", lemmas(members));
    holes.put("ANSWERS", answers.as_str());
    Some(Answers {
        path: pen.two("{}/+write_{}_json/Answers.antt", folder, snake),
        text: pen.whole(holes.fill(WRITTEN_TEXT)),
    })
}

/// The answers for all of these types.
fn all_answered(pen: &Pen, members: &[Nested<'_>]) -> String {
    let mut answers = pen.empty();
    for nested in members {
        for held in &nested.contents {
            pen.add(&mut answers, answered(pen, nested, held).as_str());
        }
    }
    answers
}

/// Puts what the answers for these types cite: laws, and definitions.
fn put_cited(holes: &mut Holes, pen: &Pen, members: &[Nested<'_>], place: &Place<'_>) {
    let mut cited = pen.empty();
    let mut specs = pen.empty();
    for nested in members {
        pen.add(&mut cited, cited_laws(pen, nested).as_str());
        pen.add(&mut specs, cited_definitions(pen, nested, place).as_str());
    }
    let names = cited.as_str().strip_prefix(", ").unwrap_or(cited.as_str());
    holes.put("CITED", names);
    holes.put("SPECS", specs.as_str());
}

/// The answers for what writes a struct, or a variant with named fields.
fn answered(pen: &Pen, nested: &Nested<'_>, held: &Held<'_>) -> String {
    if !nested.is_enum {
        struct_answers(pen, nested, held)
    } else if held.has_fields {
        variant_answers(pen, nested, held)
    } else {
        pen.empty()
    }
}

const WRITTEN_TEXT: &str = "\
$HEAD
use Rattle.std.proofs.Common.{◌++◌, true, string_bytes}
use Rattle.std.proofs.lemmas.Result.{on_ok_weaker}
use Rattle.nano_grammar.specs.FieldCodec.{field_text}
use Rattle.nano_text.proofs.RollbackLaws.{unchanged_by}
use Rattle.nano_json_schema.specs.FieldCodecs.{json_fields}
use Rattle.nano_json_schema.proofs.WrittenFields.{more_fields}
use Rattle.nano_json_nested.proofs.WrittenLaws.{written_between$BESIDE}
use Rattle.$LIBRARY.proofs.$STEMJsonCodecsLaws.{$CITED}
$SPECSuse $GOALS.+write_$BASE_json.Goals as goal
$LEMMAS$ANSWERS";

/// The lines that bring in the definitions that the answers for variants cite, if a type has such.
fn cited_definitions(pen: &Pen, nested: &Nested<'_>, place: &Place<'_>) -> String {
    if !has_contents(nested) {
        return pen.empty();
    }
    let (library, stem) = (place.library, place.stem.as_str());
    let contents = content_names(pen, nested, &JSON);
    pen.four(
        "use Rattle.std.specs.Prelude.{codes}
use Rattle.nano_json_tokens.specs.Written.{written_text}
use Rattle.{}.specs.{}JsonCodecs.{{}_json{}}
",
        library,
        stem,
        nested.root().snake.as_str(),
        contents.as_str(),
    )
}

/// The names of what the answers cite of the laws of a type, each after a comma.
fn cited_laws(pen: &Pen, nested: &Nested<'_>) -> String {
    let mut names = if nested.is_enum || nested.is_around() {
        pen.empty()
    } else {
        pen.one(", {}_json_text", nested.names.snake.as_str())
    };
    for held in &nested.contents {
        if held.has_fields {
            pen.add(&mut names, cited_fields(pen, nested, held).as_str());
        }
    }
    names
}

/// The names of the laws of all types that the answers cite, after another one.
fn beside(members: &[Nested<'_>]) -> &'static str {
    let mut has_names = false;
    let mut is_long = false;
    for nested in members {
        has_names = has_names || has_contents(nested);
        is_long = is_long || has_long_row(nested);
    }
    match (has_names, is_long) {
        (true, true) => ", none_so_far, named_between",
        (true, false) => ", named_between",
        (false, true) => ", none_so_far",
        (false, false) => "",
    }
}

/// The names of the definitions of what each field is written as, each after a comma.
fn cited_fields(pen: &Pen, nested: &Nested<'_>, held: &Held<'_>) -> String {
    let mut names = pen.empty();
    for called in &held.called {
        let name = field_name(pen, nested, &JSON, (held, called.as_str()));
        pen.add(&mut names, pen.one(", {}", name.as_str()).as_str());
    }
    names
}

/// That nothing is left of what is not written whole, by this function, in this call.
fn rollback(pen: &Pen, function: &str, call: &str) -> String {
    let mut holes = Holes::new(pen.alloc());
    holes.put("FUNCTION", function);
    holes.put("CALL", call);
    pen.whole(holes.fill(ROLLBACK))
}

const ROLLBACK: &str = "
pub $FUNCTION-rollback_on_error-requires :
    goal.$FUNCTION-rollback_on_error-requires
$FUNCTION-rollback_on_error-requires t c =
    unchanged_by c.$CALL-written.result c.args.s.now.out
    c.$CALL-written.new.s.out c.len-start.result _ c.len-start.ensures
    c.$CALL-written.ensures.ok c.$CALL-written.ensures.err
";

/// What the fields append between braces, as a ghost term of this many levels.
fn between(pen: &Pen, row: &Appended, inside: &str) -> String {
    pen.two(
        "(on_ok_weaker c.st_post.result
    (written_between c.args.d inner {} before opened
    {} (string_bytes c.st_post.new.self.out) c.saturating_add-inner.ensures
    c.in_ok-st_pre.ensures.ok row) c.st_post.ensures.ok)",
        row.fields.as_str(),
        inside,
    )
}

/// What the answers for fields begin with.
fn opening(pen: &Pen, row: &Appended) -> String {
    pen.one(
        "    let inner = c.saturating_add-inner.result in
    let before = string_bytes c.args.s.now.out in
    let opened = string_bytes c.st_pre.new.self.out in
    let row =
    {} in",
        row.ok.as_str(),
    )
}

/// The answers for what writes a struct.
fn struct_answers(pen: &Pen, nested: &Nested<'_>, held: &Held<'_>) -> String {
    let name = nested.names.of.as_str();
    let function = pen.one("{}WritesJson::write_json", name);
    let rollback = rollback(pen, function.as_str(), "append_record");
    let (row, inside) = fields_proof(pen, nested, held);
    let (opening, between) = (opening(pen, &row), between(pen, &row, inside.as_str()));
    let late = late_json_answers(pen, nested, held, "append_record");
    let mut holes = nested.holes(pen);
    let law = pen.whole(holes.fill(if nested.is_around() { "" } else { BY_LAW }));
    holes.put("LATE", late.as_str());
    holes.put("ROLLBACK", rollback.as_str());
    holes.put("OPENING", opening.as_str());
    holes.put("LAW", law.as_str());
    holes.put("BETWEEN", between.as_str());
    pen.whole(holes.fill(STRUCT_ANSWERS))
}

// What a type around the root is written as is seen by computing.
const BY_LAW: &str = "rw ($SNAKE_json_text c.args.d x)
    ";

const STRUCT_ANSWERS: &str = "$ROLLBACK
pub $NAMEJsonWriter::append_record-returns-clause-ok :
    goal.$NAMEJsonWriter::append_record-returns-clause-ok
$NAMEJsonWriter::append_record-returns-clause-ok t c =
    let x = c.args.value.now in
$OPENING
    $LAW$BETWEEN
$LATE";

/// The answers for what writes a variant with named fields.
fn variant_answers(pen: &Pen, nested: &Nested<'_>, held: &Held<'_>) -> String {
    let name = nested.names.of.as_str();
    let end = snake_of(pen, held.name.as_str());
    let append = pen.one("append_{}", end.as_str());
    let function = pen.two("{}JsonWriter::write_{}", name, end.as_str());
    let rollback = rollback(pen, function.as_str(), append.as_str());
    let (row, inside) = fields_proof(pen, nested, held);
    let (opening, between) = (opening(pen, &row), between(pen, &row, inside.as_str()));
    let content = content_answer(pen, nested, held, append.as_str());
    let fields = pen.one("{}_fields", append.as_str());
    let late = late_json_answers(pen, nested, held, fields.as_str());
    let mut holes = nested.holes(pen);
    holes.put("ROLLBACK", rollback.as_str());
    holes.put("APPEND", append.as_str());
    holes.put("OPENING", opening.as_str());
    holes.put("BETWEEN", between.as_str());
    holes.put("CONTENT", content.as_str());
    holes.put("LATE", late.as_str());
    pen.whole(holes.fill(VARIANT_ANSWERS))
}

const VARIANT_ANSWERS: &str = "$ROLLBACK
pub $NAMEJsonWriter::$APPEND_fields-returns-clause-ok :
    goal.$NAMEJsonWriter::$APPEND_fields-returns-clause-ok
$NAMEJsonWriter::$APPEND_fields-returns-clause-ok t c =
$OPENING
    $BETWEEN
$LATE$CONTENT";

/// The answer for the function that appends a variant with named fields: its name, and the fields.
fn content_answer(pen: &Pen, nested: &Nested<'_>, held: &Held<'_>, append: &str) -> String {
    let snake = nested.names.snake.as_str();
    let content = content_name(pen, &JSON, snake, held);
    let (key, values) = (held.key.as_str(), arguments(pen, 0, held.leaves.len()));
    let mut holes = nested.all_holes(pen);
    holes.put("APPEND", append);
    holes.put("KEY", key);
    holes.put("CONTENT", content.as_str());
    holes.put("VALUES", values.as_str());
    pen.whole(holes.fill(CONTENT_ANSWER))
}

const CONTENT_ANSWER: &str = "
pub $NAMEJsonWriter::$APPEND-returns-clause-ok : goal.$NAMEJsonWriter::$APPEND-returns-clause-ok
$NAMEJsonWriter::$APPEND-returns-clause-ok t c =
    on_ok_weaker c.st_post.result
    (named_between (written_text (codes \"$KEY\"))
    (($CONTENT.codec $BASE_json).canonical.text c.args.d $VALUES)
    (string_bytes c.args.s.now.out) (string_bytes c.st_pre.new.self.out)
    (string_bytes c.ser_json.new.s.out) (string_bytes c.push_str.new.self)
    (string_bytes c.$APPEND_fields.new.s.out) (string_bytes c.st_post.new.self.out)
    c.in_ok-st_pre.ensures.ok c.in_ok-ser_json.ensures.ok c.in_ok-push_str.ensures.bytes
    c.in_ok-$APPEND_fields.ensures.ok) c.st_post.ensures.ok
";

/// The values of the fields from one place up to another, as nested pairs of arguments.
fn arguments(pen: &Pen, from: usize, end: usize) -> String {
    let count = end.saturating_sub(from);
    if count < 2 {
        return pen.one("c.args.v{}.now", pen.number(from).as_str());
    }
    let middle = from.saturating_add(count / 2);
    let one = arguments(pen, from, middle);
    let other = arguments(pen, middle, end);
    pen.two("({}, {})", one.as_str(), other.as_str())
}
