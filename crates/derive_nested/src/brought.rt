//! What a file of definitions or laws brings in of the types that it is for.

use crate::cycle::snake_of;
use crate::nested::Nested;
use crate::parameters::coded_by;
use crate::text_codec::TextTerms;
use crate::text_layers::content_name;
use derive_pen::Pen;
use derive_syntax::{Case, Holes, codecs_name, crate_of};

/// The lines that bring in what is declared of a type.
pub(crate) fn declared_lines(pen: &Pen, module: &str, nested: &Nested<'_>) -> String {
    let mut holes = nested.holes(pen);
    put_modules(&mut holes, pen, module, nested);
    pen.whole(holes.fill(DECLARED))
}

const DECLARED: &str = "$OF.{$NAME}
$GROUP.TheOpen.{$NAME-F}
$GROUP.TheViews.{out-$NAME}
$GROUP.TheFolds.{map-$NAME, fold-$NAME, fold_out-$NAME}
";

/// The line that brings in how a value of a type is opened.
pub(crate) fn declared_view(pen: &Pen, module: &str, nested: &Nested<'_>) -> String {
    let (name, first) = (nested.names.of.as_str(), nested.members.first());
    pen.three("use Rattle.{}.{}.TheViews.{out-{}}\n", module, first, name)
}

/// Puts what begins a line that brings in what is declared of a type, and of all types that contain
/// each other: that stands in the module of the first.
fn put_modules(holes: &mut Holes, pen: &Pen, module: &str, nested: &Nested<'_>) {
    let of = pen.two("use Rattle.{}.{}", module, nested.names.of.as_str());
    let group = pen.two("use Rattle.{}.{}", module, nested.members.first());
    holes.put("OF", of.as_str());
    holes.put("GROUP", group.as_str());
}

/// The lines that bring in what the definitions of a format of texts cite of a type.
pub(crate) fn text_lines(
    pen: &Pen,
    module: &str,
    nested: &Nested<'_>,
    before: Option<&str>,
) -> String {
    let snake = nested.names.snake.as_str();
    let specs = specs_of(pen, module);
    let several = match before {
        _ if nested.is_around() => pen.empty(),
        Some("bin") => {
            let weaker = weaker_lines(pen, nested, (specs.as_str(), "bin"));
            let names = pen.three("{}_step, {}_nested, {}_codec", snake, snake, snake);
            pen.three(
                "{}.{{}}\n{}",
                specs.as_str(),
                names.as_str(),
                weaker.as_str(),
            )
        }
        Some(text) => earlier_lines(pen, module, nested, text),
        None => pen.empty(),
    };
    let mut holes = nested.holes(pen);
    put_modules(&mut holes, pen, module, nested);
    holes.put("SPECS", specs.as_str());
    holes.put("SEVERAL", several.as_str());
    let depth = if nested.is_around() { FOLDED } else { DEPTH };
    let depth = pen.whole(holes.fill(depth));
    holes.put("DEEP", depth.as_str());
    pen.whole(holes.fill(TEXT_LINES))
}

const TEXT_LINES: &str = "$OF.{$NAME}
$GROUP.TheOpen.{$NAME-F}
$GROUP.TheViews.{out-$NAME}
$GROUP.TheFolds.{map-$NAME, fold_out-$NAME}
$SPECS.{$NAMEContent, $SNAKE_opened, $SNAKE_view, $SNAKE_means, $SNAKE_means_step}
$SPECS.{$DEEP}
$SEVERAL";

const DEPTH: &str = "$SNAKE_depth, $SNAKE_depth_step";

const FOLDED: &str = "$SNAKE_depth_step, $SNAKE_means_folded, $SNAKE_depth_folded";

/// The lines that bring in what is legal, and the codec of an earlier format of texts.
fn earlier_lines(pen: &Pen, module: &str, nested: &Nested<'_>, earlier: &str) -> String {
    let (library, _path) = crate_of(module);
    let specs = specs_of(pen, module);
    let file = codecs_name_in(pen, module, earlier);
    let mut holes = nested.holes(pen);
    let weaker = weaker_lines(pen, nested, (specs.as_str(), earlier));
    holes.put("WEAKER", weaker.as_str());
    holes.put("SPECS", specs.as_str());
    holes.put("LIBRARY", library);
    holes.put("FILE", file.as_str());
    holes.put("EARLIER", earlier);
    pen.whole(holes.fill(EARLIER_LINES))
}

const EARLIER_LINES: &str = "$SPECS.{$SNAKE_step}
use Rattle.$LIBRARY.specs.$FILE.{$SNAKE_$EARLIER_nested, $SNAKE_$EARLIER}
$WEAKER";

/// The lines that bring in by what a type with parameters agrees with an earlier format.
fn weaker_lines(pen: &Pen, nested: &Nested<'_>, (specs, earlier): (&str, &str)) -> String {
    if !nested.is_generic() {
        return pen.empty();
    }
    let codecs = match earlier {
        "bin" => "nano_bin_bytes",
        "json" => "nano_json",
        _ => "nano_ron",
    };
    let (snake, of) = (nested.names.snake.as_str(), coded_by(earlier).of);
    pen.four(
        "{}.{{}_weaker}\nuse Rattle.{}.specs.Codec.{Codec as {}}\n",
        specs,
        snake,
        codecs,
        of,
    )
}

/// What begins a line that brings in definitions of the types of a module.
fn specs_of(pen: &Pen, module: &str) -> String {
    let (library, _path) = crate_of(module);
    let file = pen.whole(codecs_name(pen.alloc(), module));
    pen.two("use Rattle.{}.specs.{}", library, file.as_str())
}

/// The name of the file of definitions for a format of texts: `ShapesJsonCodecs` beside
/// `ShapesCodecs`.
pub(crate) fn text_codecs_name(pen: &Pen, module: &str, format: &TextTerms) -> String {
    codecs_name_in(pen, module, format.name)
}

/// The same for a format of texts of this name.
fn codecs_name_in(pen: &Pen, module: &str, format: &str) -> String {
    let file = pen.whole(codecs_name(pen.alloc(), module));
    let stem = file.as_str().strip_suffix("Codecs").unwrap_or("");
    let name = pen.whole(Case::Pascal.of_field(pen.alloc(), format));
    pen.two("{}{}Codecs", stem, name.as_str())
}

/// The lines that bring in what the laws of a type cite of it.
pub(crate) fn cited_lines(pen: &Pen, module: &str, nested: &Nested<'_>, has_bin: bool) -> String {
    let (name, snake) = (nested.names.of.as_str(), nested.names.snake.as_str());
    let of = pen.two("use Rattle.{}.{}", module, name);
    let specs = specs_of(pen, module);
    let levels = levels_of(pen, nested, "");
    let codec = if has_bin {
        pen.three(", {}_means, {}, {}_codec", snake, levels.as_str(), snake)
    } else {
        pen.empty()
    };
    let mut lines = pen.two("{}.{{}}\n", of.as_str(), name);
    let viewed = pen.three("{}.{{}_view{}}\n", specs.as_str(), snake, codec.as_str());
    pen.add(&mut lines, viewed.as_str());
    if nested.is_enum {
        let first = nested.members.first();
        let line = pen.two("use Rattle.{}.{}.{the_lemmas}\n", module, first);
        pen.add(&mut lines, line.as_str());
    }
    pen.add(&mut lines, parts_lines(pen, module, nested).as_str());
    lines
}

/// The name of the record of a type's levels with this infix of a format, or that of it as a layer:
/// of an enum beside that of what it is seen as.
fn levels_of(pen: &Pen, nested: &Nested<'_>, infix: &str) -> String {
    let snake = nested.names.snake.as_str();
    match (nested.is_around(), nested.is_enum) {
        (false, _) => pen.two("{}_{}nested", snake, infix),
        (true, false) => pen.one("{}_around", snake),
        (true, true) => pen.three("{}_around, {}_{}layer", snake, snake, infix),
    }
}

/// The lines that bring in the variants of an enum, or how a struct is opened.
fn parts_lines(pen: &Pen, module: &str, nested: &Nested<'_>) -> String {
    let name = nested.names.of.as_str();
    let of = pen.two("use Rattle.{}.{}", module, name);
    if !nested.is_enum {
        let first = nested.members.first();
        return pen.three("use Rattle.{}.{}.TheViews.{out-{}}\n", module, first, name);
    }
    let mut lines = pen.empty();
    for held in &nested.contents {
        let variant = held.name.as_str();
        pen.add(
            &mut lines,
            pen.four("{}.{{} as {}-{}}\n", of.as_str(), variant, name, variant)
                .as_str(),
        );
    }
    lines
}

/// The lines that bring in what the laws of a format of texts cite of a type, whose first format it
/// is or not.
pub(crate) fn text_cited(
    pen: &Pen,
    module: &str,
    nested: &Nested<'_>,
    format: &TextTerms,
    is_first: bool,
) -> String {
    let (library, _path) = crate_of(module);
    let mut holes = format.holes(pen, nested);
    put_modules(&mut holes, pen, module, nested);
    let infix = format.coded.infix;
    holes.put("OWN_LEVELS", levels_of(pen, nested, infix).as_str());
    holes.put("SPECS", specs_of(pen, module).as_str());
    holes.put("LIBRARY", library);
    holes.put("FILE", text_codecs_name(pen, module, format).as_str());
    holes.put("MEANS", means_cited(pen, nested, is_first).as_str());
    holes.put("FIELDS", fields_cited(pen, nested, format).as_str());
    holes.put("VIEWS", views_line(pen, module, nested).as_str());
    holes.put("PARTS", parts_lines(pen, module, nested).as_str());
    pen.whole(holes.fill(TEXT_CITED))
}

/// What a value means, as a further name that is cited, where no format comes before.
fn means_cited(pen: &Pen, nested: &Nested<'_>, is_first: bool) -> String {
    if !is_first {
        return pen.empty();
    }
    pen.one(", {}_means", nested.names.snake.as_str())
}

/// The layers of fields, as further names that are cited.
fn fields_cited(pen: &Pen, nested: &Nested<'_>, format: &TextTerms) -> String {
    if nested.is_enum {
        return content_names(pen, nested, format);
    }
    let snake = nested.names.snake.as_str();
    pen.two(", {}_{}fields", snake, format.coded.infix)
}

const TEXT_CITED: &str = "$OF.{$NAME}
$SPECS.{$SNAKE_view$MEANS}
use Rattle.$LIBRARY.specs.$FILE.{$OWN_LEVELS, $SNAKE_$SUFFIX$FIELDS}
$VIEWS$PARTS";

/// The names of the layers of the named fields of variants, each after a comma.
pub(crate) fn content_names(pen: &Pen, nested: &Nested<'_>, format: &TextTerms) -> String {
    let mut names = pen.empty();
    for held in &nested.contents {
        if held.has_fields {
            let name = content_name(pen, format, nested.names.snake.as_str(), held);
            pen.add(&mut names, pen.one(", {}", name.as_str()).as_str());
        }
    }
    names
}

/// The line that brings in what the variants of an enum are seen as.
fn views_line(pen: &Pen, module: &str, nested: &Nested<'_>) -> String {
    let (library, _path) = crate_of(module);
    let file = pen.whole(codecs_name(pen.alloc(), module));
    let snake = nested.names.snake.as_str();
    let mut names = pen.empty();
    for held in &nested.contents {
        let end = snake_of(pen, held.name.as_str());
        let before = if names.is_empty() { "" } else { ", " };
        pen.add(
            &mut names,
            pen.three("{}{}_view_{}", before, snake, end.as_str())
                .as_str(),
        );
    }
    if !nested.is_enum {
        return pen.empty();
    }
    pen.three(
        "use Rattle.{}.proofs.{}Laws.{{}}\n",
        library,
        file.as_str(),
        names.as_str(),
    )
}
