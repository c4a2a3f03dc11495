//! Written by derive_files: how the types of the module above are encoded.

ghost use Rattle.std.specs.Prelude.{codes, ◌==◌, if◌then◌else◌, OnOk, OnErr};
ghost use Rattle.nano_text.specs.Outcomes.{Appends, AppendsPart};
ghost use Rattle.nano_schema.specs.UserTypes.{agreed};

use super::*;
use nano_json_nested::{
    NestedJson, ReadsJson, WritesJson, append_optional_within, append_required_within, no_levels,
    read_record_json_within, rollback_on_error, too_deep,
};
use nano_json_schema::{
    DeJson, DeJsonErr, DeJsonState, JsonCodec, JsonRefs, SerJson, SerJsonState,
};
use nano_levels::{Levels, Other, Within};
use nano_ron_nested::{
    NestedRon, ReadsRon, WritesRon, append_optional, append_required, read_record_ron_within,
};
use nano_ron_schema::{DeRon, DeRonErr, DeRonState, RonCodec, SerRon, SerRonState};
use nano_schema::{Label, Optional, Required, StructSchema, Value};
use std::alloc::{AllocError, Global};
use std::str::Chars;

pub struct CommentNames<const I: usize> {}

impl<const I: usize> Label for CommentNames<I> {
    ghost label = { if I == 0 then codes "author" else if I == 1 then codes "text"
        else if I == 2 then codes "votes" else if I == 3 then codes "pinned"
        else if I == 4 then codes "quoted" else codes "answers" };

    fn text() -> &'static str {
        nano_schema::name_of!(I, 0 => "author", 1 => "text", 2 => "votes", 3 => "pinned",
            4 => "quoted", _ => "answers")
    }
}

type CommentFields = (
    (
        Other<Required<CommentNames<0>, String>>,
        (
            Other<Required<CommentNames<1>, String>>,
            Other<Required<CommentNames<2>, i32>>,
        ),
    ),
    (
        Other<Optional<CommentNames<3>, bool>>,
        (
            Within<Optional<CommentNames<4>, Box<Comment>>>,
            Within<Required<CommentNames<5>, Vec<Comment>>>,
        ),
    ),
);

impl StructSchema for Comment {
    ghost use Rattle.test_nested_derived_ron.specs.CommentCodecs.{comment_view};

    type Values = (
        (String, (String, i32)),
        (Option<bool>, (Option<Box<Comment>>, Vec<Comment>)),
    );

    ghost view = { comment_view };

    fn make(values: Self::Values) -> Self {
        let ((author, (text, votes)), (pinned, (quoted, answers))) = values;
        Comment {
            author,
            text,
            votes,
            pinned,
            quoted,
            answers,
        }
    }
}

impl Value for Comment {
    ghost use Rattle.test_nested_derived_ron.specs.CommentCodecs.{comment_means};
    ghost use Rattle.test_nested_derived_ron.specs.CommentJsonCodecs.{comment_json};

    ghost means = { comment_means };

    ghost legal = { comment_json.encoding.legal };

    #[tactic(auto, using(crate::proofs::CommentJsonCodecsLaws::comment_legal))]
    fn known(&self) {
        Value::known(&self.author);
        Value::known(&self.text);
        Value::known(&self.votes);
        Value::known(&self.pinned);
        Value::known(&self.quoted);
        Value::known(&self.answers);
    }
}

// ---- JSON

impl JsonCodec for Comment {
    ghost use Rattle.test_nested_derived_ron.specs.CommentJsonCodecs.{comment_json};

    ghost json = { comment_json };

    ghost agrees = { agreed };
}

impl NestedJson for Comment {
    ghost use Rattle.test_nested_derived_ron.specs.CommentCodecs.{comment_means};
    ghost use Rattle.test_nested_derived_ron.specs.CommentJsonCodecs.{comment_json_at};

    ghost means = { comment_means };

    ghost at = { comment_json_at };
}

/// What writes `Comment` as JSON.
struct CommentJsonWriter {}

impl CommentJsonWriter {
    ghost use Rattle.test_nested_derived_ron.specs.CommentJsonCodecs.{comment_json};

    /// Appends the fields between braces. If the write fails, what was written so far is left.
    #[cycle(write_comment_json)]
    fn append_record(
        value: &Comment,
        alloc: Global,
        d: usize,
        s: &mut SerJsonState,
    ) -> Result<(), AllocError>
        ensures ok { OnOk result
            (Appends s.old.out s.new.out (comment_json.canonical.text d value.now)) }
        ensures err { OnErr result (AppendsPart s.old.out s.new.out) }
    {
        s.st_pre()?;
        let inner = d.saturating_add(1);
        let text_is_first = Required::<CommentNames<0>, String>::append_fields(
            &&value.author,
            alloc,
            true,
            inner,
            s,
        )?;
        let votes_is_first = Required::<CommentNames<1>, String>::append_fields(
            &&value.text,
            alloc,
            text_is_first,
            inner,
            s,
        )?;
        let pinned_is_first = Required::<CommentNames<2>, i32>::append_fields(
            &&value.votes,
            alloc,
            votes_is_first,
            inner,
            s,
        )?;
        let quoted_is_first = Optional::<CommentNames<3>, bool>::append_fields(
            &&value.pinned,
            alloc,
            pinned_is_first,
            inner,
            s,
        )?;
        let answers_is_first = append_optional_within(
            alloc,
            "quoted",
            &value.quoted,
            quoted_is_first,
            inner,
            s,
        )?;
        append_required_within(alloc, "answers", &value.answers, answers_is_first, inner, s)?;
        s.st_post(d)
    }
}

impl WritesJson for Comment {
    #[cycle(write_comment_json)]
    fn write_json(&self, alloc: Global, d: usize, s: &mut SerJsonState) -> Result<(), AllocError> {
        let start = s.out.len();
        let written = CommentJsonWriter::append_record(self, alloc, d, s);
        rollback_on_error(&mut s.out, start, written)
    }
}

impl SerJson for Comment {
    fn ser_json(&self, alloc: Global, d: usize, s: &mut SerJsonState) -> Result<(), AllocError> {
        WritesJson::write_json(self, alloc, d, s)
    }
}

impl ReadsJson<Comment> for Levels {
    #[cycle(read)]
    fn read_json(
        &self,
        left: usize,
        alloc: Global,
        state: &mut DeJsonState,
        input: &mut Chars<'_>,
    ) -> Result<Comment, DeJsonErr> {
        if left == 0 {
            return Err(too_deep(alloc, state));
        }
        let Levels::More(below) = self else {
            return Err(no_levels(alloc, state));
        };
        let Some(below) = below.first() else {
            return Err(no_levels(alloc, state));
        };
        match read_record_json_within::<Levels, CommentFields>(
            below,
            left - 1,
            alloc,
            state,
            input,
        ) {
            Ok(values) => Ok(Comment::make(values)),
            Err(error) => Err(error),
        }
    }
}

impl DeJson for Comment {
    fn de_json(
        alloc: Global,
        state: &mut DeJsonState,
        input: &mut Chars<'_>,
    ) -> Result<Self, DeJsonErr> {
        let levels = Levels::most();
        ReadsJson::<Self>::read_json(levels, 128, alloc, state, input)
    }
}

// ---- RON

impl RonCodec for Comment {
    ghost use Rattle.test_nested_derived_ron.specs.CommentRonCodecs.{comment_ron};

    ghost ron = { comment_ron };

    ghost agrees = { agreed };
}

impl NestedRon for Comment {
    ghost use Rattle.test_nested_derived_ron.specs.CommentCodecs.{comment_means};
    ghost use Rattle.test_nested_derived_ron.specs.CommentRonCodecs.{comment_ron_at};

    ghost means = { comment_means };

    ghost at = { comment_ron_at };
}

/// What writes `Comment` as RON.
struct CommentRonWriter {}

impl CommentRonWriter {
    ghost use Rattle.test_nested_derived_ron.specs.CommentRonCodecs.{comment_ron};

    /// Appends the fields between parentheses. If the write fails, what was written so far is left.
    #[cycle(write_comment_ron)]
    fn append_record(
        value: &Comment,
        alloc: Global,
        d: usize,
        s: &mut SerRonState,
    ) -> Result<(), AllocError>
        ensures ok { OnOk result
            (Appends s.old.out s.new.out (comment_ron.canonical.text d value.now)) }
        ensures err { OnErr result (AppendsPart s.old.out s.new.out) }
    {
        s.st_pre()?;
        let inner = d.saturating_add(1);
        append_required(alloc, "author", &value.author, inner, s)?;
        append_required(alloc, "text", &value.text, inner, s)?;
        append_required(alloc, "votes", &value.votes, inner, s)?;
        append_optional(alloc, "pinned", &value.pinned, inner, s)?;
        nano_ron_nested::append_optional_within(alloc, "quoted", &value.quoted, inner, s)?;
        nano_ron_nested::append_required_within(alloc, "answers", &value.answers, inner, s)?;
        s.st_post(d)
    }
}

impl WritesRon for Comment {
    #[cycle(write_comment_ron)]
    fn write_ron(&self, alloc: Global, d: usize, s: &mut SerRonState) -> Result<(), AllocError> {
        let start = s.out.len();
        let written = CommentRonWriter::append_record(self, alloc, d, s);
        nano_ron_nested::rollback_on_error(&mut s.out, start, written)
    }
}

impl SerRon for Comment {
    fn ser_ron(&self, alloc: Global, d: usize, s: &mut SerRonState) -> Result<(), AllocError> {
        WritesRon::write_ron(self, alloc, d, s)
    }
}

impl ReadsRon<Comment> for Levels {
    #[cycle(read)]
    fn read_ron(
        &self,
        left: usize,
        alloc: Global,
        state: &mut DeRonState,
        input: &mut Chars<'_>,
    ) -> Result<Comment, DeRonErr> {
        if left == 0 {
            return Err(nano_ron_nested::too_deep(alloc, state));
        }
        let Levels::More(below) = self else {
            return Err(nano_ron_nested::no_levels(alloc, state));
        };
        let Some(below) = below.first() else {
            return Err(nano_ron_nested::no_levels(alloc, state));
        };
        match read_record_ron_within::<Levels, CommentFields>(
            below,
            left - 1,
            alloc,
            state,
            input,
        ) {
            Ok(values) => Ok(Comment::make(values)),
            Err(error) => Err(error),
        }
    }
}

impl DeRon for Comment {
    fn de_ron(
        alloc: Global,
        state: &mut DeRonState,
        input: &mut Chars<'_>,
    ) -> Result<Self, DeRonErr> {
        let levels = Levels::most();
        ReadsRon::<Self>::read_ron(levels, 128, alloc, state, input)
    }
}
