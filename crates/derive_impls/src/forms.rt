//! What a type is in its formats: by its fields or variants, or as what it holds.

/// What is written of a type in each format, as templates.
#[derive(Clone, Copy)]
pub(crate) struct Form<'a> {
    /// The lines that bring in what the term cites, in bytes, JSON and RON.
    pub(crate) imports: [&'static [&'static str]; 3],
    /// How values are encoded, as a ghost term.
    pub(crate) term: &'static str,
    /// What writes a value.
    pub(crate) write: &'a str,
    /// What reads a value.
    pub(crate) read: &'static str,
    /// The method that takes a value which stands plainly, or nothing.
    pub(crate) taker: &'static str,
    /// Whether what is read is said by the codec, and not by what its parts mean.
    pub(crate) is_by_codec: bool,
}

const REFL: &str = "ghost use Rattle.std.specs.Prelude.{refl};";

/// A struct, by its fields.
pub(crate) const RECORD: Form = Form {
    imports: [
        &["ghost use Rattle.nano_bin_schema.specs.Structs.{bin_of};"],
        &[
            "ghost use Rattle.nano_json_schema.specs.Structs.{json_of};",
            REFL,
        ],
        &[
            "ghost use Rattle.nano_ron_schema.specs.Structs.{ron_of};",
            REFL,
        ],
    ],
    term: "$MODULE_of ⟦<$FULL as nano_schema::StructSchema>⟧.view \
        ⟦<$ROW as nano_$MODULE_schema::$NAMEShape>⟧.codec$PROOF",
    write: "        nano_$MODULE_schema::write_record_$MODULE::<Self, $ROW>(self, $ARGUMENTS)",
    read: "        nano_$MODULE_schema::read_record_$MODULE::<Self, $ROW>($ARGUMENTS)",
    taker: RECORD_TAKER,
    is_by_codec: true,
};

const RECORD_TAKER: &str = "

    fn de_$MODULE_plain(alloc: std::alloc::Global, place: &mut nano_$MODULE_schema::Place, \
        input: &mut std::str::Chars<'_>, text: &mut String) -> Option<Self> {
        nano_$MODULE_schema::take_record_$MODULE::<Self, $ROW>(alloc, place, input, text)
    }";

/// A struct by its fields in JSON, where it has no others.
pub(crate) const STRICT: Form = Form {
    imports: [
        &[],
        &[
            "ghost use Rattle.nano_json_schema.specs.Structs.{strict_json_of};",
            REFL,
        ],
        &[],
    ],
    term: "strict_json_of ⟦<$FULL as nano_schema::StructSchema>⟧.view \
        ⟦<$ROW as nano_json_schema::JsonShape>⟧.codec$PROOF",
    write: "        nano_json_schema::write_record_json::<Self, $ROW>(self, $ARGUMENTS)",
    read: "        nano_json_schema::read_record_json_strict::<Self, $ROW>($ARGUMENTS)",
    taker: STRICT_TAKER,
    is_by_codec: true,
};

const STRICT_TAKER: &str = "

    fn de_json_plain(alloc: std::alloc::Global, place: &mut nano_json_schema::Place, \
        input: &mut std::str::Chars<'_>, text: &mut String) -> Option<Self> {
        nano_json_schema::take_record_json_strict::<Self, $ROW>(alloc, place, input, text)
    }";

/// A struct by its fields in RON, where others are skipped.
pub(crate) const OPEN: Form = Form {
    imports: [
        &[],
        &[],
        &[
            "ghost use Rattle.nano_ron_schema.specs.Structs.{open_ron_of};",
            REFL,
        ],
    ],
    term: "open_ron_of ⟦<$FULL as nano_schema::StructSchema>⟧.view \
        ⟦<$ROW as nano_ron_schema::RonShape>⟧.codec$PROOF",
    write: "        nano_ron_schema::write_record_ron::<Self, $ROW>(self, $ARGUMENTS)",
    read: "        nano_ron_schema::read_record_ron_open::<Self, $ROW>($ARGUMENTS)",
    taker: "",
    is_by_codec: true,
};

/// An enum, by its variants.
pub(crate) const CHOICE: Form = Form {
    imports: [
        &[
            "ghost use Rattle.nano_bin_schema.specs.Enums.{bin_choice};",
            REFL,
        ],
        &[
            "ghost use Rattle.nano_json_schema.specs.Enums.{json_choice};",
            REFL,
        ],
        &[
            "ghost use Rattle.nano_ron_schema.specs.Enums.{ron_choice};",
            REFL,
        ],
    ],
    term: "$MODULE_choice ⟦<$FULL as nano_schema::EnumSchema>⟧.view \
        ⟦<$ROW as nano_$MODULE_schema::$NAMEShapes>⟧.$CHOSEN",
    write: "        nano_$MODULE_schema::write_choice_$MODULE::<Self, $ROW>(self, $ARGUMENTS)",
    read: "        nano_$MODULE_schema::read_choice_$MODULE::<Self, $ROW>($ARGUMENTS)",
    taker: "",
    is_by_codec: true,
};

const HELD: [&[&str]; 3] = [
    &["ghost use Rattle.nano_bin_schema.specs.Structs.{codec_as as bin_as};"],
    &["ghost use Rattle.nano_json_schema.specs.Structs.{codec_as as json_as};"],
    &["ghost use Rattle.nano_ron_schema.specs.Structs.{codec_as as ron_as};"],
];

/// A struct of one part, which it is.
pub(crate) const TRANSPARENT: Form = Form {
    imports: HELD,
    term: "$MODULE_as (λ x. x.0) ⟦<$ROW as nano_$MODULE_schema::$NAMECodec>⟧.$MODULE",
    write: "        nano_$MODULE_schema::Ser$NAME::ser_$MODULE(&self.0, $ARGUMENTS)",
    read: "        match <$ROW as nano_$MODULE_schema::De$NAME>::de_$MODULE($ARGUMENTS) {
            Ok(value) => Ok($TYPE(value)),
            Err(error) => Err(error),
        }",
    taker: "",
    is_by_codec: false,
};

/// A struct of more parts than a tuple of Rust's has here, by its first part and the others. Bytes
/// have no brackets: they are those of its parts.
pub(crate) const WIDE: Form = Form {
    imports: [
        &[],
        &["ghost use Rattle.nano_json_schema.specs.Structs.{tuple_json_of};"],
        &["ghost use Rattle.nano_ron_schema.specs.Structs.{tuple_ron_of};"],
    ],
    term: "tuple_$MODULE_of ⟦<$FULL as nano_schema::StructSchema>⟧.view \
        ⟦<$ROW as nano_$MODULE_schema::$NAMEParts>⟧.codec",
    write: "        nano_$MODULE_schema::write_tuple_$MODULE::<Self, $ROW>(self, $ARGUMENTS)",
    read: "        nano_$MODULE_schema::read_tuple_$MODULE::<Self, $ROW>($ARGUMENTS)",
    taker: "",
    is_by_codec: true,
};

/// A struct of several parts, which is their tuple in a text. What writes it is given.
pub(crate) fn tupled(write: &str) -> Form<'_> {
    Form {
        imports: HELD,
        term: "$MODULE_as ⟦<$FULL as nano_schema::StructSchema>⟧.view \
            ⟦<$VALUES as nano_$MODULE_schema::$NAMECodec>⟧.$MODULE",
        write,
        read: "        nano_$MODULE_schema::read_parts_$MODULE::<Self, $VALUES>($ARGUMENTS)",
        taker: "",
        is_by_codec: false,
    }
}
