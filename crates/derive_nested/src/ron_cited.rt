//! The modules whose names a definition or a law of RON may cite.

use crate::imports::Known;

/// Those of RON.
pub(crate) const RON: [Known; 13] = [
    Known {
        module: "std.specs.Prelude",
        names: &["chars"],
    },
    Known {
        module: "nano_ron.specs.Codec",
        names: &["Codec", "codec_as"],
    },
    Known {
        module: "nano_ron.specs.ScalarCodecs",
        names: &["boolean_codec", "unit_codec"],
    },
    Known {
        module: "nano_ron.specs.ContainerCodecs",
        names: &[
            "array_codec",
            "linked_codec",
            "map_codec",
            "option_codec",
            "ordered_codec",
            "ordered_map_codec",
            "pair_codec",
            "quadruple_codec",
            "set_codec",
            "triple_codec",
        ],
    },
    Known {
        module: "nano_ron_tokens.specs.Token",
        names: &["Token"],
    },
    Known {
        module: "nano_ron_tokens.specs.Cut",
        names: &["ron_grammar"],
    },
    Known {
        module: "nano_ron_tokens.proofs.RonLaws",
        names: &["ron", "block_brackets", "curly_brackets", "paren_brackets"],
    },
    Known {
        module: "nano_ron_tokens.proofs.ScalarsLaws",
        names: &["none_style"],
    },
    Known {
        module: "nano_ron_tokens.proofs.StylesLaws",
        names: &["curly_style", "entry_style", "line_style", "tuple_style"],
    },
    Known {
        module: "nano_ron_schema.specs.FieldCodecs",
        names: &[
            "defaulted_field",
            "no_fields",
            "optional_field",
            "required_field",
            "ron_fields",
            "word_names",
        ],
    },
    Known {
        module: "nano_ron_schema.specs.VariantCodecs",
        names: &["ron_variants", "single_codec"],
    },
    Known {
        module: "nano_ron_schema.specs.Variants",
        names: &["content_text"],
    },
    Known {
        module: "nano_ron_nested.specs.TypeCodecs",
        names: &[
            "list_codec",
            "u8_codec",
            "u16_codec",
            "u32_codec",
            "u64_codec",
            "usize_codec",
            "i8_codec",
            "i16_codec",
            "i32_codec",
            "i64_codec",
            "string_codec",
        ],
    },
];
