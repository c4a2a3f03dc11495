//! The modules whose names a definition or a law of a format of texts may cite.

use crate::imports::Known;

/// Those that every format of texts cites.
pub(crate) const TEXTS: [Known; 14] = [
    Known {
        module: "nano_grammar.specs.FieldCodec",
        names: &["WrittenField", "fields_text"],
    },
    Known {
        module: "nano_levels.specs.Layers",
        names: &["Layer", "Nested"],
    },
    Known {
        module: "nano_levels.proofs.LayersLaws",
        names: &["itself_layer", "list_layer", "option_layer", "other_layer"],
    },
    Known {
        module: "nano_levels.proofs.LevelsLaws",
        names: &["level", "limited"],
    },
    Known {
        module: "nano_schema_levels.specs.FieldLayers",
        names: &["FieldsLayer"],
    },
    Known {
        module: "nano_schema_levels.specs.VariantLayers",
        names: &["VariantsLayer"],
    },
    Known {
        module: "nano_schema_levels.proofs.FieldLayersLaws",
        names: &[
            "defaulted_layer",
            "fields_pair_layer",
            "optional_layer",
            "other_fields",
            "required_layer",
            "struct_layer",
        ],
    },
    Known {
        module: "nano_schema_levels.proofs.LegalLevelsLaws",
        names: &[
            "agree_by_steps",
            "agree_through",
            "legal_as",
            "nested_agrees",
        ],
    },
    Known {
        module: "nano_schema_levels.proofs.MapLayersLaws",
        names: &["follows_order", "ordered_map_layer"],
    },
    Known {
        module: "nano_schema_levels.proofs.AroundLaws",
        names: &["choice_as"],
    },
    Known {
        module: "nano_schema_levels.proofs.NestedLaws",
        names: &["layer_legal", "layer_text", "legal_seen", "text_seen"],
    },
    Known {
        module: "nano_schema_levels.proofs.PartLaws",
        names: &["pair_layer", "seen_layer", "single_layer", "triple_layer"],
    },
    Known {
        module: "nano_schema_levels.proofs.VariantLayersLaws",
        names: &[
            "choice_layer",
            "last_unit",
            "last_variant",
            "next_unit",
            "next_variant",
        ],
    },
    Known {
        module: "nano_bin_nested.proofs.LegalLaws",
        names: &["nested_agrees as bin_agrees"],
    },
];

/// Those of JSON.
pub(crate) const JSON: [Known; 11] = [
    Known {
        module: "nano_json.specs.Codec",
        names: &["Codec", "codec_as"],
    },
    Known {
        module: "nano_json.specs.ScalarCodecs",
        names: &["boolean_codec", "unit_codec"],
    },
    Known {
        module: "nano_json.specs.ContainerCodecs",
        names: &[
            "array_codec",
            "list_codec",
            "list_codec as linked_codec",
            "map_codec",
            "option_codec",
            "ordered_codec",
            "ordered_map_codec",
            "pair_codec",
            "quadruple_codec",
            "set_codec",
            "triple_codec",
        ],
    },
    Known {
        module: "nano_json_tokens.specs.Token",
        names: &["Token"],
    },
    Known {
        module: "nano_json_tokens.specs.Cut",
        names: &["json_grammar"],
    },
    Known {
        module: "nano_json_tokens.specs.Written",
        names: &["written_text"],
    },
    Known {
        module: "nano_json_tokens.proofs.JsonLaws",
        names: &[
            "json",
            "block_brackets",
            "block_style",
            "curly_brackets",
            "curly_style",
            "entry_style",
            "null_style",
            "tuple_style",
        ],
    },
    Known {
        module: "nano_json_schema.specs.FieldCodecs",
        names: &[
            "plain_names",
            "defaulted_field",
            "json_fields",
            "optional_field",
            "required_field",
            "single_codec",
            "u8_codec",
            "u16_codec",
            "u32_codec",
            "u64_codec",
            "usize_codec",
            "i8_codec",
            "i16_codec",
            "i32_codec",
            "i64_codec",
            "string_codec",
        ],
    },
    Known {
        module: "nano_json_schema.specs.VariantCodecs",
        names: &["json_variants"],
    },
    Known {
        module: "nano_json_schema.specs.Variants",
        names: &["content_text"],
    },
    Known {
        module: "nano_json_schema.specs.Outcomes",
        names: &["none_yet"],
    },
];
