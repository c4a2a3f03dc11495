//! The modules whose names a definition or a law may cite.

use crate::imports::Known;

/// Those that every format cites.
pub(crate) const SHARED: [Known; 29] = [
    Known {
        module: "std.specs.Prelude",
        names: &[
            "◌≡◌",
            "◌++◌",
            "◌∷◌",
            "[]",
            "ℕ",
            "ℤ",
            "List",
            "suc",
            "max",
            "map",
            "refl",
            "pos",
            "neg_ℤ",
            "true",
            "false",
            "codes",
            "encode_utf8_all",
            "Bool",
            "Box",
            "Option",
            "Some",
            "None",
            "String",
            "Vec",
            "string_bytes",
            "string_cmp",
        ],
    },
    Known {
        module: "std.specs.BTreeMap",
        names: &["BTreeMap"],
    },
    Known {
        module: "std.specs.BTreeSet",
        names: &["BTreeSet"],
    },
    Known {
        module: "std.specs.HashMap",
        names: &["HashMap"],
    },
    Known {
        module: "std.specs.HashSet",
        names: &["HashSet"],
    },
    Known {
        module: "std.specs.declared.hash.BuildHasherDefault",
        names: &["BuildHasherDefault"],
    },
    Known {
        module: "std.specs.declared.hash.FoldHasher",
        names: &["FoldHasher"],
    },
    Known {
        module: "std.specs.Global",
        names: &["Global"],
    },
    Known {
        module: "std.specs.Int",
        names: &["w8", "w16", "w32", "w64", "w128"],
    },
    Known {
        module: "std.specs.Ordering",
        names: &["nat_cmp", "int_cmp", "bool_cmp"],
    },
    Known {
        module: "std.specs.Option",
        names: &["option_map"],
    },
    Known {
        module: "std.proofs.Common",
        names: &[
            "◌∙◌",
            "ap",
            "append_assoc",
            "arith",
            "inl",
            "inr",
            "lit<",
            "lit≤",
            "rules",
            "sym",
        ],
    },
    Known {
        module: "std.proofs.lemmas.Str",
        names: &["encode_ascii", "encodes-append"],
    },
    Known {
        module: "nano_value.specs.Meaning",
        names: &[
            "Meaning",
            "Agrees",
            "nothing",
            "truth",
            "number",
            "whole",
            "text",
            "optional",
            "listed",
            "paired",
            "LegalUnsigned",
            "LegalSigned",
            "LegalTruth",
            "LegalUnit",
            "LegalText",
            "LegalOption",
            "LegalList",
            "LegalArray",
            "LegalPair",
        ],
    },
    Known {
        module: "nano_value.specs.Sets",
        names: &["LegalSet", "item_set", "set_means"],
    },
    Known {
        module: "nano_value.specs.Sums",
        names: &["tagged", "LegalVariant", "variant", "no_variants"],
    },
    Known {
        module: "nano_value.specs.Ordered",
        names: &["ordered_map_means", "ordered_means"],
    },
    Known {
        module: "nano_value.specs.Tables",
        names: &["LegalMap", "table_means", "table_of"],
    },
    Known {
        module: "nano_meaning.proofs.OrderLaws",
        names: &[
            "texts",
            "texts_follow",
            "wholes",
            "unsigned_follow",
            "truths_follow",
            "numbers",
            "signed_follow",
        ],
    },
    Known {
        module: "nano_meaning.proofs.MeaningLaws",
        names: &["list_weaker", "option_weaker", "pair_weaker"],
    },
    Known {
        module: "nano_meaning.proofs.TablesLaws",
        names: &["map_weaker"],
    },
    Known {
        module: "nano_levels.specs.Layers",
        names: &["greatest"],
    },
    Known {
        module: "nano_schema.specs.declared.choices.Either",
        names: &["Either"],
    },
    Known {
        module: "nano_schema.specs.declared.choices.Either.TheVariants",
        names: &["First", "Later"],
    },
    Known {
        module: "nano_schema.specs.Choices",
        names: &["either_is"],
    },
    Known {
        module: "nano_schema_levels.specs.LegalLevels",
        names: &["IsWeaker", "LegalStep"],
    },
    Known {
        module: "nano_schema_levels.specs.Depths",
        names: &["held_depth"],
    },
    Known {
        module: "nano_schema_levels.proofs.LegalLevelsLaws",
        names: &["remains"],
    },
    Known {
        module: "nano_schema_levels.proofs.StepsLaws",
        names: &[
            "by_option",
            "later_depth",
            "list_depth",
            "list_means",
            "map_means",
            "option_means",
            "pair_depth",
            "pair_means",
        ],
    },
];

/// Those of bytes.
pub(crate) const BYTES: [Known; 16] = [
    Known {
        module: "nano_bin_bytes.specs.Codec",
        names: &["Codec"],
    },
    Known {
        module: "nano_bin_bytes.specs.BaseCodecs",
        names: &["codec_as"],
    },
    Known {
        module: "nano_bin_bytes.specs.Scalars",
        names: &["little_endian"],
    },
    Known {
        module: "nano_bin_bytes.proofs.ScalarsLaws",
        names: &["bits_fit_128"],
    },
    Known {
        module: "nano_bin.specs.ScalarCodecs",
        names: &[
            "boolean_codec",
            "u8_codec",
            "u16_codec",
            "u32_codec",
            "u64_codec",
            "usize_codec",
            "unsigned_codec",
            "i8_codec",
            "i16_codec",
            "i32_codec",
            "i64_codec",
            "signed_codec",
            "string_codec",
            "unit_codec",
        ],
    },
    Known {
        module: "nano_bin.specs.ContainerCodecs",
        names: &[
            "list_codec",
            "list_codec as linked_codec",
            "map_codec",
            "option_codec",
            "ordered_codec",
            "ordered_map_codec",
            "pair_codec",
            "set_codec",
        ],
    },
    Known {
        module: "nano_bin_levels.specs.Layers",
        names: &["Layer", "Nested"],
    },
    Known {
        module: "nano_bin_levels.proofs.LayersLaws",
        names: &["itself_layer", "next_layer", "other_layer", "seen_layer"],
    },
    Known {
        module: "nano_bin_levels.proofs.ListsLaws",
        names: &["list_layer"],
    },
    Known {
        module: "nano_bin_levels.proofs.MapsLaws",
        names: &["ordered_map_layer"],
    },
    Known {
        module: "nano_bin_levels.proofs.OptionsLaws",
        names: &["option_layer"],
    },
    Known {
        module: "nano_bin_levels.proofs.LevelsLaws",
        names: &["nested_codec"],
    },
    Known {
        module: "nano_bin_nested.specs.ChoiceLayerCodecs",
        names: &[
            "ChoiceLayer",
            "choice_layer",
            "last_variant",
            "next_variant",
        ],
    },
    Known {
        module: "nano_bin_nested.specs.PairLayerCodecs",
        names: &["pair_layer"],
    },
    Known {
        module: "nano_bin_nested.specs.TupleCodecs",
        names: &["array_codec", "quadruple_codec", "triple_codec"],
    },
    Known {
        module: "nano_bin_nested.proofs.NestedLaws",
        names: &["layer_legal", "layer_written", "seen_legal", "written_seen"],
    },
];
