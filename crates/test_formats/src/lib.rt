//! Tests of values, of texts, of each format with its tokens, of frames and of
//! `nano_text_forms` over their public surfaces: what the tables of `conformance_run` cannot
//! say. They are one crate, since what a crate costs before its first function is more than most
//! of them, and a crate of their own, so that they are proved beside the libraries and not with
//! them.
#![tactic(auto)]

#[cfg(test)]
mod byte_tests;
#[cfg(test)]
mod checks;
#[cfg(test)]
mod codec_law_tests;
#[cfg(test)]
mod form_tests;
#[cfg(test)]
mod frame_source;
#[cfg(test)]
mod frame_tests;
#[cfg(test)]
mod json_tests;
#[cfg(test)]
mod key_tests;
#[cfg(test)]
mod line_tests;
#[cfg(test)]
mod long_map_tests;
#[cfg(test)]
mod plain_tests;
#[cfg(test)]
mod ron_tests;
#[cfg(test)]
mod text_tests;
#[cfg(test)]
mod toml_tests;
