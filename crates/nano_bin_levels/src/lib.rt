//! Codecs of types that contain themselves, level by level, as bytes: the laws of a box, a list, a
//! pair, an option, content after a tag, and alternatives whose tags differ.
#![tactic(auto)]
