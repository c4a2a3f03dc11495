//! Codecs of user-defined types that contain themselves, level by level, over any tokens: the laws
//! of fields, tuples, options, maps and variants around values of the type.
#![tactic(auto)]
