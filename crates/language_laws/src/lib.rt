//! Laws of the language, over its definitions alone.
//!
//! What follows from the definitions of `unit_tree` about texts and systems, without code. A text is refused at most
//! once ([`texts_are_refused_once`]), a system is judged once ([`each_system_is_judged_once`]), the rules are stated
//! for the canonical lines ([`sites_are_canonical_lines`]), and so on. `specs/Language.antt` states the laws. The
//! lemmas of `proofs/` are for the crates above, among them those on names (`NameLaws`), parts (`PartLaws`) and plain
//! forms (`PlainLemmas`, `PlainNames`).
#![tactic(auto)]

mod laws;

pub use laws::{
    canonical_parts_say_the_system, canonical_phrases_are_right, cycles_have_no_order,
    each_system_is_judged_once, outputs_have_lines, plain_lines_are_those,
    sites_are_canonical_lines, source_lines_are_right, texts_are_refused_once,
};
