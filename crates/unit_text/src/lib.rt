//! Reading of model texts of the whole language. From bytes it makes the tree of a system, with the lines that its
//! canonical lines came from. For a text that is refused it gives the line and the rule.
//!
//! The layer above uses [`read_system`] with [`ReadText`] and [`TextFault`]. Two laws of reading are public functions
//! without a body: each text has one result ([`texts_are_answered_once`]), and lines nest as parts
//! ([`nesting_is_by_parts`]). Laws about one line are in `text_lines`, and those that need no reader in `text_laws`.
//!
//! Definitions: `Texts` and `SourceLines` of `unit_tree`, with those that they use; `specs/Laws.antt` states the laws.
//! How the code reads is defined in `specs/Drafts.antt` (the system of the lines so far), `specs/Numbering.antt` (the
//! numbers of its lines) and `specs/Reading.antt` (line by line).
#![tactic(auto)]

mod draft;
mod fault;
mod laws;
mod numbers;
mod reading;

pub use fault::TextFault;
pub use laws::{nesting_is_by_parts, texts_are_answered_once};
pub use reading::{ReadText, read_system};
