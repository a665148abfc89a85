//! The lines of a model text, and the tokens that the code of a line spells. The layer above removes a carriage
//! return before the line end, and the comment.
//!
//! The layer above uses [`size`] (how many bytes a text counts), [`cut_line`] (the first line of a text) and
//! [`tokens`] (the tokens that code spells, or that it spells none). [`Unread`] has the two reasons why a part
//! of a text was not read. Lemmas of `proofs/TokenLemmas.antt` prove that each line spells at most one list of
//! tokens, and that it is decided whether it spells any.
//!
//! Definitions: `Lines` and `Tokens` of `unit_tree`. How the code reads is defined in `specs/Scanning.antt`.
#![tactic(auto)]

mod fault;
mod lines;
mod scanning;

pub use fault::Unread;
pub use lines::{cut_line, size};
pub use scanning::tokens;
