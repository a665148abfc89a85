//! Laws of model texts, without code. A system that is read is printable ([`what_is_read_is_printable`]), a canonical
//! text is read back ([`canonical_text_is_read_back`]), no canonical line is longer than any line that has its form
//! ([`canonical_lines_are_shortest`]), and there are as many canonical lines as lines that they came from
//! ([`source_lines_are_one_for_one`]).
//!
//! Definitions: `Texts`, `Canonical` and `Printable` of `unit_tree`; `specs/Laws.antt` states the laws. That the reader
//! and the printer satisfy the definitions is stated by their own clauses.
#![tactic(auto)]

mod laws;

pub use laws::{
    canonical_lines_are_shortest, canonical_text_is_read_back, source_lines_are_one_for_one,
    what_is_read_is_printable,
};
