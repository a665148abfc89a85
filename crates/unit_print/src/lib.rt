//! Canonical text: the one text that is printed for a system.
//!
//! The layer above uses [`print_system`], and [`is_printable`], which returns whether the text is read back as the
//! system. The definitions are in `unit_tree`: `Canonical` (the lines, their tokens and how tokens are joined) and
//! `Printable` (which systems have a canonical text). How the printer works is defined in `specs/Growing.antt`: a text
//! that grows at its end by tokens and lines. How a system is judged is defined in `specs/Fitting.antt`: a test for
//! each line.
#![tactic(auto)]

mod expressions;
mod fitting;
mod fitting_expressions;
mod fitting_lines;
mod levels;
mod lines;
mod names;
mod printable;
mod printing;
mod steps;
mod tokens;

pub use names::is_word;
pub use printable::is_printable;
pub use printing::print_system;
