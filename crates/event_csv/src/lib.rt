//! The text of the trace of a system with event ports, as the system is written: a definition and a law, without code.
//!
//! `specs/EventText.antt` defines the text from the system itself: an output has a word in its column, and an event output has
//! an empty field where no event occurs. The program writes the words of the plain form by `trace_csv`. A law says that this is
//! the same text ([`trace_texts_are_read`]).
#![tactic(auto)]

mod laws;

pub use laws::trace_texts_are_read;
