//! The outside, as the rest of the co-simulation sees it. Bytes are taken from a [`Source`] and appended to a [`Sink`].
//! Each counts its faults, so that a caller that reports a failure can be proved to have had one.
//!
//! A crate above is generic over `S: Source` and `O: Sink`. It may use the two traits, [`read_all`] with its
//! [`ReadEnd`], and their clauses. A program passes [`StdSource`] and [`StdSink`] over the standard streams. A test
//! passes [`MemSource`] and [`MemSink`], whose failing calls it lists. [`NullSink`] keeps nothing: it is for a caller
//! that needs the outcome of a run and not its output.
//!
//! The definitions are in `specs/`: `Faults` (when a count rose, and what a call does to it), `Pieces` (what is taken
//! and appended), `Scripted` (what the source and the sink over memory do). Laws for a caller that writes several
//! times are in `proofs/PieceLemmas`. Such a function names them by `using(cosim_io::proofs::PieceLemmas::piece_laws)`.
#![tactic(auto)]

mod edge;
mod memory;
mod null;
mod sink;
mod source;
mod whole;

pub use edge::{StdSink, StdSource};
pub use memory::{MemSink, MemSource};
pub use null::NullSink;
pub use sink::Sink;
pub use source::{Failed, Source};
pub use whole::{ReadEnd, read_all};
