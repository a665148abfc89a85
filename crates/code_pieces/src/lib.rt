//! Structured code for the stack machine: pieces, in sequence, in choices and in loops.
//!
//! The meaning of a piece is defined without places, counters or a bound on instructions. Laws say that the machine does the
//! same ([`pieces_are_followed`]), and that parts made of pieces are valid code ([`piece_parts_are_valid`],
//! [`piece_programs_have_facts`]). The layer above makes the code of pieces by [`joined`], [`choice`], [`when`] and [`turns`]. Jumps
//! are relative, so code is joined unchanged.
//!
//! Definitions: `specs/Pieces.antt` (pieces: their code, what they do, cost and need), `specs/Laws.antt`,
//! `specs/Worked.antt`.
#![tactic(auto)]

mod joining;
mod laws;

pub use joining::{choice, joined, turns, when};
pub use laws::{
    piece_parts_are_valid, piece_programs_have_facts, pieces_are_followed, pieces_are_worked,
};
