//! Saved positions: a position of a run as a text, and runs that continue from such a text.
//!
//! [`save_text`] writes the saved text of the position with a number in a plan's trace. It has a few lines with its row, its point
//! and the states of all instances, and then the canonical text of the system. So this text is enough to continue the run.
//! [`read_saved`] reads such lines at the beginning of a text, or returns the first line that is wrong. The reader of the language
//! reads the text of the system after them. [`open_saved`] opens a run of a plan at what was read.
//!
//! A position that is read may be off the trace, which no call tests: a saved text may have been written by hand.
//!
//! Definitions: `specs/SavedTexts.antt` (the lines, what a text saves, and where it breaks) and `specs/Saving.antt` (what is
//! saved of a trace, and which position of a plan is meant).
//!
//! The laws of `specs/Laws.antt`: each text saves one position or breaks at one line. The saved text of a position of a trace saves
//! this position, and no other fits what was saved. A trace has at most one position with a number, and so many rows before it.
//! At most one position fits what was saved. `specs/Reading.antt` describes how the reader proceeds; no promise depends on it.
#![tactic(auto)]

mod fault;
mod laws;
mod lines;
mod opening;
mod reading;
mod saving;
mod walking;
mod words;

pub use fault::{SaveFault, SavedFault};
pub use laws::{
    numbers_have_one_position, positions_are_saved, rows_are_before, saved_positions_fit_once,
    texts_save_or_break, traces_can_be_resumed,
};
pub use opening::open_saved;
pub use reading::{Saved, read_saved};
pub use saving::save_text;
