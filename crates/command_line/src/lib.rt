//! The words of a command line: which command they are of, and what its options ask for.
//!
//! [`command_of`] returns the [`Command`] of words, or `None` where they have no form. A command has its numbers in their ranges
//! ([`Within`]), so that the code that serves it knows them. [`words_are_worked`] is about words that were worked out by hand, and
//! [`options_have_no_order`] is the law that options may come in any order.
//!
//! Definitions:
//!
//! - `specs/Words.antt`, `specs/Options.antt`: words as options, and what options give
//! - `specs/Ranges.antt`: ranges of numbers
//! - `specs/Generations.antt`: what a command asks of the generator
//! - `specs/Commands.antt`: which words are which command, how much it reads, and whether it has workers
//! - `specs/Laws.antt`, `specs/WorkedWords.antt`: the laws, and the worked words
#![tactic(auto)]

mod commands;
mod generation;
mod options;
mod ranges;
mod replaying;
mod running;
mod saving;
mod splitting;

pub use commands::{Command, command_of, words_are_worked};
pub use generation::Generation;
pub use options::options_have_no_order;
pub use ranges::Within;
pub use replaying::Replaying;
pub use running::{Running, Window, Workers};
pub use saving::{RowNumber, Saving};
pub use splitting::{Rounds, Splitting};
