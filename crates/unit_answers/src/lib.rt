//! Answers with their proof: the result of the step of a key, whoever made it.
//!
//! A [`Key`] is all that a step of a component depends on: its code, its state, the words of its inputs, the local time and
//! the local step. [`prove`] makes the step that a [`Want`] describes and returns a [`Proven`]. The invariant of this type is
//! that its [`Answer`] is the meaning of its own key. So a run may use an answer that another thread made ahead from guessed
//! inputs, wherever its key is that of the required step. [`same_key`] decides this.
//!
//! The layer above uses all that is named here. Definitions: `specs/Keys.antt` (keys and what they mean),
//! `specs/Answers.antt` (when an answer is proven). `specs/Proving.antt` describes how one is made; no promise depends on it.
#![tactic(auto)]

mod answer;
mod key;
mod proven;
mod proving;

pub use answer::Answer;
pub use key::Key;
pub use proven::{Proven, same_key};
pub use proving::prove;
pub use unit_exec::Want;
