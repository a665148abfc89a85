//! What a run shows of an instance for guesses, and how its lane is published with them.
//!
//! [`outlook`] returns what is known of an instance at the run's stand. [`publish_from`] publishes a lane with the line that is
//! guessed from it. [`cut_window`] limits the window of a run, so that there is memory for the answers of all lanes. Definitions:
//! `specs/Outlooks.antt`. The layers above, `spec_core` and `work_crew`, publish by these calls.
#![tactic(auto)]

mod outlooks;
mod window;

pub use outlooks::{outlook, publish_from};
pub use window::cut_window;
