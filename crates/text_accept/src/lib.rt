//! Which texts are accepted by all rules of the language.
//!
//! The layer above uses [`accept_text`], which reads a text, judges its system and makes an order of its outputs. For
//! any other text it returns the line and the rule by which the text is refused. [`accept_system`] does the same for a
//! system that was read before, with the lines that it came from. Definitions: `specs/Accepting.antt` (which text is
//! accepted as which system, and at which line and by which rule any other is refused), `specs/Marks.antt` (names of
//! ports in the plain form). [`texts_are_judged_once`] is the law that each text is judged in one way.
#![tactic(auto)]

mod accepting;
mod laws;

pub use accepting::{AcceptedText, accept_system, accept_text};
pub use laws::texts_are_judged_once;
