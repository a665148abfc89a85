//! Reading of nested texts: groups of components, and the system after them, whose instances may be groups.
//!
//! The layer above uses [`read_nest`] with [`Nest`], [`Group`], [`Bind`] and [`NestFault`]. The reader of the language
//! is used once for each part, on a text that is made for it. What it refuses is reported at the line of the nested
//! text. A public function without a body is a law: each nested text has one nest, or is refused once
//! ([`nests_are_read_once`]).
//!
//! Definitions: `specs/NestLines.antt` (the kinds of lines, and where each is allowed) and `specs/Nests.antt` (how a
//! text is split into groups, its nest, and where it is refused); `specs/Laws.antt` states the law. How the code reads
//! is defined in `specs/Reading.antt`.
#![tactic(auto)]

mod fault;
mod groups;
mod kind;
mod laws;
mod nest;
mod parts;
mod place;
mod reading;

pub use fault::NestFault;
pub use laws::nests_are_read_once;
pub use nest::{Bind, Group, Nest};
pub use reading::read_nest;
