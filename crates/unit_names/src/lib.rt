//! Tables of a system's names, and the tests of names and expressions that the rules need.
//!
//! The layer above walks over the lines of a system and calls these tests. [`SystemNames`] finds units, instances and
//! ports by name. [`UnitNames`] finds what a unit declares, which names an expression uses, and which kind it has. Both
//! are made once. Contracts see them as the system and the unit themselves. They find a name without a search through a
//! list, except among the needs of one output, which are few.
//!
//! How deep an expression is, what a call costs, and whether a name occurs twice need no table. For an event output
//! they are computed for the two plain outputs that it becomes ([`presence_cost`], [`word_cost`] and similar
//! functions), without making these. Any other line of the plain form has the depth and the cost of its source.
//!
//! The tests are defined in `unit_tree`: `Names`, `Kinds`, `Costs`, `Plain` and `WellFormed`. How they are computed is
//! defined in `specs/`: `Entries` (from what a table is made), `Found` (the first declaration of a name), `Systems`
//! (ports of a system), `Uses` (what an expression may use) and `Choices` (event outputs).
#![tactic(auto)]

mod choices;
mod entries;
mod expressions;
mod kinds;
mod systems;
mod tables;
mod units;
mod uses;

pub use choices::{presence_cost, presence_is_within, word_cost, word_is_within};
pub use expressions::{cost, is_within, line_cost, lines_cost};
pub use kinds::is_same_kind;
pub use systems::SystemNames;
pub use tables::Declared;
pub use units::UnitNames;
pub use uses::{Asker, has_equals, is_among};
