//! Upgrades: the same system in version 2 for a system of version 1.
//!
//! The layer above uses [`upgrade`], which returns the system in version 2, or that its text would be too long. It writes the
//! default budgets of version 1 where the system has none. Laws say that the upgrade is printable and well-formed, has no cycle
//! where the system has none, and has the same trace ([`upgrades_are_right`]).
//!
//! Definitions: `specs/Upgrades.antt` (the system, and when its text is too long), `specs/Laws.antt`, `specs/Worked.antt` (some
//! that were worked out by hand). `specs/Added.antt` has the lines that an upgrade adds, from which its length is counted.
#![tactic(auto)]

mod fault;
mod laws;
mod upgrading;

pub use fault::UpgradeFault;
pub use laws::{upgrades_are_right, upgrades_are_worked};
pub use upgrading::upgrade;
