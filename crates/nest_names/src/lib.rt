//! The names of nests: tables of the names in a nest, and the scopes that they are in.
//!
//! The layers above use [`NestNames`], which contracts see as the nest, [`GroupScope`] and [`Spot`], and the functions that
//! go from scope to scope: [`follow`] goes down from an output of a group to a component's, [`reach`] from an input to
//! those of components.
//!
//! Definitions: `specs/Flattening.antt` (scopes, ports in scopes, and the flat system), `specs/GroupPorts.antt` (which
//! ports units and groups have) and `specs/Tables.antt` (the contents of tables of names).
#![tactic(auto)]

mod lists;
mod names;
mod scope;
mod tables;

pub use lists::PlacesByName;
pub use names::{GroupNames, NestNames};
pub use scope::{
    GroupScope, LEVELS, Spot, copied_name, copied_port, copied_scope, distinct, flat_name,
    flat_port, follow, inside, put_bind, reach, same_group, same_port, same_scope, spot_of, top,
};
pub use tables::{BindNames, InstanceNames, Places, at, note, noted};
