//! Units that run: each unit of a checked system as code, and the calls of one.
//!
//! [`compile`] returns the [`Image`] of a unit with words of its parameters, and a [`Unit`] runs it. [`Unit::get`],
//! [`Unit::max_step`] and [`Unit::do_step`] return the results of runs of the image's code for the unit's state and inputs. By the
//! clause of [`compile`], these are the calls of the component. Only [`Unit::new`] takes memory.
//! A [`Want`] describes a required step by all that it depends on, for whoever is to make it.
//!
//! Definitions: `specs/Images.antt` (when an image is a component's), `specs/Running.antt` (a unit that runs). The results of
//! runs of code, and the meaning of a step, `meaning_of`, are in `Calls` of `code_units`. The law
//! [`checked_units_are_compilable`] says that every unit of a checked system can be compiled. `specs/Showing.antt` defines for which
//! outputs an image notes the state that they show; no promise depends on it.
#![tactic(auto)]

mod calls;
mod image;
mod laws;
mod unit;
mod want;

pub use image::{Image, compile};
pub use laws::{checked_units_are_compilable, valid_programs_answer};
pub use unit::Unit;
pub use want::Want;
