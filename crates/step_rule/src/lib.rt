//! The rules of a step: the proposed step, a component's reply, the agreed step, and the point after the step
//! (Broman et al., "Determinate Composition of FMUs for Co-Simulation", EMSOFT 2013). None of them takes memory.
//!
//! Lengths are in ticks of the system, except accepted lengths and local steps, which are in local ticks of the component.
//!
//! [`propose`], [`reply`], [`agree`] and [`after`] are the rules for lists of limits and replies. [`next_point`] is the point after a
//! step, [`capped`] the lesser of a length and a limit, and [`is_held`] says whether a component makes no step.
//!
//! A run has no such lists: it reads the results of its components one by one. It begins with [`longest_step`], and [`limited`] takes
//! the result of a `max` into account. The trait [`Steps`] has the steps of all components in a phase. [`course_of_trial`] and
//! [`course_of_redo`] return where they lead ([`Course`]), and [`read_trial`] the agreed step. A node of a shared run uses the same
//! functions. It knows only a part of a row, so it first asks [`are_made`] whether all steps of a phase are known.
//!
//! Definitions: `unit_tree/specs/Negotiation.antt` defines the proposal, the reply and the agreed step.
//! `unit_tree/specs/Successor.antt` defines the point after a step, and `specs/AfterStep.antt` what follows a step. `specs/Limits.antt`
//! defines what follows from one limit, `specs/Steps.antt` what follows from the steps of all components, and `specs/Courses.antt`
//! where a run goes. [`steps_are_read`] states that this is what the negotiation defines.
#![tactic(auto)]

mod courses;
mod laws;
mod rules;
mod steps;

pub use courses::{Course, course_of_redo, course_of_trial};
pub use laws::{a_trial_is_worked, steps_are_read};
pub use rules::{
    NextPoint, after, agree, capped, is_held, is_held_by, limited, longest_step, next_point,
    propose, reply,
};
pub use steps::{Slot, Step, Steps, are_made, read_trial};
