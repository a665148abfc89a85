//! The rules that an input can break, each with its number in a refusal, and the limits of texts, systems, components and calls.
//!
//! Each rule and each of these limits has one name for code and one for definitions. Definitions: `specs/Numbers.antt` (the
//! number of a rule) and `specs/Limits.antt` (the limits). No call takes memory, and none fails. Limits that only one crate
//! knows are in that crate.
#![tactic(auto)]

mod limits;
mod rule;

pub use limits::{
    DEEPEST_BLOCK, DEEPEST_EXPRESSION, DEEPEST_WRITING, DEFAULT_ROWS_WITH_EVENTS,
    DEFAULT_ZERO_STEPS, DEFAULT_ZERO_STEPS_WITH_EVENTS, GREATEST_COST, GREATEST_HEIGHT,
    LONGEST_LINE, LONGEST_NAME, LONGEST_TEXT, LONGEST_WINDOW, MOST_CELLS, MOST_CONNECTIONS,
    MOST_DECIMALS, MOST_INPUTS, MOST_INSTANCES, MOST_LOCALS, MOST_OUTPUTS, MOST_PARAMS,
    MOST_ROUNDS, MOST_ROWS, MOST_SAMPLES, MOST_STATES, MOST_TURNS, MOST_UNITS, MOST_WORKERS,
    MOST_ZERO_STEPS,
};
pub use rule::Rule;
