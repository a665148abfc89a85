//! The limits. `specs/Limits.antt` has the same ones for definitions.

/// The most bytes of a text, with one end counted for each line.
pub const LONGEST_TEXT: usize = 1_048_576;

/// The most bytes of a line, without its end.
pub const LONGEST_LINE: usize = 1_000;

/// The most bytes of a name.
pub const LONGEST_NAME: usize = 32;

/// The most decimals of a number.
pub const MOST_DECIMALS: u8 = 9;

/// The most levels of an expression as a line writes it, with one for each pair of parentheses.
pub const DEEPEST_WRITING: u8 = 64;

/// The most levels of an expression, where one without parts has one level.
pub const DEEPEST_EXPRESSION: u32 = 32;

/// The most blocks around a line of a unit.
pub const DEEPEST_BLOCK: u32 = 16;

/// The most turns of a `repeat`.
pub const MOST_TURNS: u32 = 1_000;

/// The most parameters of a unit.
pub const MOST_PARAMS: usize = 32;

/// The most states of a unit.
pub const MOST_STATES: usize = 64;

/// The most locals of a unit.
pub const MOST_LOCALS: usize = 64;

/// The most inputs of a unit in its plain form.
pub const MOST_INPUTS: usize = 32;

/// The most outputs of a unit in its plain form.
pub const MOST_OUTPUTS: usize = 32;

/// The most units of a system.
pub const MOST_UNITS: usize = 64;

/// The most instances of a system.
pub const MOST_INSTANCES: usize = 64;

/// The most connections of a system in its plain form.
pub const MOST_CONNECTIONS: usize = 2_048;

/// The most ports that a system samples.
pub const MOST_SAMPLES: usize = 2_048;

/// The greatest cost of one call of a component.
pub const GREATEST_COST: u32 = 100_000;

/// The most rows of a trace.
pub const MOST_ROWS: u32 = 100_000;

/// The most rows of a trace, times the number of instances.
pub const MOST_CELLS: u32 = 1_000_000;

/// The most steps without length in one row.
pub const MOST_ZERO_STEPS: u32 = 10_000;

/// The most steps without length in one row, where a text of version 1 gives none.
pub const DEFAULT_ZERO_STEPS: u32 = 100;

/// The most steps without length in one row, where a text of version 2 gives none.
pub const DEFAULT_ZERO_STEPS_WITH_EVENTS: u32 = 1_000;

/// The most rows of a trace, where a text of version 2 gives none. In version 1 it is [`MOST_ROWS`].
pub const DEFAULT_ROWS_WITH_EVENTS: u32 = 10_000;

/// The most words on the stack of a component's code.
pub const GREATEST_HEIGHT: u32 = 64;

/// The most workers of a run.
pub const MOST_WORKERS: u64 = 16;

/// The most rows for which inputs are guessed.
pub const LONGEST_WINDOW: u64 = 16;

/// The most rounds of two nodes.
pub const MOST_ROUNDS: u64 = 100_000;
