//! Superdense time: points of a run, the clocks of components, and seconds as ticks.
//!
//! A run counts ticks of the system. A component of a coarser resolution counts local ticks, each of which is `factor`
//! ticks of the system. [`local_time`], [`local_step`] and [`limit`] convert between the two. [`read_seconds`] gives
//! the ticks of a literal, and [`seconds_text`] writes ticks as seconds. The layers above use these, [`Point`], and the
//! definitions. Nothing here takes memory, except the growth of a text.
//!
//! Definitions: `specs/LocalTime.antt` (local time, local steps, limits), `specs/Seconds.antt` (how many ticks a number
//! of seconds is, or why it is none; ticks as a text), `specs/Laws.antt`. The public functions without a body are laws
//! about them.
#![tactic(auto)]

mod clock;
mod laws;
mod point;
mod seconds;

pub use clock::{limit, local_step, local_time};
pub use laws::{limits_pass_local_ticks, seconds_are_worked, times_are_worked};
pub use point::Point;
pub use seconds::{SecondsFault, read_seconds, seconds_text};
