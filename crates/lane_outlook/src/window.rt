//! The window of a run: for how many rows its inputs are guessed.
ghost use Rattle.std.specs.Prelude.{◌≡◌};
ghost use Rattle.lane_outlook.specs.Outlooks.{cut_window};

use trace_core::Plan;

/// How many cells the lines of a whole run may have together.
const MOST_CELLS: u64 = 4_000_000;

/// Returns the window that a run uses where `window` is asked for: it may be smaller.
pub fn cut_window(plan: &Plan, window: u32) -> u32
    ensures { result ≡ cut_window plan.now.run window }
{
    let cells = plan.row_limit() * u64::from(plan.instances());
    u64::from(window).min(MOST_CELLS / cells) as u32
}
