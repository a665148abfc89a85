//! Where a run goes from a phase whose cells are all filled.
ghost use Rattle.std.specs.Prelude.{◌≡◌, ◌≤◌, length};
ghost use Rattle.trace_core.specs.Courses.{course_in, IsReady};

use crate::phase::Phase;
use crate::seat::Seat;
use crate::steps::SeatSteps;
use step_rule::{Course, course_of_redo, course_of_trial};
use trace_plan::Plan;
use unit_tree::Point;

/// Returns where a run goes from a phase of which no cell is empty.
pub(crate) fn course_of(plan: &Plan, seats: &[Seat], phase: Phase, point: Point) -> Course
    requires seats { length seats.now ≡ length plan.now.run.members }
    requires zeros { point.n ≤ plan.now.run.zero_budget }
    requires ready { IsReady plan.now.run point.t phase seats.now }
    ensures { result ≡ course_in plan.now.run point phase seats.now }
{
    // Called for its clauses, which state how many seats there may be.
    let _ = plan.instances();
    let steps = SeatSteps { plan, seats };
    let zero = plan.zero_budget();
    match phase {
        Phase::Trial { h } => course_of_trial(&steps, point, h, zero),
        Phase::Redo { h } => course_of_redo(&steps, point, h, zero),
        Phase::Ended(ending) => Course::End(ending),
    }
}
