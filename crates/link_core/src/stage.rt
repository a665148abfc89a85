//! What a row requires next.
ghost use Rattle.std.specs.Prelude.{◌≡◌, ◌≤◌, ◌<◌, ◌+◌, map, zip, length, is_some, IfOk};
ghost use Rattle.std.specs.List.{list_all, filter_map};
ghost use Rattle.link_laws.specs.Making.{names_of};
ghost use Rattle.link_core.specs.Noted.{making_in, AreNotes, place_of, position_at, AllowsStep};
ghost use Rattle.link_laws.specs.Stages.{stage_of, stage_of_limits, stage_of_trial, stage_of_redo, word_end, max_by, limit_in};
ghost use Rattle.unit_tree.specs.Negotiation.{proposal_of};
ghost use Rattle.unit_tree.specs.Ports.{first_some};
ghost use Rattle.unit_tree.specs.Routes.{routes_of};
ghost use Rattle.unit_tree.specs.Successor.{first_told, max_end_of};
ghost use Rattle.step_rule.specs.Steps.{ending_or};

use crate::notes::Notes;
use crate::replies::Replies;
use fixed_words::Fault;
use link_laws::{Asked, Said, Seen, Stage};
use step_rule::{Course, are_made, course_of_redo, course_of_trial, limited, longest_step};
use super_time::Point;
use trace_plan::Plan;
use unit_tree::{Ending, Place, Route};

/// Returns whether all items are known.
fn are_known<T: Copy>(entries: &[Option<T>]) -> bool
    ensures { result ≡ list_all is_some entries.now }
{
    entries.iter().all(|one| one.is_some())
}

/// Returns how an output ends the run, if it does, by what is known of it.
fn word_end(route: &Route, seen: Option<Seen>) -> Option<Ending>
    ensures { result ≡ word_end ((route.now.instance, route.now.output), seen) }
{
    match seen {
        Some(Seen::Fault(fault)) => Some(Ending::UnitFault {
            instance: route.instance,
            place: Place::Output(route.output),
            fault,
        }),
        _ => None,
    }
}

/// Returns how a fault of an output ends the run, if there is one: the first by its place.
pub(crate) fn word_fault(plan: &Plan, words: &[Option<Seen>]) -> Option<Ending>
    requires { length words.now ≡ length (routes_of plan.now.run).outputs }
    ensures { result ≡ first_some (map word_end (zip (names_of plan.now.run) words.now)) }
{
    let routes = plan.order().routes().outputs.as_slice();
    for place in 0..routes.len() {
        let end = word_end(&routes[place], words[place]);
        if end.is_some() {
            return end;
        }
    }
    None
}

/// Returns the result of a `max` that is known.
fn max_by(asked: Option<Asked>) -> Result<Option<u64>, Fault>
    ensures { result ≡ max_by asked }
{
    match asked {
        Some(Asked::Max(local)) => Ok(Some(local)),
        Some(Asked::Fault(fault)) => Err(fault),
        Some(Asked::Free) | None => Ok(None),
    }
}

/// Returns the proposed step at `t`, where all limits are known, or how the first fault of a `max` ends the run.
fn read_limits(plan: &Plan, limits: &[Option<Asked>], t: u64) -> Result<u64, Ending>
    requires limits { length limits.now ≡ length plan.now.run.members }
    requires time { t ≤ plan.now.run.stop }
    ensures read { result ≡ ending_or (first_told max_end_of (map max_by limits.now))
        (proposal_of plan.now.run.stop plan.now.run.longest t (filter_map (limit_in t) (zip plan.now.run.members limits.now))) }
    ensures end { IfOk result (λ h. t + h ≤ plan.now.run.stop) }
{
    let mut least = longest_step(plan.stop(), plan.longest(), t);
    for instance in 0..plan.instances() {
        let told = max_by(limits[instance as usize]);
        least = limited(least, instance, plan.factor(instance), t, told)?;
    }
    Ok(least)
}

/// Returns the stage of a row with a redo of `h`.
fn stage_of_redo(plan: &Plan, point: Point, redos: &[Option<Said>], h: u64) -> Stage
    requires redos { length redos.now ≡ length plan.now.run.members }
    requires end { point.t + h ≤ plan.now.run.stop }
    requires zeros { point.n ≤ plan.now.run.zero_budget }
    ensures stage { result ≡ stage_of_redo plan.now.run (place_of point) redos.now h }
    ensures step { AllowsStep plan.now.run point result }
{
    // Called for their clauses, which state how large the numbers of a plan are.
    let _ = plan.stop();
    let _ = plan.instances();
    let steps = Replies {
        plan,
        said: redos,
        t: point.t,
        h,
    };
    if !are_made(&steps) {
        return Stage::Redo(h);
    }
    match course_of_redo(&steps, point, h, plan.zero_budget()) {
        Course::Redo(h) => Stage::Redo(h),
        Course::On(_) => Stage::On(h),
        Course::End(ending) => Stage::Over(ending),
    }
}

/// Returns the stage of a row with a trial of `h`.
fn stage_of_trial(plan: &Plan, point: Point, notes: &Notes, h: u64) -> Stage
    requires notes { AreNotes plan.now.run notes.now }
    requires end { point.t + h ≤ plan.now.run.stop }
    requires zeros { point.n ≤ plan.now.run.zero_budget }
    ensures stage { result ≡ stage_of_trial plan.now.run (place_of point) notes.now.replies.items notes.now.redos.items h }
    ensures step { AllowsStep plan.now.run point result }
{
    // Called for their clauses, which state how large the numbers of a plan are.
    let _ = plan.stop();
    let _ = plan.instances();
    let steps = Replies {
        plan,
        said: &notes.replies,
        t: point.t,
        h,
    };
    if !are_made(&steps) {
        return Stage::Trial(h);
    }
    match course_of_trial(&steps, point, h, plan.zero_budget()) {
        Course::Redo(least) => stage_of_redo(plan, point, &notes.redos, least),
        Course::On(_) => Stage::On(h),
        Course::End(ending) => Stage::Over(ending),
    }
}

/// Returns the stage of a row whose words are known, and where no end comes before the limits.
fn stage_of_limits(plan: &Plan, point: Point, notes: &Notes) -> Stage
    requires notes { AreNotes plan.now.run notes.now }
    requires time { point.t ≤ plan.now.run.stop }
    requires zeros { point.n ≤ plan.now.run.zero_budget }
    ensures stage { result ≡ stage_of_limits plan.now.run (place_of point) (making_in notes.now).known }
    ensures step { AllowsStep plan.now.run point result }
{
    // Called for its clauses, which state how large the numbers of a plan are.
    let _ = plan.instances();
    if !are_known(&notes.limits) {
        return Stage::Limits;
    }
    match read_limits(plan, &notes.limits, point.t) {
        Err(ending) => Stage::Over(ending),
        Ok(h) => stage_of_trial(plan, point, notes, h),
    }
}

/// Returns what the row at this point and with this number requires next.
pub(crate) fn find_stage(plan: &Plan, point: Point, number: u64, notes: &Notes) -> Stage
    requires notes { AreNotes plan.now.run notes.now }
    requires time { point.t ≤ plan.now.run.stop }
    requires zeros { point.n ≤ plan.now.run.zero_budget }
    requires rows { number < plan.now.run.row_budget }
    ensures stage { result ≡ stage_of plan.now.run (names_of plan.now.run) (position_at point number) (making_in notes.now).known }
    ensures step { AllowsStep plan.now.run point result }
{
    // Called for its clauses, which state how large the numbers of a plan are.
    let _ = plan.instances();
    if !are_known(&notes.words) {
        return Stage::Words;
    }
    if let Some(ending) = word_fault(plan, &notes.words) {
        return Stage::Over(ending);
    }
    if point.t == plan.stop() {
        return Stage::Over(Ending::Completed);
    }
    if number + 1 == plan.row_limit() {
        return Stage::Over(Ending::RowBudget);
    }
    stage_of_limits(plan, point, notes)
}
