//! The work of a node: it makes facts, and goes on where none is missing.
ghost use Rattle.std.specs.Prelude.{◌≡◌, ◌≤◌, ◌<◌, map, length, vec_capacity, None};
ghost use Rattle.link_core.specs.declared.course.Kept.{Kept};
ghost use Rattle.link_laws.specs.Making.{limits_by, move_by, ports_in, redos_by, replies_by, rule_of, stage_at};
ghost use Rattle.link_laws.specs.Nodes.{moved, worked};
ghost use Rattle.link_core.specs.Noted.{making_in, part_at, AllowsStep, AreFed, AreNotes, HasRoom};
ghost use Rattle.link_core.specs.Ready.{IsJudged, IsReady, all_made, progress_in};
ghost use Rattle.port_solve.specs.Solved.{HaveStates, HaveTheirWords};
ghost use Rattle.unit_tree.specs.Routes.{routes_of};

use crate::course::{NodePosition, show};
use crate::notes::Notes;
use crate::stage::find_stage;
use crate::steps::{Trial, make_limits, make_replies, step_all};
use crate::words::make_words;
use link_laws::{Stage, Taken};
use step_rule::next_point;
use super_time::Point;
use trace_plan::Plan;
use trace_units::Units;

/// States what is known of every plan's run.
pub(crate) fn judged(plan: &Plan)
    ensures { IsJudged plan.now.run }
{
    let _ = plan.order();
    let _ = plan.instances();
    let _ = plan.checked().system();
}

/// Makes the limits of the node's own instances, where the stage requires them.
fn make_limits_wanted(
    plan: &Plan,
    units: &mut Units,
    notes: &mut Notes,
    owners: &[u8],
    me: u8,
    point: Point,
    row: u64,
    wanted: Stage,
)
    requires tied { units.old.plan ≡ plan.now }
    requires owners { length owners.now ≡ length plan.now.run.members }
    requires notes { AreNotes plan.now.run notes.old }
    requires room { HasRoom notes.old }
    requires time { point.t ≤ plan.now.run.stop }
    requires fed { AreFed plan.now.run units.old.inputs (ports_in notes.old.words.items) wanted }
    ensures made { making_in notes.new
        ≡ limits_by plan.now.run owners.now me (part_at owners.now me point row units.old.states) wanted (making_in notes.old) }
    ensures notes { AreNotes plan.now.run notes.new }
    ensures room { HasRoom notes.new }
    ensures kept { units.new ≡ units.old }
{
    // Called for its clauses, which state how large the numbers of a plan are.
    let _ = plan.stop();
    match wanted {
        Stage::Limits => make_limits(plan, units, notes, owners, me, row, point),
        _ => {}
    }
}

/// Makes the replies of the node's own instances to the trial, where the stage requires them.
fn make_replies_wanted(
    plan: &Plan,
    units: &mut Units,
    before: &mut Vec<Vec<i64>>,
    notes: &mut Notes,
    owners: &[u8],
    me: u8,
    point: Point,
    row: u64,
    wanted: Stage,
)
    requires tied { units.old.plan ≡ plan.now }
    requires owners { length owners.now ≡ length plan.now.run.members }
    requires notes { AreNotes plan.now.run notes.old }
    requires room { HasRoom notes.old }
    requires before { HaveStates plan.now.run (map (λ one. one.items) before.old.items) }
    requires step { AllowsStep plan.now.run point wanted }
    requires fed { AreFed plan.now.run units.old.inputs (ports_in notes.old.words.items) wanted }
    ensures made { making_in notes.new
        ≡ replies_by plan.now.run owners.now me (part_at owners.now me point row units.old.states) wanted (making_in notes.old) }
    ensures notes { AreNotes plan.now.run notes.new }
    ensures room { HasRoom notes.new }
    ensures before { HaveStates plan.now.run (map (λ one. one.items) before.new.items) }
    ensures kept { units.new ≡ units.old }
{
    // Called for its clauses, which state how large the numbers of a plan are.
    let _ = plan.stop();
    match wanted {
        Stage::Trial(h) => {
            let trial = Trial {
                row,
                point,
                h,
                redo: false,
            };
            make_replies(plan, units, before, notes, owners, me, trial);
        }
        _ => {}
    }
}

/// Makes the replies of the node's own instances to the redo, where the stage requires them.
fn make_redos_wanted(
    plan: &Plan,
    units: &mut Units,
    before: &mut Vec<Vec<i64>>,
    notes: &mut Notes,
    owners: &[u8],
    me: u8,
    point: Point,
    row: u64,
    wanted: Stage,
)
    requires tied { units.old.plan ≡ plan.now }
    requires owners { length owners.now ≡ length plan.now.run.members }
    requires notes { AreNotes plan.now.run notes.old }
    requires room { HasRoom notes.old }
    requires before { HaveStates plan.now.run (map (λ one. one.items) before.old.items) }
    requires step { AllowsStep plan.now.run point wanted }
    requires fed { AreFed plan.now.run units.old.inputs (ports_in notes.old.words.items) wanted }
    ensures made { making_in notes.new
        ≡ redos_by plan.now.run owners.now me (part_at owners.now me point row units.old.states) wanted (making_in notes.old) }
    ensures notes { AreNotes plan.now.run notes.new }
    ensures room { HasRoom notes.new }
    ensures before { HaveStates plan.now.run (map (λ one. one.items) before.new.items) }
    ensures kept { units.new ≡ units.old }
{
    // Called for its clauses, which state how large the numbers of a plan are.
    let _ = plan.stop();
    match wanted {
        Stage::Redo(h) => {
            let trial = Trial {
                row,
                point,
                h,
                redo: true,
            };
            make_replies(plan, units, before, notes, owners, me, trial);
        }
        _ => {}
    }
}

/// Makes all facts that can be made from what is known.
pub(crate) fn make_all(
    plan: &Plan,
    units: &mut Units,
    before: &mut Vec<Vec<i64>>,
    notes: &mut Notes,
    owners: &[u8],
    me: u8,
    point: Point,
    row: u64,
)
    requires ready { IsReady plan.now owners.now me point row units.old notes.old }
    requires room { HasRoom notes.old }
    requires before { HaveStates plan.now.run (map (λ one. one.items) before.old.items) }
    requires time { point.t ≤ plan.now.run.stop }
    requires zeros { point.n ≤ plan.now.run.zero_budget }
    requires rows { row < plan.now.run.row_budget }
    ensures made { making_in notes.new
        ≡ all_made plan.now.run owners.now me (part_at owners.now me point row units.old.states) (making_in notes.old) }
    ensures ready { IsReady plan.now owners.now me point row units.new notes.new }
    ensures before { HaveStates plan.now.run (map (λ one. one.items) before.new.items) }
    ensures states { units.new.states ≡ units.old.states }
{
    judged(plan);
    make_words(plan, units, notes, owners, me, row);
    // Called for its clauses, which state how long the lists of the units are.
    let _ = units.count();
    let wanted = find_stage(plan, point, row, notes);
    make_limits_wanted(plan, units, notes, owners, me, point, row, wanted);
    let wanted = find_stage(plan, point, row, notes);
    make_replies_wanted(plan, units, before, notes, owners, me, point, row, wanted);
    let wanted = find_stage(plan, point, row, notes);
    make_redos_wanted(plan, units, before, notes, owners, me, point, row, wanted);
}

/// Goes on to the next row, or ends, where no fact of this one is missing.
pub(crate) fn go_on(
    plan: &Plan,
    units: &mut Units,
    notes: &mut Notes,
    course: &mut NodePosition,
    owners: &[u8],
    me: u8,
) -> Taken
    requires ready { IsReady plan.now owners.now me course.old.point course.old.number units.old notes.old }
    requires room { length (routes_of plan.now.run).outputs ≤ vec_capacity course.old.shown.words }
    requires time { course.old.point.t ≤ plan.now.run.stop }
    requires zeros { course.old.point.n ≤ plan.now.run.zero_budget }
    requires rows { course.old.number < plan.now.run.row_budget }
    ensures moved { (kept : Kept) → (progress_in owners.now me units.new.states notes.new course.new kept, result)
        ≡ moved (rule_of plan.now.run owners.now) (progress_in owners.now me units.old.states notes.old course.old kept)
        (move_by plan.now.run owners.now me (part_at owners.now me course.old.point course.old.number units.old.states) (making_in notes.old).known
        (stage_at plan.now.run (part_at owners.now me course.old.point course.old.number units.old.states) (making_in notes.old).known)) }
    ensures tied { units.new.plan ≡ plan.now }
    ensures notes { AreNotes plan.now.run notes.new }
    ensures words { HaveTheirWords plan.now.run (ports_in notes.new.words.items) units.new.inputs }
    ensures room { length (routes_of plan.now.run).outputs ≤ vec_capacity course.new.shown.words }
{
    judged(plan);
    let _ = units.count();
    match find_stage(plan, course.point, course.number, notes) {
        Stage::Over(ending) => {
            show(plan, &mut course.shown, course.point, &notes.words);
            course.ended = Some(ending);
            Taken::Ended
        }
        Stage::On(h) => {
            show(plan, &mut course.shown, course.point, &notes.words);
            step_all(plan, units, owners, me, course.point.t, h);
            notes.clear();
            course.point = next_point(course.point, h);
            course.number += 1;
            Taken::Row
        }
        Stage::Words | Stage::Limits | Stage::Trial(_) | Stage::Redo(_) => Taken::Kept,
    }
}

/// Makes all facts that can be made from what is known, and goes on where no fact of the row is then missing.
pub(crate) fn work_on(
    plan: &Plan,
    units: &mut Units,
    before: &mut Vec<Vec<i64>>,
    notes: &mut Notes,
    course: &mut NodePosition,
    owners: &[u8],
    me: u8,
) -> Taken
    requires ready { IsReady plan.now owners.now me course.old.point course.old.number units.old notes.old }
    requires going { course.old.ended ≡ None }
    requires room { HasRoom notes.old }
    requires before { HaveStates plan.now.run (map (λ one. one.items) before.old.items) }
    requires shown { length (routes_of plan.now.run).outputs ≤ vec_capacity course.old.shown.words }
    requires time { course.old.point.t ≤ plan.now.run.stop }
    requires zeros { course.old.point.n ≤ plan.now.run.zero_budget }
    requires rows { course.old.number < plan.now.run.row_budget }
    ensures worked { (kept : Kept) → (progress_in owners.now me units.new.states notes.new course.new kept, result)
        ≡ worked (rule_of plan.now.run owners.now) me (progress_in owners.now me units.old.states notes.old course.old kept) }
    ensures tied { units.new.plan ≡ plan.now }
    ensures notes { AreNotes plan.now.run notes.new }
    ensures words { HaveTheirWords plan.now.run (ports_in notes.new.words.items) units.new.inputs }
    ensures before { HaveStates plan.now.run (map (λ one. one.items) before.new.items) }
    ensures shown { length (routes_of plan.now.run).outputs ≤ vec_capacity course.new.shown.words }
{
    let point = course.point;
    let row = course.number;
    make_all(plan, units, before, notes, owners, me, point, row);
    go_on(plan, units, notes, course, owners, me)
}
