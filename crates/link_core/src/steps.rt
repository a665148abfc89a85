//! Limits, trials and steps of a node's own instances.
ghost use Rattle.std.specs.Prelude.{◌≡◌, ◌<◌, ◌≤◌, ◌+◌, ◌^◌, true, ℤ, List, [], length, map, slice_get, slice_index_or, is_none, is_some, Some};
ghost use Rattle.std.specs.Option.{option_map};
ghost use Rattle.link_laws.specs.Boards.{asked_of, said_of};
ghost use Rattle.link_laws.specs.Making.{each, held_standings, put_said, said_entry, with_limit, with_said};
ghost use Rattle.link_core.specs.Noted.{making_in, AreNotes, HasRoom, part_at, limit_if, reply_if, said_given, stepped, stepped_if};
ghost use Rattle.port_solve.specs.Solved.{HaveStates};
ghost use Rattle.trace_units.specs.Fleets.{with_state};
ghost use Rattle.unit_tree.specs.Compositions.{Composition, Member};
ghost use Rattle.unit_tree.specs.Negotiation.{all_inputs, max_at, step_at};
ghost use Rattle.unit_tree.specs.Ports.{Ports};

use crate::notes::{Notes, note};
use fixed_words::Fault;
use link_laws::{Asked, Fact, Said};
use snap_store::copy_words;
use step_rule::is_held;
use super_time::{Point, local_step, local_time};
use trace_plan::Plan;
use trace_units::Units;

/// A trial or a redo of `h`, at a row and its point.
#[derive(Clone, Copy, Debug, PartialEq, Eq)]
pub(crate) struct Trial {
    pub(crate) row: u64,
    pub(crate) point: Point,
    pub(crate) h: u64,
    pub(crate) redo: bool,
}

/// Returns what a fact says of the result of a `max`.
fn asked(given: Result<Option<u64>, Fault>) -> Asked
    ensures { result ≡ asked_of given }
{
    match given {
        Ok(None) => Asked::Free,
        Ok(Some(local)) => Asked::Max(local),
        Err(fault) => Asked::Fault(fault),
    }
}

/// Returns what a fact says of the result of a step.
fn said(given: Result<u64, Fault>) -> Said
    ensures { result ≡ said_given given }
{
    match given {
        Ok(accepted) => Said::Accepted(accepted),
        Err(fault) => Said::Fault(fault),
    }
}

/// Returns what a fact says of an instance's `max` at `t`. All units stay as they are.
fn ask_max(plan: &Plan, units: &mut Units, instance: u32, t: u64) -> Asked
    requires tied { units.old.plan ≡ plan.now }
    requires there { instance < length plan.now.run.members }
    requires time { t ≤ 10 ^ 15 }
    ensures asked { (ports : Ports) (member : Member) (state : List ℤ) → units.old.inputs ≡ all_inputs plan.now.run ports
        → slice_get plan.now.run.members instance ≡ Some member
        → slice_get units.old.states instance ≡ Some state → result ≡ asked_of (max_at t ports (member, state)) }
    ensures kept { units.new ≡ units.old }
{
    let time = local_time(plan.factor(instance), t);
    asked(units.max_step(instance, time))
}

/// Makes the limit of an instance at a row, where the node owns it and the limit isn't known.
fn make_limit(
    plan: &Plan,
    units: &mut Units,
    notes: &mut Notes,
    row: u64,
    t: u64,
    instance: u32,
    own: bool,
)
    requires tied { units.old.plan ≡ plan.now }
    requires there { instance < length plan.now.run.members }
    requires notes { AreNotes plan.now.run notes.old }
    requires room { HasRoom notes.old }
    requires time { t ≤ 10 ^ 15 }
    ensures made { (ports : Ports) (member : Member) (state : List ℤ) → units.old.inputs ≡ all_inputs plan.now.run ports
        → slice_get plan.now.run.members instance ≡ Some member
        → slice_get units.old.states instance ≡ Some state
        → making_in notes.new ≡ limit_if own row t ports (member, state) instance (making_in notes.old) }
    ensures notes { AreNotes plan.now.run notes.new }
    ensures room { HasRoom notes.new }
    ensures kept { units.new ≡ units.old }
{
    if !own || notes.limits[instance as usize].is_some() {
        return;
    }
    let asked = ask_max(plan, units, instance, t);
    let fact = Fact::Limit {
        row,
        instance,
        asked,
    };
    note(&mut notes.limits, &mut notes.facts, instance, asked, fact);
}

/// Makes the limits of the node's own instances at a row.
pub(crate) fn make_limits(
    plan: &Plan,
    units: &mut Units,
    notes: &mut Notes,
    owners: &[u8],
    me: u8,
    row: u64,
    point: Point,
)
    requires tied { units.old.plan ≡ plan.now }
    requires owners { length owners.now ≡ length plan.now.run.members }
    requires notes { AreNotes plan.now.run notes.old }
    requires room { HasRoom notes.old }
    requires time { point.t ≤ 10 ^ 15 }
    ensures made { (ports : Ports) → units.old.inputs ≡ all_inputs plan.now.run ports → making_in notes.new
        ≡ each (with_limit me (part_at owners.now me point row units.old.states) ports) (making_in notes.old)
        (held_standings plan.now.run owners.now (part_at owners.now me point row units.old.states)) }
    ensures notes { AreNotes plan.now.run notes.new }
    ensures room { HasRoom notes.new }
    ensures kept { units.new ≡ units.old }
{
    // Called for its clauses, which state how long the lists of the units are.
    let _ = units.count();
    for instance in 0..plan.instances() {
        let own = owners[instance as usize] == me;
        make_limit(plan, units, notes, row, point.t, instance, own);
    }
}

/// Returns the result of an instance's step of `h` from `t`, or `None` where it is held. Its state is restored, so that all units stay as
/// they are.
fn try_step(
    plan: &Plan,
    units: &mut Units,
    before: &mut [i64],
    instance: u32,
    t: u64,
    h: u64,
) -> Option<Said>
    requires tied { units.old.plan ≡ plan.now }
    requires there { instance < length plan.now.run.members }
    requires end { t + h ≤ 10 ^ 15 }
    requires before { length before.old ≡ length (slice_index_or units.old.states instance []) }
    ensures said { (ports : Ports) (member : Member) (state : List ℤ) → units.old.inputs ≡ all_inputs plan.now.run ports
        → slice_get plan.now.run.members instance ≡ Some member
        → slice_get units.old.states instance ≡ Some state → result ≡ option_map said_of (step_at t h ports (member, state)) }
    ensures kept { units.new ≡ units.old }
    ensures before { length before.new ≡ length before.old }
{
    let factor = plan.factor(instance);
    if is_held(factor, t, h) {
        return None;
    }
    // Called for its clauses, which state how long the lists of the units are, before and after.
    let _ = units.count();
    copy_words(before, units.state(instance));
    let time = local_time(factor, t);
    let step = local_step(factor, t, h);
    let made = units.do_step(instance, time, step);
    let _ = units.count();
    units.restore(instance, before);
    Some(said(made))
}

/// Returns whether the reply of an instance to the trial or to the redo is known.
fn has_said(notes: &Notes, redo: bool, instance: u32) -> bool
    requires replies { instance < length notes.now.replies.items }
    requires redos { instance < length notes.now.redos.items }
    ensures { result ≡ is_some (said_entry redo (making_in notes.now).known instance) }
{
    let place = instance as usize;
    if redo {
        notes.redos[place].is_some()
    } else {
        notes.replies[place].is_some()
    }
}

/// Records the unknown reply of an instance to the trial or to the redo.
fn note_said(notes: &mut Notes, redo: bool, row: u64, instance: u32, said: Said)
    requires replies { instance < length notes.old.replies.items }
    requires redos { instance < length notes.old.redos.items }
    requires lacks { is_none (said_entry redo (making_in notes.old).known instance) ≡ true }
    requires room { HasRoom notes.old }
    ensures made { making_in notes.new ≡ put_said redo row instance (Some said) (making_in notes.old) }
    ensures notes { (run : Composition) → AreNotes run notes.old → AreNotes run notes.new }
    ensures room { HasRoom notes.new }
{
    let fact = Fact::Reply {
        row,
        instance,
        redo,
        said,
    };
    if redo {
        note(&mut notes.redos, &mut notes.facts, instance, said, fact);
    } else {
        note(&mut notes.replies, &mut notes.facts, instance, said, fact);
    }
}

/// Makes the reply of an instance to a step of `h` from `t`, where the node owns it and the reply isn't known.
fn make_reply(
    plan: &Plan,
    units: &mut Units,
    before: &mut [i64],
    notes: &mut Notes,
    trial: Trial,
    instance: u32,
    own: bool,
)
    requires tied { units.old.plan ≡ plan.now }
    requires there { instance < length plan.now.run.members }
    requires notes { AreNotes plan.now.run notes.old }
    requires room { HasRoom notes.old }
    requires end { trial.point.t + trial.h ≤ 10 ^ 15 }
    requires before { length before.old ≡ length (slice_index_or units.old.states instance []) }
    ensures made { (ports : Ports) (member : Member) (state : List ℤ) → units.old.inputs ≡ all_inputs plan.now.run ports
        → slice_get plan.now.run.members instance ≡ Some member
        → slice_get units.old.states instance ≡ Some state
        → making_in notes.new ≡ reply_if trial.redo own trial.row trial.point.t trial.h ports (member, state) instance (making_in notes.old) }
    ensures notes { AreNotes plan.now.run notes.new }
    ensures room { HasRoom notes.new }
    ensures kept { units.new ≡ units.old }
    ensures before { length before.new ≡ length before.old }
{
    if !own || has_said(notes, trial.redo, instance) {
        return;
    }
    if let Some(said) = try_step(plan, units, before, instance, trial.point.t, trial.h) {
        note_said(notes, trial.redo, trial.row, instance, said);
    }
}

/// Makes the replies of the node's own instances to a step.
pub(crate) fn make_replies(
    plan: &Plan,
    units: &mut Units,
    before: &mut Vec<Vec<i64>>,
    notes: &mut Notes,
    owners: &[u8],
    me: u8,
    trial: Trial,
)
    requires tied { units.old.plan ≡ plan.now }
    requires owners { length owners.now ≡ length plan.now.run.members }
    requires notes { AreNotes plan.now.run notes.old }
    requires room { HasRoom notes.old }
    requires end { trial.point.t + trial.h ≤ 10 ^ 15 }
    requires before { HaveStates plan.now.run (map (λ one. one.items) before.old.items) }
    ensures made { (ports : Ports) → units.old.inputs ≡ all_inputs plan.now.run ports → making_in notes.new
        ≡ each (with_said trial.redo me (part_at owners.now me trial.point trial.row units.old.states) ports trial.h) (making_in notes.old)
        (held_standings plan.now.run owners.now (part_at owners.now me trial.point trial.row units.old.states)) }
    ensures notes { AreNotes plan.now.run notes.new }
    ensures room { HasRoom notes.new }
    ensures kept { units.new ≡ units.old }
    ensures before { HaveStates plan.now.run (map (λ one. one.items) before.new.items) }
{
    // Called for its clauses, which state how long the lists of the units are.
    let _ = units.count();
    for instance in 0..plan.instances() {
        let place = instance as usize;
        let own = owners[place] == me;
        let before = &mut before[place];
        make_reply(plan, units, before, notes, trial, instance, own);
    }
}

/// Steps an instance by `h` from `t`, where the node owns it and it isn't held.
fn step_on(plan: &Plan, units: &mut Units, instance: u32, t: u64, h: u64, own: bool)
    requires tied { units.old.plan ≡ plan.now }
    requires there { instance < length plan.now.run.members }
    requires end { t + h ≤ 10 ^ 15 }
    ensures stepped { (ports : Ports) (member : Member) (state : List ℤ) → units.old.inputs ≡ all_inputs plan.now.run ports
        → slice_get plan.now.run.members instance ≡ Some member
        → slice_get units.old.states instance ≡ Some state → units.new ≡ with_state units.old instance (stepped_if own t h ports (member, state)) }
    ensures plan { units.new.plan ≡ units.old.plan }
{
    if !own {
        return;
    }
    let factor = plan.factor(instance);
    if is_held(factor, t, h) {
        return;
    }
    let time = local_time(factor, t);
    let step = local_step(factor, t, h);
    let _ = units.do_step(instance, time, step);
}

/// Steps the node's own instances by `h` from `t`, where they aren't held.
pub(crate) fn step_all(plan: &Plan, units: &mut Units, owners: &[u8], me: u8, t: u64, h: u64)
    requires tied { units.old.plan ≡ plan.now }
    requires owners { length owners.now ≡ length plan.now.run.members }
    requires end { t + h ≤ 10 ^ 15 }
    ensures stepped { (ports : Ports) → units.old.inputs ≡ all_inputs plan.now.run ports
        → units.new ≡ record units.old { states = stepped plan.now.run owners.now me t h ports units.old.states } }
    ensures plan { units.new.plan ≡ units.old.plan }
{
    // Called for its clauses, which state how long the lists of the units are.
    let _ = units.count();
    for instance in 0..plan.instances() {
        let own = owners[instance as usize] == me;
        step_on(plan, units, instance, t, h, own);
    }
}
