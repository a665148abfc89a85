//! How a node treats a fact that arrives: whether it drops it, and how it learns it.
ghost use Rattle.std.specs.Prelude.{◌≡◌, ◌≤◌, ◌<◌, ◌+◌, ℕ, false, length, slice_get, slice_set, is_some, Some};
ghost use Rattle.link_laws.specs.Boards.{entry};
ghost use Rattle.link_laws.specs.Making.{is_held_by, is_own, ports_in};
ghost use Rattle.link_laws.specs.Nodes.{has};
ghost use Rattle.link_core.specs.Noted.{making_in, empties, knowing_fact, AreNotes, HasRoom, IsItemOf};
ghost use Rattle.link_core.specs.Ready.{is_dropped};
ghost use Rattle.link_laws.specs.declared.fact.Fact.TheVariants.{Word};
ghost use Rattle.link_laws.specs.declared.fact.Seen.{Seen};
ghost use Rattle.port_solve.specs.Solved.{HaveTheirWords};

use crate::course::NodePosition;
use crate::notes::Notes;
use crate::words::{learn, owner_at};
use link_laws::Fact;
use trace_plan::Plan;
use trace_units::Units;

/// Returns whether there is such an instance, and the node owns it.
fn owns(owners: &[u8], node: u8, instance: u32) -> bool
    ensures { result ≡ is_held_by node (slice_get owners.now instance) }
{
    match owners.get(instance as usize) {
        Some(owner) => *owner == node,
        None => false,
    }
}

/// Returns whether there is an output at a place, and the node owns its instance.
fn owns_output(plan: &Plan, owners: &[u8], node: u8, place: u32) -> bool
    requires owners { length owners.now ≡ length plan.now.run.members }
    ensures { (row : ℕ) (seen : Seen) → result ≡ is_own plan.now.run owners.now node (Word row place seen) }
{
    if place as usize >= plan.order().routes().outputs.len() {
        return false;
    }
    owner_at(plan, owners, place as usize) == node
}

/// Returns whether a fact is of an instance that the node owns.
fn is_of(plan: &Plan, owners: &[u8], node: u8, fact: Fact) -> bool
    requires owners { length owners.now ≡ length plan.now.run.members }
    ensures { result ≡ is_own plan.now.run owners.now node fact }
{
    match fact {
        Fact::Word { place, .. } => owns_output(plan, owners, node, place),
        Fact::Limit { instance, .. } | Fact::Reply { instance, .. } => {
            owns(owners, node, instance)
        }
    }
}

/// Returns whether an item is known.
fn is_told<T: Copy>(entries: &[Option<T>], place: u32) -> bool
    ensures { result ≡ is_some (entry entries.now place) }
{
    matches!(entries.get(place as usize), Some(Some(_)))
}

/// Returns whether a fact's item is known.
fn has(notes: &Notes, fact: Fact) -> bool
    ensures { result ≡ has (making_in notes.now).known fact }
{
    match fact {
        Fact::Word { place, .. } => is_told(&notes.words, place),
        Fact::Limit { instance, .. } => is_told(&notes.limits, instance),
        Fact::Reply { instance, redo, .. } => {
            if redo {
                is_told(&notes.redos, instance)
            } else {
                is_told(&notes.replies, instance)
            }
        }
    }
}

/// Returns whether a node drops a fact: it has ended, or the fact is of another row, or not of an instance of the other node, or known.
pub(crate) fn drops(
    plan: &Plan,
    notes: &Notes,
    course: &NodePosition,
    owners: &[u8],
    me: u8,
    fact: Fact,
) -> bool
    requires owners { length owners.now ≡ length plan.now.run.members }
    requires me { me ≤ 1 }
    ensures { result ≡ is_dropped plan.now.run owners.now me course.now (making_in notes.now).known fact }
{
    course.ended.is_some()
        || fact.row() != course.number
        || !is_of(plan, owners, 1 - me, fact)
        || has(notes, fact)
}

/// Sets an item that isn't known.
#[tactic(auto, using(crate::proofs::CountLaws::fewer_told))]
fn put<T: Copy>(entries: &mut Vec<Option<T>>, place: u32, told: T)
    requires place { place < length entries.old.items }
    requires lacks { is_some (entry entries.old.items place) ≡ false }
    ensures entries { entries.new.items ≡ slice_set entries.old.items place (Some told) }
    ensures fewer { empties entries.new.items + 1 ≡ empties entries.old.items }
{
    entries[place as usize] = Some(told);
}

/// Learns a fact whose item isn't known.
pub(crate) fn learn_fact(plan: &Plan, units: &mut Units, notes: &mut Notes, fact: Fact)
    requires tied { units.old.plan ≡ plan.now }
    requires notes { AreNotes plan.now.run notes.old }
    requires room { HasRoom notes.old }
    requires lacks { has (making_in notes.old).known fact ≡ false }
    requires item { IsItemOf plan.now.run fact }
    requires words { HaveTheirWords plan.now.run (ports_in notes.old.words.items) units.old.inputs }
    ensures learnt { making_in notes.new ≡ knowing_fact fact (making_in notes.old) }
    ensures notes { AreNotes plan.now.run notes.new }
    ensures room { HasRoom notes.new }
    ensures words { HaveTheirWords plan.now.run (ports_in notes.new.words.items) units.new.inputs }
    ensures states { units.new.states ≡ units.old.states }
    ensures plan { units.new.plan ≡ units.old.plan }
{
    match fact {
        Fact::Word { place, seen, .. } => learn(plan, units, notes, place, seen),
        Fact::Limit {
            instance,
            asked,
            ..
        } => put(&mut notes.limits, instance, asked),
        Fact::Reply {
            instance,
            redo,
            said,
            ..
        } => {
            if redo {
                put(&mut notes.redos, instance, said);
            } else {
                put(&mut notes.replies, instance, said);
            }
        }
    }
}
