//! Words of outputs, as far as they are determined.
ghost use Rattle.std.specs.Prelude.{◌≡◌, ◌<◌, ◌≤◌, ◌+◌, ◌^◌, ◌&&◌, false, true, length, slice_get, is_none, vec_capacity};
ghost use Rattle.std.specs.Prelude.{if◌then◌else◌, Some, IfSome};
ghost use Rattle.std.specs.List.{list_any, enumerate_from};
ghost use Rattle.std.specs.Option.{option_map};
ghost use Rattle.link_laws.specs.Boards.{entry, seen_of};
ghost use Rattle.link_laws.specs.Making.{determined, is_undefined, put_word, with_word, words_made, each, ports_in, held, own_states};
ghost use Rattle.link_core.specs.Noted.{making_in, lacking, part_at, with_port, with_seen, is_defined, AreNotes, HasRoom, IsWordSeen};
ghost use Rattle.port_solve.specs.Solved.{HaveTheirWords};
ghost use Rattle.unit_tree.specs.Ports.{Outlet, Ports, outlets};
ghost use Rattle.unit_tree.specs.Routes.{routes_of};
ghost use Rattle.super_time.specs.declared.point.Point.{Point};

use crate::notes::{Notes, note};
use fixed_words::Fault;
use link_laws::{Fact, Seen};
use port_solve::{ask, feed};
use trace_plan::Plan;
use trace_units::Units;

/// Returns whether an output is known to be without a word.
fn is_undefined(words: &[Option<Seen>], place: u32) -> bool
    ensures { result ≡ is_undefined (entry words.now place) }
{
    match words.get(place as usize) {
        Some(Some(Seen::Fault(_))) | Some(Some(Seen::Undefined)) => true,
        _ => false,
    }
}

/// Returns whether one of some outputs is known to be without a word.
fn is_one_undefined(words: &[Option<Seen>], places: &[u32]) -> bool
    ensures { result ≡ list_any (λ place. is_undefined (entry words.now place)) places.now }
{
    places.iter().any(|place| is_undefined(words, *place))
}

/// Returns what a fact says of the outcome of an output, where the outcome is known.
fn told(given: Option<Result<i64, Fault>>) -> Option<Seen>
    ensures { result ≡ option_map (λ one. seen_of (Some one)) given }
{
    match given {
        Some(Ok(word)) => Some(Seen::Is(word)),
        Some(Err(fault)) => Some(Seen::Fault(fault)),
        None => None,
    }
}

/// Returns what a fact says of the output at a place, where the known words determine it.
fn determined(plan: &Plan, units: &mut Units, notes: &Notes, place: u32) -> Option<Seen>
    requires tied { units.old.plan ≡ plan.now }
    requires place { place < length (routes_of plan.now.run).outputs }
    requires notes { AreNotes plan.now.run notes.now }
    requires words { HaveTheirWords plan.now.run (ports_in notes.now.words.items) units.old.inputs }
    ensures seen { (outlet : Outlet) → slice_get (outlets plan.now.run units.old.states) place ≡ Some outlet
        → result ≡ determined notes.now.words.items outlet }
    ensures word { IfSome result (IsWordSeen plan.now.run place) }
    ensures kept { units.new ≡ units.old }
{
    // Called for its clauses, which state the shape of the units, before and after.
    let _ = units.count();
    let route = &plan.order().routes().outputs.as_slice()[place as usize];
    if is_one_undefined(&notes.words, route.needs.as_slice()) {
        return Some(Seen::Undefined);
    }
    let given = ask(plan.order(), plan.checked(), units, place, &notes.defined);
    let _ = units.count();
    told(given)
}

/// Returns whether an output has a word.
fn is_word(seen: Seen) -> bool
    ensures { result ≡ is_defined (Some seen) }
{
    matches!(seen, Seen::Is(_))
}

/// Sets the inputs that are connected to an output to its word, where it has one.
fn feed_seen(plan: &Plan, units: &mut Units, place: u32, seen: Seen)
    requires tied { units.old.plan ≡ plan.now }
    requires place { place < length (routes_of plan.now.run).outputs }
    requires word { IsWordSeen plan.now.run place seen }
    ensures words { (ports : Ports) → HaveTheirWords plan.now.run ports units.old.inputs
        → HaveTheirWords plan.now.run (with_port ports place seen) units.new.inputs }
    ensures states { units.new.states ≡ units.old.states }
    ensures plan { units.new.plan ≡ units.old.plan }
{
    let Seen::Is(word) = seen else {
        return;
    };
    // Called for its clauses, which state the shape of the units, before and after.
    let _ = units.count();
    feed(plan.order(), plan.checked(), units, place, word);
    let _ = units.count();
}

#[tactic(auto, using(crate::proofs::CountLaws::fewer))]
/// Learns an output that isn't known. Sets the inputs that it feeds to its word.
pub(crate) fn learn(plan: &Plan, units: &mut Units, notes: &mut Notes, place: u32, seen: Seen)
    requires tied { units.old.plan ≡ plan.now }
    requires place { place < length (routes_of plan.now.run).outputs }
    requires notes { AreNotes plan.now.run notes.old }
    requires lacks { is_none (entry notes.old.words.items place) ≡ true }
    requires word { IsWordSeen plan.now.run place seen }
    requires words { HaveTheirWords plan.now.run (ports_in notes.old.words.items) units.old.inputs }
    ensures learnt { making_in notes.new ≡ with_seen place seen (making_in notes.old) }
    ensures lacking { lacking notes.new + 1 ≡ lacking notes.old }
    ensures room { vec_capacity notes.old.facts ≤ vec_capacity notes.new.facts }
    ensures notes { AreNotes plan.now.run notes.new }
    ensures words { HaveTheirWords plan.now.run (ports_in notes.new.words.items) units.new.inputs }
    ensures states { units.new.states ≡ units.old.states }
    ensures plan { units.new.plan ≡ units.old.plan }
{
    notes.words[place as usize] = Some(seen);
    notes.defined[place as usize] = is_word(seen);
    feed_seen(plan, units, place, seen);
}

/// Makes the word of the output at a place, where the node owns it, it isn't known, and the known words determine it. Returns whether
/// there was one.
fn make_word(
    plan: &Plan,
    units: &mut Units,
    notes: &mut Notes,
    row: u64,
    place: u32,
    own: bool,
) -> bool
    requires tied { units.old.plan ≡ plan.now }
    requires place { place < length (routes_of plan.now.run).outputs }
    requires notes { AreNotes plan.now.run notes.old }
    requires room { HasRoom notes.old }
    requires words { HaveTheirWords plan.now.run (ports_in notes.old.words.items) units.old.inputs }
    ensures made { (outlet : Outlet) → slice_get (outlets plan.now.run units.old.states) place ≡ Some outlet → making_in notes.new
        ≡ (if own && is_none (entry notes.old.words.items place)
        then put_word row place (determined notes.old.words.items outlet) (making_in notes.old)
        else making_in notes.old) }
    ensures none { result ≡ false → making_in notes.new ≡ making_in notes.old }
    ensures notes { AreNotes plan.now.run notes.new }
    ensures room { HasRoom notes.new }
    ensures words { HaveTheirWords plan.now.run (ports_in notes.new.words.items) units.new.inputs }
    ensures states { units.new.states ≡ units.old.states }
    ensures plan { units.new.plan ≡ units.old.plan }
{
    if !own || notes.words[place as usize].is_some() {
        return false;
    }
    let Some(seen) = determined(plan, units, notes, place) else {
        return false;
    };
    learn(plan, units, notes, place, seen);
    let _ = notes.facts.push(Fact::Word { row, place, seen });
    true
}

/// Returns the owner of the instance whose output is at a place.
pub(crate) fn owner_at(plan: &Plan, owners: &[u8], place: usize) -> u8
    requires place { place < length (routes_of plan.now.run).outputs }
    requires owners { length owners.now ≡ length plan.now.run.members }
    ensures { IfSome (slice_get (routes_of plan.now.run).outputs place) (λ route. slice_get owners.now route.instance ≡ Some result) }
{
    let instance = plan.order().routes().outputs.as_slice()[place].instance as usize;
    owners[instance]
}

/// Makes one pass over all outputs. Returns whether a word was made.
fn make_pass(
    plan: &Plan,
    units: &mut Units,
    notes: &mut Notes,
    owners: &[u8],
    me: u8,
    row: u64,
) -> bool
    requires tied { units.old.plan ≡ plan.now }
    requires few { length (routes_of plan.now.run).outputs ≤ 2 ^ 32 }
    requires owners { length owners.now ≡ length plan.now.run.members }
    requires notes { AreNotes plan.now.run notes.old }
    requires room { HasRoom notes.old }
    requires words { HaveTheirWords plan.now.run (ports_in notes.old.words.items) units.old.inputs }
    ensures made { making_in notes.new ≡ each (with_word me row) (making_in notes.old)
        (enumerate_from 0 (held plan.now.run owners.now (own_states owners.now me units.old.states))) }
    ensures none { result ≡ false → making_in notes.new ≡ making_in notes.old }
    ensures notes { AreNotes plan.now.run notes.new }
    ensures room { HasRoom notes.new }
    ensures words { HaveTheirWords plan.now.run (ports_in notes.new.words.items) units.new.inputs }
    ensures states { units.new.states ≡ units.old.states }
    ensures plan { units.new.plan ≡ units.old.plan }
{
    // Called for its clauses, which state how long the lists of the units are.
    let _ = units.count();
    let mut made = false;
    for place in 0..notes.words.len() {
        let own = owner_at(plan, owners, place) == me;
        if make_word(plan, units, notes, row, place as u32, own) {
            made = true;
        }
    }
    made
}

/// Makes all words that can be made, each as soon as it is determined: in passes, until one makes none.
pub(crate) fn make_words(
    plan: &Plan,
    units: &mut Units,
    notes: &mut Notes,
    owners: &[u8],
    me: u8,
    row: u64,
)
    requires tied { units.old.plan ≡ plan.now }
    requires few { length (routes_of plan.now.run).outputs ≤ 2 ^ 32 }
    requires owners { length owners.now ≡ length plan.now.run.members }
    requires notes { AreNotes plan.now.run notes.old }
    requires room { HasRoom notes.old }
    requires words { HaveTheirWords plan.now.run (ports_in notes.old.words.items) units.old.inputs }
    ensures made { (point : Point) → making_in notes.new
        ≡ words_made plan.now.run owners.now me (part_at owners.now me point row units.old.states) (making_in notes.old) }
    ensures notes { AreNotes plan.now.run notes.new }
    ensures room { HasRoom notes.new }
    ensures words { HaveTheirWords plan.now.run (ports_in notes.new.words.items) units.new.inputs }
    ensures states { units.new.states ≡ units.old.states }
    ensures plan { units.new.plan ≡ units.old.plan }
{
    // Called for its clauses, which state how long the lists of the units are.
    let _ = units.count();
    for _turn in 0..notes.words.len() {
        if !make_pass(plan, units, notes, owners, me, row) {
            break;
        }
    }
}
