//! Finding all inputs of components that an input of a group reaches in one scope, without a limit on their number.
//!
//! Where inputs are kept for an input, they are added; where nothing is kept, its steps are taken. Then the input is
//! finished: where a step leads to it again in that scope, nothing more is added. So a walk may meet an input by many
//! steps, and goes on from it once in each scope.
//!
//! Inputs that reach much the same are added once, too. What was added from a scope is recorded by numbers, and an
//! input is finished where all that is kept for it was added from there for others. This is tested by words of 64
//! numbers. How a walk goes on affects only its time; no clause depends on it.
ghost use Rattle.std.specs.Prelude.{◌≡◌, ◌∷◌, ◌+◌, [], ℕ, List, Some, IfOk, IsTrue, OnOk, slice_get};
ghost use Rattle.std.specs.Option.{option_to_list};
ghost use Rattle.nest_text.specs.declared.nest.Bind.{Bind};
ghost use Rattle.nest_ways.specs.Reaching.{KeepsAll, LeadsHere, lines_of};
ghost use Rattle.nest_ways.specs.Sets.{AreEmpty, HasNumberAt};
ghost use Rattle.nest_ways.specs.Walking.{AreDoneFrom, GoesOn, GoesWhole, IsBehind, IsDoneFrom, IsInletFrom, IsNumberedFrom, IsScopeAt, IsWalkFrom};
ghost use Rattle.nest_ways.specs.Walking.{LeadsFrom};
ghost use Rattle.nest_ways.specs.declared.steps.Known.{Known as Knowns};

use crate::done::DoneInputs;
use crate::ends::{End, first_same, put_onward, put_within};
use crate::guide::Guide;
use crate::known::Ways;
use crate::numbers::PutSets;
use crate::steps::{Inside, Known, WayStep, only_inside};
use fixed_words::{List, NoMemory};
use nest_names::{NestNames, at};
use std::alloc::Global;

/// The start of a walk: a scope from which others are counted, its group, and the known inputs of groups.
#[derive(Clone, Copy)]
pub struct Start<'a, 'n> {
    pub names: &'a NestNames<'n>,
    pub ways: &'a Ways<'n>,
    pub base: usize,
    pub group: usize,
    /// The most inputs of components that are allowed.
    pub most: usize,
}

/// An input of a group in a scope.
#[derive(Clone, Copy)]
pub struct Inlet {
    /// How many places after the start the scope is, in the list of all scopes.
    pub scope: u32,
    /// The place of the input among those that are known.
    pub input: u32,
}

/// What was added so far.
#[derive(Drop)]
pub struct Walk {
    /// The inputs of components, each once.
    pub ends: List<End>,
    /// The inputs of groups that are finished: all that they reach was added.
    pub done: DoneInputs,
    /// The numbers of the inputs of components that were added, for each scope.
    pub put: PutSets,
}

/// The number of the scope of an input, among those of its group.
fn scope_number(start: &Start<'_, '_>, inlet: Inlet) -> Option<u32>
    requires { IsInletFrom start.now inlet }
    ensures { (number : ℕ) (known : Knowns) → result ≡ Some number → slice_get start.now.ways.now.known.items inlet.input ≡ Some known
        → IsNumberedFrom start.now inlet.scope known.group number }
{
    let place = start.base.checked_add(inlet.scope as usize)?;
    let scope = at(start.ways.scopes.as_slice(), place)?;
    start.ways.group_scopes.number(scope.group?, place)
}

/// Whether all that is kept for an input was added from its scope.
fn is_put(start: &Start<'_, '_>, walk: &Walk, inlet: Inlet) -> bool
    requires { IsWalkFrom start.now walk.now }
    ensures { IsTrue result → (known : Knowns) → slice_get start.now.ways.now.known.items inlet.input ≡ Some known
        → IsDoneFrom start.now walk.now.ends inlet.scope known }
{
    match start.ways.kept_sets.set(inlet.input as usize) {
        Some(set) => walk.put.has(inlet.scope as usize, set),
        None => false,
    }
}

/// Whether an input is recorded as finished in its scope.
fn is_done(start: &Start<'_, '_>, walk: &Walk, inlet: Inlet) -> bool
    requires done { AreDoneFrom start.now walk.now }
    requires there { IsInletFrom start.now inlet }
    ensures { IsTrue result → (known : Knowns) → slice_get start.now.ways.now.known.items inlet.input ≡ Some known
        → IsDoneFrom start.now walk.now.ends inlet.scope known }
{
    let Some(number) = scope_number(start, inlet) else {
        return false;
    };
    walk.done.has(inlet.input as usize, number)
}

/// Records that an input is finished in its scope.
fn note_done(start: &Start<'_, '_>, walk: &mut Walk, inlet: Inlet)
    requires done { AreDoneFrom start.now walk.old }
    requires there { IsInletFrom start.now inlet }
    requires all { (known : Knowns) → slice_get start.now.ways.now.known.items inlet.input ≡ Some known
        → IsDoneFrom start.now walk.old.ends inlet.scope known }
    ensures done { AreDoneFrom start.now walk.new }
    ensures ends { walk.new.ends ≡ walk.old.ends }
{
    if let Some(number) = scope_number(start, inlet) {
        walk.done.put(inlet.input as usize, number);
    }
}

/// Records that all that is kept for an input was added from its scope.
fn note_put(start: &Start<'_, '_>, walk: &mut Walk, inlet: Inlet) -> Result<(), NoMemory>
    requires walk { IsWalkFrom start.now walk.old }
    requires there { IsInletFrom start.now inlet }
    requires all { (known : Knowns) → slice_get start.now.ways.now.known.items inlet.input ≡ Some known
        → IsDoneFrom start.now walk.old.ends inlet.scope known }
    ensures done { OnOk result (AreDoneFrom start.now walk.new) }
    ensures ends { OnOk result (walk.new.ends ≡ walk.old.ends) }
{
    match start.ways.kept_sets.set(inlet.input as usize) {
        Some(set) => {
            walk.put.put(inlet.scope as usize, set)?;
            Ok(())
        }
        None => Ok(()),
    }
}

/// Records that all that an input reaches was added.
fn note_whole(start: &Start<'_, '_>, walk: &mut Walk, inlet: Inlet) -> Result<(), NoMemory>
    requires walk { IsWalkFrom start.now walk.old }
    requires there { IsInletFrom start.now inlet }
    requires all { (known : Knowns) → slice_get start.now.ways.now.known.items inlet.input ≡ Some known
        → IsDoneFrom start.now walk.old.ends inlet.scope known }
    ensures done { OnOk result (AreDoneFrom start.now walk.new) }
    ensures ends { OnOk result (walk.new.ends ≡ walk.old.ends) }
{
    note_done(start, walk, inlet);
    note_put(start, walk, inlet)
}

/// Whether a walk from an input adds at once what is kept for it, or for the input at the end of its one step. Then it
/// meets no input again.
fn is_put_at_once(known: &[Known<'_>], input: u32) -> bool {
    let Some(first) = at(known, input as usize) else {
        return true;
    };
    let Some(inside) = only_inside(first.steps.as_slice()) else {
        return first.ends.is_some();
    };
    match at(known, inside.input as usize) {
        Some(inner) => inner.ends.is_some(),
        None => true,
    }
}

/// For how many inputs and for how many scopes a walk from an input of a group records what was added. A walk without
/// room for records still works, but takes long where it meets inputs again.
fn room_of(ways: &Ways<'_>, group: usize, input: u32) -> (usize, usize) {
    if is_put_at_once(ways.known.as_slice(), input) {
        (0, 0)
    } else {
        (ways.known.len(), ways.scopes.firsts(group).len())
    }
}

impl Walk {
    /// Returns a walk that has added nothing yet, from an input of a group.
    pub(crate) fn new(
        alloc: Global,
        ways: &Ways<'_>,
        group: usize,
        input: u32,
    ) -> Result<Walk, NoMemory>
        ensures ends { IfOk result (λ made. made.ends ≡ []) }
        ensures done { IfOk result (λ made. AreEmpty made.done.sets.items) }
        ensures put { IfOk result (λ made. (scope number : ℕ) → HasNumberAt made.put.sets.items scope number → ⊥) }
    {
        let (inputs, scopes) = room_of(ways, group, input);
        let done = DoneInputs::new(alloc, inputs)?;
        let put = PutSets::new(alloc, scopes)?;
        let ends = List::new(alloc);
        Ok(Walk { ends, done, put })
    }
}

/// Adds the inputs of components that are kept for an input.
fn put_kept<'n>(
    start: &Start<'_, 'n>,
    guide: &mut Guide<'n>,
    walk: &mut Walk,
    inlet: Inlet,
    known: &Known<'n>,
    kept: &[End],
) -> Result<bool, NoMemory>
    requires walk { IsWalkFrom start.now walk.old }
    requires there { IsBehind start.now inlet.scope known.now.group }
    requires kept { KeepsAll start.now.names.now start.now.ways.now.scopes known.now kept.now }
    ensures { IfOk result (λ whole. GoesOn start.now inlet.scope known.now walk.old walk.new whole
        (lines_of start.now.names.now known.now.group known.now.port.now)) }
{
    let firsts = start.ways.scopes.firsts(start.group);
    put_onward(guide, firsts, start.most, inlet.scope, kept, &mut walk.ends)
}

/// Adds the input of a component.
fn walk_component<'n>(
    start: &Start<'_, 'n>,
    guide: &mut Guide<'n>,
    walk: &mut Walk,
    inlet: Inlet,
    known: &Known<'n>,
    line: u32,
) -> Result<bool, NoMemory>
    requires walk { IsWalkFrom start.now walk.old }
    requires there { IsBehind start.now inlet.scope known.now.group }
    ensures { IfOk result (λ whole. (bind : Bind) → LeadsHere start.now.names.now known.now.group line bind
        → GoesOn start.now inlet.scope known.now walk.old walk.new whole (bind ∷ [])) }
{
    let scope = inlet.scope;
    put_within(guide, start.most, End { scope, line }, &mut walk.ends)
}

/// The offset of a scope that is at an offset after another: that of the first scope that is equal.
fn scope_behind(start: &Start<'_, '_>, scope: u32, offset: u32) -> Option<u32>
    requires { IsScopeAt start.now.ways.now.scopes start.now.base start.now.group }
    ensures { (inner : ℕ) → result ≡ Some inner
        → slice_get start.now.ways.now.scopes (start.now.base + inner) ≡ slice_get start.now.ways.now.scopes (start.now.base + (scope + offset)) }
{
    let onward = scope.checked_add(offset)?;
    Some(first_same(start.ways.scopes.firsts(start.group), onward))
}

/// Adds the inputs of components that a step into a group reaches.
#[cycle(walk)]
fn walk_inside<'n>(
    start: &Start<'_, 'n>,
    guide: &mut Guide<'n>,
    walk: &mut Walk,
    inlet: Inlet,
    known: &Known<'n>,
    inside: Inside,
) -> Result<bool, NoMemory>
    requires walk { IsWalkFrom start.now walk.old }
    requires there { IsBehind start.now inlet.scope known.now.group }
    requires leads { (bind : Bind) × LeadsFrom start.now known.now inside bind }
    ensures { IfOk result (λ whole. (bind : Bind)
        → LeadsFrom start.now known.now inside bind
        → GoesOn start.now inlet.scope known.now walk.old walk.new whole (bind ∷ [])) }
{
    if inside.input >= inlet.input {
        return Ok(false);
    }
    let Some(scope) = scope_behind(start, inlet.scope, inside.offset) else {
        return Ok(false);
    };
    let input = inside.input;
    walk_inlet(start, guide, walk, Inlet { scope, input })
}

/// Adds the inputs of components that a step reaches.
#[cycle(walk)]
fn walk_step<'n>(
    start: &Start<'_, 'n>,
    guide: &mut Guide<'n>,
    walk: &mut Walk,
    inlet: Inlet,
    known: &Known<'n>,
    place: usize,
) -> Result<bool, NoMemory>
    requires walk { IsWalkFrom start.now walk.old }
    requires found { slice_get start.now.ways.now.known.items inlet.input ≡ Some known.now }
    requires there { IsBehind start.now inlet.scope known.now.group }
    ensures { IfOk result (λ whole. GoesOn start.now inlet.scope known.now walk.old walk.new whole
        (option_to_list (slice_get (lines_of start.now.names.now known.now.group known.now.port.now) place))) }
{
    let Some(step) = at(known.steps.as_slice(), place) else {
        return Ok(false);
    };
    match *step {
        WayStep::Component(line) => walk_component(start, guide, walk, inlet, known, line),
        WayStep::Inside(inside) => walk_inside(start, guide, walk, inlet, known, inside),
    }
}

/// Adds the inputs of components that the steps of an input reach, until there are more than allowed.
#[cycle(walk)]
fn walk_steps<'n>(
    start: &Start<'_, 'n>,
    guide: &mut Guide<'n>,
    walk: &mut Walk,
    inlet: Inlet,
    known: &Known<'n>,
) -> Result<bool, NoMemory>
    requires walk { IsWalkFrom start.now walk.old }
    requires found { slice_get start.now.ways.now.known.items inlet.input ≡ Some known.now }
    requires there { IsBehind start.now inlet.scope known.now.group }
    ensures { IfOk result (λ whole. GoesOn start.now inlet.scope known.now walk.old walk.new whole
        (lines_of start.now.names.now known.now.group known.now.port.now)) }
{
    for place in 0..known.steps.len() {
        if !walk_step(start, guide, walk, inlet, known, place)? {
            return Ok(false);
        }
    }
    Ok(true)
}

/// Adds the inputs of components that an input reaches: those that are kept for it, or by its steps, where none are
/// kept.
#[cycle(walk)]
fn walk_known<'n>(
    start: &Start<'_, 'n>,
    guide: &mut Guide<'n>,
    walk: &mut Walk,
    inlet: Inlet,
    known: &Known<'n>,
) -> Result<bool, NoMemory>
    requires walk { IsWalkFrom start.now walk.old }
    requires found { slice_get start.now.ways.now.known.items inlet.input ≡ Some known.now }
    requires there { IsBehind start.now inlet.scope known.now.group }
    ensures { IfOk result (λ whole. GoesOn start.now inlet.scope known.now walk.old walk.new whole
        (lines_of start.now.names.now known.now.group known.now.port.now)) }
{
    match &known.ends {
        Some(kept) => put_kept(start, guide, walk, inlet, known, kept.as_slice()),
        None => walk_steps(start, guide, walk, inlet, known),
    }
}

/// Adds the inputs of components that an input of a group reaches, if it is not finished, until there are more than
/// allowed. Returns whether all were added; the input is then finished.
#[cycle(walk)]
pub(crate) fn walk_inlet<'n>(
    start: &Start<'_, 'n>,
    guide: &mut Guide<'n>,
    walk: &mut Walk,
    inlet: Inlet,
) -> Result<bool, NoMemory>
    requires walk { IsWalkFrom start.now walk.old }
    requires there { IsInletFrom start.now inlet }
    ensures { IfOk result (GoesWhole start.now inlet walk.old walk.new) }
{
    if is_done(start, walk, inlet) {
        return Ok(true);
    }
    if is_put(start, walk, inlet) {
        note_done(start, walk, inlet);
        return Ok(true);
    }
    let Some(known) = at(start.ways.known.as_slice(), inlet.input as usize) else {
        return Ok(false);
    };
    if !walk_known(start, guide, walk, inlet, known)? {
        return Ok(false);
    }
    note_whole(start, walk, inlet)?;
    Ok(true)
}
