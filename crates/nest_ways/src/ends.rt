//! Inputs of components by numbers, each added to a list once.
ghost use Rattle.std.specs.Prelude.{◌≡◌, ◌↔◌, ◌≤◌, ◌++◌, List, length, Some, IfOk, IsTrue, OnOk, map, slice_get};
ghost use Rattle.std.specs.List.{flat_map};
ghost use Rattle.std.specs.Option.{option_map, unwrap_or};
ghost use Rattle.nest_ways.specs.Reaching.{PutsIf, PutsOnce, PutsUpTo, ReadsAlike, SameKept, onward};
ghost use Rattle.nest_names.specs.declared.scope.Spot.{Spot as Spots};
ghost use Rattle.nest_text.specs.declared.nest.Bind.{Bind as Binds};

use crate::guide::Guide;
use fixed_words::{List, NoMemory};
use nest_names::{at, same_port};
use nest_text::Bind;

/// An input of a component that is reached from a scope, by numbers.
#[derive(Clone, Copy, Debug, PartialEq, Eq)]
pub struct End {
    /// How many places after that scope its own scope is, in the list of all scopes.
    pub scope: u32,
    /// The place of an `in` line of its own scope's group that has it as its inner port.
    pub line: u32,
}

/// Whether an input is at a place of a list.
#[inline(always)]
pub(crate) fn is_at(ends: &[End], place: usize, end: End) -> bool
    ensures { IsTrue result ↔ (slice_get ends.now place ≡ Some end) }
{
    match at(ends, place) {
        Some(other) => other.scope == end.scope && other.line == end.line,
        None => false,
    }
}

/// Adds an input at the end of a list, if it isn't there already. It is searched only at the place that the guide
/// gives.
#[inline(always)]
fn put_once(guide: &mut Guide<'_>, end: End, ends: &mut List<End>) -> Result<(), NoMemory>
    ensures { OnOk result (PutsOnce end ends.old ends.new) }
{
    if is_at(ends.as_slice(), guide.place_of(end), end) {
        return Ok(());
    }
    guide.note_place(end, ends.len());
    ends.push(end)?;
    Ok(())
}

/// Adds an input as [`put_once`] does, if the list has at most `most` inputs. Returns whether it did.
pub(crate) fn put_within(
    guide: &mut Guide<'_>,
    most: usize,
    end: End,
    ends: &mut List<End>,
) -> Result<bool, NoMemory>
    ensures room { IfOk result (λ whole. IsTrue whole ↔ (length ends.old ≤ most)) }
    ensures puts { IfOk result (λ whole. PutsIf whole end ends.old ends.new) }
{
    if ends.len() > most {
        return Ok(false);
    }
    put_once(guide, end, ends)?;
    Ok(true)
}

/// The offset of the first scope that is equal to the one at this offset, by the table of a group. Both are counted from
/// a scope of that group.
#[inline(always)]
pub(crate) fn first_same(firsts: &[u32], offset: u32) -> u32
    ensures { result ≡ unwrap_or (slice_get firsts.now offset) offset }
{
    match firsts.get(offset as usize) {
        Some(first) => *first,
        None => offset,
    }
}

/// Whether all these inputs are in a list, each counted from a scope that is `offset` places earlier.
fn are_among(guide: &Guide<'_>, firsts: &[u32], offset: u32, inner: &[End], ends: &[End]) -> bool
    ensures { IsTrue result → (input : End → List Spots) → ReadsAlike firsts.now input
        → SameKept (flat_map input ends.now) (flat_map input (ends.now ++ map (onward offset) inner.now)) }
{
    for end in inner {
        let Some(scope) = end.scope.checked_add(offset) else {
            return false;
        };
        let scope = first_same(firsts, scope);
        let line = end.line;
        let end = End { scope, line };
        if !is_at(ends, guide.place_of(end), end) {
            return false;
        }
    }
    true
}

/// Adds inputs at the end of a list, each counted from a scope that is `offset` places earlier, until there are more
/// than `most`. Returns whether all were added. Most often all are there already; this is tested first, since it takes
/// half the time.
pub(crate) fn put_onward(
    guide: &mut Guide<'_>,
    firsts: &[u32],
    most: usize,
    offset: u32,
    inner: &[End],
    ends: &mut List<End>,
) -> Result<bool, NoMemory>
    ensures { IfOk result (λ whole. (input : End → List Spots) → ReadsAlike firsts.now input
        → PutsUpTo whole (flat_map input ends.new) (flat_map input (ends.old ++ map (onward offset) inner.now))) }
{
    if ends.len() > most {
        return Ok(false);
    }
    if are_among(guide, firsts, offset, inner, ends.as_slice()) {
        return Ok(true);
    }
    for end in inner {
        if ends.len() > most {
            return Ok(false);
        }
        let Some(scope) = end.scope.checked_add(offset) else {
            return Ok(false);
        };
        let scope = first_same(firsts, scope);
        let line = end.line;
        put_once(guide, End { scope, line }, ends)?;
    }
    Ok(true)
}

/// The first line with the same inner port as this line, if the guide knows it.
pub(crate) fn same_line<'n>(
    guide: &Guide<'n>,
    group: usize,
    ins: &[Bind],
    bind: &'n Bind,
    line: usize,
) -> usize
    requires { slice_get ins.now line ≡ Some bind.now }
    ensures { option_map (λ (found : Binds). found.inner) (slice_get ins.now result) ≡ Some bind.now.inner }
{
    let Some(first) = guide.line(group, &bind.inner) else {
        return line;
    };
    match at(ins, first) {
        Some(other) => {
            if same_port(&other.inner, &bind.inner) {
                first
            } else {
                line
            }
        }
        None => line,
    }
}
