//! The inputs of components that the target of a connection reaches.
ghost use Rattle.std.specs.Prelude.{◌≡◌, ◌++◌, [], ℕ, List, Some, IfOk, IsTrue, slice_get};
ghost use Rattle.nest_names.specs.Flattening.{distinct};
ghost use Rattle.nest_ways.specs.Reaching.{PutsUpTo, input_at, ins_of, inputs_at};
ghost use Rattle.nest_ways.specs.Walking.{AreWays, IsFirst, IsReached, Reaches, reached_inside};
ghost use Rattle.nest_names.specs.declared.scope.Spot.{Spot as Spots};

use crate::ends::End;
use crate::guide::Guide;
use crate::known::Ways;
use crate::steps::find;
use crate::walk::{Inlet, Start, Walk, walk_inlet};
use fixed_words::{List, NoMemory};
use nest_names::{
    GroupScope, LEVELS, NestNames, Spot, at, distinct, inside, put_bind, reach, same_scope, spot_of,
};
use nest_text::Bind;
use std::alloc::Global;
use unit_tree::PortName;

/// The `in` lines of a scope of this group.
fn ins_of<'n>(names: &NestNames<'n>, group: Option<usize>) -> &'n [Bind]
    ensures { result.now ≡ ins_of names.now group }
{
    match group {
        Some(place) => names.ins(place),
        None => &[],
    }
}

/// Appends the input at a line of a scope.
fn put_input(
    alloc: Global,
    names: &NestNames<'_>,
    scopes: &[GroupScope],
    base: usize,
    end: End,
    spots: &mut List<Spot>,
) -> Result<bool, NoMemory>
    ensures { IfOk result (λ told. IsTrue told → spots.new ≡ spots.old ++ input_at names.now scopes.now base end) }
{
    let Some(place) = base.checked_add(end.scope as usize) else {
        return Ok(false);
    };
    let Some(scope) = at(scopes, place) else {
        return Ok(false);
    };
    let line = at(ins_of(names, scope.group), end.line as usize);
    put_bind(alloc, scope, line, spots)?;
    Ok(true)
}

/// The inputs that are reached from a scope.
fn inputs(
    alloc: Global,
    names: &NestNames<'_>,
    scopes: &[GroupScope],
    base: usize,
    ends: &[End],
) -> Result<Option<List<Spot>>, NoMemory>
    ensures { IfOk result (λ made. (spots : List Spots) → made ≡ Some spots → spots ≡ inputs_at names.now scopes.now base ends.now) }
{
    let mut spots = List::new(alloc);
    for end in ends {
        if !put_input(alloc, names, scopes, base, *end, &mut spots)? {
            return Ok(None);
        }
    }
    Ok(Some(spots))
}

/// The place of a scope.
fn place_of(scopes: &[GroupScope], scope: &GroupScope) -> Option<usize>
    ensures { (place : ℕ) → result ≡ Some place → slice_get scopes.now place ≡ Some scope.now }
{
    for (place, other) in scopes.iter().enumerate() {
        if same_scope(other, scope) {
            return Some(place);
        }
    }
    None
}

/// The result of a walk.
#[derive(Drop)]
pub enum Reach {
    /// All inputs that are reached.
    All(List<Spot>),
    /// There are more than allowed.
    TooMany,
    /// Nothing is known of the input, or the walk ended before it had all of them.
    Unknown,
}

/// The result of a walk that has added these inputs.
fn reach_of(whole: bool, spots: List<Spot>, most: usize) -> Reach
    ensures { (put all : List Spots) → PutsUpTo whole put all → spots ≡ distinct [] put → Reaches most (distinct [] all) result }
{
    if whole {
        return Reach::All(spots);
    }
    let many = spots.len() > most;
    drop(spots);
    if many { Reach::TooMany } else { Reach::Unknown }
}

/// The known input of a group, in the scope from which a walk begins.
fn first_inlet(ways: &Ways<'_>, guide: &Guide<'_>, group: usize, port: &[u8]) -> Option<Inlet>
    ensures { (inlet : _) → result ≡ Some inlet → IsFirst ways.now.known.items group port.now inlet }
{
    let place = find(ways.known.as_slice(), guide, group, port)?;
    let known = at(ways.known.as_slice(), place)?;
    if known.height >= LEVELS {
        return None;
    }
    let Ok(input) = u32::try_from(place) else {
        return None;
    };
    Some(Inlet { scope: 0, input })
}

/// The inputs of components that an input of a group reaches in a scope. Where they are more than `most`, the result
/// may be `TooMany`.
fn walk_from<'n>(
    alloc: Global,
    names: &NestNames<'n>,
    ways: &Ways<'n>,
    guide: &mut Guide<'n>,
    group: usize,
    scope: &GroupScope,
    port: &[u8],
    most: usize,
) -> Result<Reach, NoMemory>
    requires known { AreWays names.now ways.now }
    requires scope { scope.now.group ≡ Some group }
    ensures { IfOk result (Reaches most (reached_inside names.now scope.now group port.now)) }
{
    let scopes = ways.scopes.as_slice();
    let Some(base) = place_of(scopes, scope) else {
        return Ok(Reach::Unknown);
    };
    let Some(inlet) = first_inlet(ways, guide, group, port) else {
        return Ok(Reach::Unknown);
    };
    guide.begin(base);
    let mut walk = Walk::new(alloc, ways, group, inlet.input)?;
    let start = Start {
        names,
        ways,
        base,
        group,
        most,
    };
    let whole = walk_inlet(&start, guide, &mut walk, inlet)?;
    let Some(spots) = inputs(alloc, names, scopes, base, walk.ends.as_slice())? else {
        return Ok(Reach::Unknown);
    };
    let kept = distinct(alloc, spots.as_slice())?;
    Ok(reach_of(whole, kept, most))
}

/// Returns the inputs of components that an input of a scope reaches. Where they are more than `most`, it may return
/// `None`.
pub fn reached<'n>(
    alloc: Global,
    names: &NestNames<'n>,
    ways: &Ways<'n>,
    guide: &mut Guide<'n>,
    scope: &GroupScope,
    to: &'n PortName,
    most: usize,
) -> Result<Option<List<Spot>>, NoMemory>
    requires { AreWays names.now ways.now }
    ensures { IfOk result (IsReached names.now most (record { scope = scope.now; port = to.now })) }
{
    if let Some(place) = names.place_at(scope.group, to.instance.as_slice()) {
        let inner = inside(alloc, scope, &to.instance, place)?;
        let port = to.port.as_slice();
        match walk_from(alloc, names, ways, guide, place, &inner, port, most)? {
            Reach::All(spots) => return Ok(Some(spots)),
            Reach::TooMany => return Ok(None),
            Reach::Unknown => {}
        }
    }
    let mut spots = List::new(alloc);
    spots.push(spot_of(alloc, scope, to)?)?;
    Ok(Some(reach(alloc, names, LEVELS, spots)?))
}
