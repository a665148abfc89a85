//! The known inputs of groups that connections lead to: each is computed once, for all scopes of its group.
ghost use Rattle.std.specs.Prelude.{IfOk, OnOk};
ghost use Rattle.nest_ways.specs.Reaching.{AreKnown};
ghost use Rattle.nest_ways.specs.Walking.{AreWays};

use crate::done::GroupScopes;
use crate::guide::{Guide, guided_scopes};
use crate::kept::kept_ends;
use crate::numbers::KeptSets;
use crate::scopes::AllScopes;
use crate::steps::{Known, steps_of};
use fixed_words::NoMemory;
use model_rules::MOST_CONNECTIONS;
use nest_names::{LEVELS, NestNames, at, top};
use std::alloc::Global;
use unit_tree::Wire;

/// The most connections whose targets are computed beforehand, in the order in which they are used. Where all ports of
/// groups exist, each of these connections makes at least one of the flat system. So the last of them is one too many,
/// and no more are used.
const MOST_TARGETS: usize = MOST_CONNECTIONS + 1;

/// Computes an input of a group, where the inputs that it leads to were computed before.
fn add_known<'n>(
    alloc: Global,
    names: &NestNames<'n>,
    scopes: &AllScopes<'n>,
    known: &mut Vec<Known<'n>>,
    guide: &mut Guide<'n>,
    group: usize,
    port: &'n [u8],
) -> Result<(), NoMemory>
    requires { AreKnown names.now scopes.now known.old.items }
    ensures { OnOk result (AreKnown names.now scopes.now known.new.items) }
{
    let made = steps_of(alloc, names, scopes, known.as_slice(), guide, group, port)?;
    let Some(made) = made else {
        return guide.note_unknown(group, port);
    };
    let steps = made.steps.as_slice();
    let ends = kept_ends(alloc, scopes, known.as_slice(), guide, group, steps)?;
    guide.note_known(group, port, known.len())?;
    let one = Known {
        group,
        port,
        height: made.height,
        steps: made.steps,
        ends,
    };
    known.push(one)?;
    Ok(())
}

/// Computes the inputs that a line of a group leads to.
#[cycle(know)]
fn know_line<'n>(
    alloc: Global,
    names: &NestNames<'n>,
    scopes: &AllScopes<'n>,
    known: &mut Vec<Known<'n>>,
    guide: &mut Guide<'n>,
    depth: usize,
    group: usize,
    line: usize,
) -> Result<(), NoMemory>
    requires { AreKnown names.now scopes.now known.old.items }
    ensures { OnOk result (AreKnown names.now scopes.now known.new.items) }
{
    let Some(bind) = at(names.ins(group), line) else {
        return Ok(());
    };
    let Some(place) = names.place_at(Some(group), bind.inner.instance.as_slice()) else {
        return Ok(());
    };
    know(
        alloc,
        names,
        scopes,
        known,
        guide,
        depth,
        place,
        bind.inner.port.as_slice(),
    )
}

/// Computes an input of a group, after the inner inputs that it leads to.
#[cycle(know)]
fn know<'n>(
    alloc: Global,
    names: &NestNames<'n>,
    scopes: &AllScopes<'n>,
    known: &mut Vec<Known<'n>>,
    guide: &mut Guide<'n>,
    depth: usize,
    group: usize,
    port: &'n [u8],
) -> Result<(), NoMemory>
    requires { AreKnown names.now scopes.now known.old.items }
    ensures { OnOk result (AreKnown names.now scopes.now known.new.items) }
{
    if depth == 0 || guide.is_settled(group, port) {
        return Ok(());
    }
    for line in names.ins_named(group, port) {
        know_line(alloc, names, scopes, known, guide, depth - 1, group, *line)?;
    }
    add_known(alloc, names, scopes, known, guide, group, port)
}

/// Computes the inputs that the target of a connection leads to.
fn know_target<'n>(
    alloc: Global,
    names: &NestNames<'n>,
    scopes: &AllScopes<'n>,
    known: &mut Vec<Known<'n>>,
    guide: &mut Guide<'n>,
    group: Option<usize>,
    wire: &'n Wire,
) -> Result<(), NoMemory>
    requires { AreKnown names.now scopes.now known.old.items }
    ensures { OnOk result (AreKnown names.now scopes.now known.new.items) }
{
    let Some(place) = names.place_at(group, wire.to.instance.as_slice()) else {
        return Ok(());
    };
    know(
        alloc,
        names,
        scopes,
        known,
        guide,
        LEVELS,
        place,
        wire.to.port.as_slice(),
    )
}

/// Computes the targets of the connections of a scope, at most `most` of them, and returns how many more may be
/// computed.
fn know_targets<'n>(
    alloc: Global,
    names: &NestNames<'n>,
    scopes: &AllScopes<'n>,
    known: &mut Vec<Known<'n>>,
    guide: &mut Guide<'n>,
    group: Option<usize>,
    most: usize,
) -> Result<usize, NoMemory>
    requires { AreKnown names.now scopes.now known.old.items }
    ensures { IfOk result (λ more. AreKnown names.now scopes.now known.new.items) }
{
    let mut more = most;
    for wire in names.wires(group) {
        if more == 0 {
            break;
        }
        know_target(alloc, names, scopes, known, guide, group, wire)?;
        more -= 1;
    }
    Ok(more)
}

/// Computes the targets of all connections.
fn know_all<'n>(
    alloc: Global,
    names: &NestNames<'n>,
    scopes: &AllScopes<'n>,
    known: &mut Vec<Known<'n>>,
    guide: &mut Guide<'n>,
) -> Result<(), NoMemory>
    requires { AreKnown names.now scopes.now known.old.items }
    ensures { OnOk result (AreKnown names.now scopes.now known.new.items) }
{
    let mut more = MOST_TARGETS;
    for scope in scopes.as_slice() {
        more = know_targets(alloc, names, scopes, known, guide, scope.group, more)?;
    }
    Ok(())
}

/// The ways of a nest: the known inputs of groups that its connections lead to.
#[derive(Drop)]
pub struct Ways<'n> {
    pub scopes: AllScopes<'n>,
    pub group_scopes: GroupScopes,
    pub known: Vec<Known<'n>>,
    pub kept_sets: KeptSets,
}

impl<'n> Ways<'n> {
    /// Returns the ways of a nest, and a guide to them. The only error is that there is no memory.
    pub fn new(alloc: Global, names: &NestNames<'n>) -> Result<(Ways<'n>, Guide<'n>), NoMemory>
        ensures { IfOk result (λ made. AreWays names.now made.0) }
    {
        let (scopes, mut guide) = guided_scopes(alloc, names, LEVELS, &top(alloc))?;
        let scopes = AllScopes::new(alloc, names, scopes, &guide)?;
        let group_scopes = GroupScopes::new(alloc, scopes.as_slice(), names.groups().len())?;
        let mut known = Vec::new(alloc);
        know_all(alloc, names, &scopes, &mut known, &mut guide)?;
        let kept_sets = KeptSets::new(alloc, known.as_slice(), &mut guide, names.groups().len())?;
        let ways = Ways {
            scopes,
            group_scopes,
            known,
            kept_sets,
        };
        Ok((ways, guide))
    }
}
