//! The inputs of components that an input of a group reaches, kept where they are few: they are the same in each scope
//! of its group.
ghost use Rattle.std.specs.Prelude.{◌≡◌, ◌∷◌, [], ℕ, List, Some, IfOk, IsTrue};
ghost use Rattle.nest_text.specs.declared.nest.Bind.{Bind};
ghost use Rattle.nest_text.specs.declared.nest.Nest.{Nest};
ghost use Rattle.nest_ways.specs.Reaching.{AreKnown, AreSteps, IsStep, Puts};

use crate::ends::{End, put_onward, put_within};
use crate::guide::Guide;
use crate::scopes::AllScopes;
use crate::steps::{Known, WayStep, only_inside};
use fixed_words::{List, NoMemory};
use nest_names::at;
use std::alloc::Global;

/// The most inputs that are kept for one input. Few walks meet one that reaches more, since a system has at most 2,048
/// connections. Some 40,000 inputs of groups may have two lines or more, each with a list and a set of numbers. So
/// longer lists would take much memory.
const MOST_KEPT: usize = 128;

/// Adds the inputs of components that a step of an input of a group reaches, where they are known to be few. Returns
/// whether it did.
fn put_step(
    scopes: &AllScopes<'_>,
    known: &[Known<'_>],
    guide: &mut Guide<'_>,
    group: usize,
    step: WayStep,
    ends: &mut List<End>,
) -> Result<bool, NoMemory>
    ensures { IfOk result (λ whole. (nest : Nest) (height : ℕ) (bind : Bind) → AreKnown nest scopes.now known.now
        → IsStep nest scopes.now known.now group height step bind → IsTrue whole → Puts nest scopes.now group height ends.old ends.new (bind ∷ [])) }
{
    match step {
        WayStep::Component(line) => put_within(guide, MOST_KEPT, End { scope: 0, line }, ends),
        WayStep::Inside(inside) => {
            let Some(inner) = at(known, inside.input as usize) else {
                return Ok(false);
            };
            let Some(kept) = &inner.ends else {
                return Ok(false);
            };
            let firsts = scopes.firsts(group);
            put_onward(
                guide,
                firsts,
                MOST_KEPT,
                inside.offset,
                kept.as_slice(),
                ends,
            )
        }
    }
}

/// The inputs of components that the steps of an input of a group reach, where they are few. None for an input with one
/// step into a group: a walk takes this step instead.
pub(crate) fn kept_ends(
    alloc: Global,
    scopes: &AllScopes<'_>,
    known: &[Known<'_>],
    guide: &mut Guide<'_>,
    group: usize,
    steps: &[WayStep],
) -> Result<Option<List<End>>, NoMemory>
    ensures { IfOk result (λ made. (ends : List _) → made ≡ Some ends → (nest : Nest) (height : ℕ) (binds : List Bind)
        → AreKnown nest scopes.now known.now → AreSteps nest scopes.now known.now group height steps.now binds
        → Puts nest scopes.now group height [] ends binds) }
{
    if only_inside(steps).is_some() {
        return Ok(None);
    }
    guide.begin_group(group);
    let mut ends = List::new(alloc);
    for step in steps {
        if !put_step(scopes, known, guide, group, *step, &mut ends)? {
            return Ok(None);
        }
    }
    if ends.len() > MOST_KEPT {
        return Ok(None);
    }
    Ok(Some(ends))
}
