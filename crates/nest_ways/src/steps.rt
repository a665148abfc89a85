//! The steps of inputs of groups, by numbers, so that each name is looked up once.
ghost use Rattle.std.specs.Prelude.{◌≡◌, ◌↔◌, ◌∷◌, [], ℕ, List, None, Some, IfOk, slice_get};
ghost use Rattle.nest_names.specs.Flattening.{place_at};
ghost use Rattle.nest_names.specs.declared.scope.GroupScope.{GroupScope};
ghost use Rattle.nest_ways.specs.Reaching.{AreKnown, AreSteps, FindsKnown, IsPast, IsStep, ins_of, lines_of};
ghost use Rattle.nest_ways.specs.declared.steps.Known.{Known as Knowns};
ghost use Rattle.nest_ways.specs.declared.steps.WayStep.TheVariants as step_is;

use crate::ends::{End, same_line};
use crate::guide::Guide;
use crate::scopes::AllScopes;
use fixed_words::{List, NoMemory};
use nest_names::{NestNames, at};
use nest_text::Bind;
use smallvec::SmallVec;
use std::alloc::Global;

/// A step to an input of a group: into one instance, or into several that are nested.
#[derive(Clone, Copy, Debug, PartialEq, Eq)]
pub struct Inside {
    /// How many places later the inner scope is, in the list of all scopes.
    pub offset: u32,
    /// The place of the input among those that are known.
    pub input: u32,
}

/// A step from an input of a group, by one of its `in` lines.
#[derive(Clone, Copy, Debug, PartialEq, Eq)]
pub enum WayStep {
    /// To an input of a component. It is the inner port of the line at this place, the first line that has this port.
    Component(u32),
    /// To an input of a group.
    Inside(Inside),
}

/// What a short list has at a place without a step.
impl Default for WayStep {
    fn default() -> WayStep {
        WayStep::Component(0)
    }
}

/// How many steps are stored in a known input itself. Most inputs have no more lines, so that walks read these without
/// another memory access.
const FEW_STEPS: usize = 4;

/// The steps of an input, one for each of its lines, in turn.
pub type InputSteps = SmallVec<WayStep, FEW_STEPS>;

/// A known input of a group.
#[derive(Drop)]
pub struct Known<'n> {
    pub group: usize,
    pub port: &'n [u8],
    /// The inputs of components that it reaches are at most so many levels down.
    pub height: usize,
    /// Its steps.
    pub steps: InputSteps,
    /// The inputs of components that it reaches, where they are few. None for an input with one step into a group.
    pub ends: Option<List<End>>,
}

/// The only step of an input, if it has one step and this leads into a group.
pub(crate) fn only_inside(steps: &[WayStep]) -> Option<Inside>
    ensures { (inside : _) → (result ≡ Some inside) ↔ (steps.now ≡ step_is.Inside inside ∷ []) }
{
    if steps.len() != 1 {
        return None;
    }
    match *at(steps, 0)? {
        WayStep::Component(_) => None,
        WayStep::Inside(inside) => Some(inside),
    }
}

/// A step. The inputs of components that it reaches are at most `height` levels down.
#[derive(Clone, Copy)]
pub(crate) struct Descent {
    step: WayStep,
    height: usize,
}

/// The place of a known input of a group.
pub(crate) fn find(
    known: &[Known<'_>],
    guide: &Guide<'_>,
    group: usize,
    port: &[u8],
) -> Option<usize>
    ensures { (place : ℕ) → result ≡ Some place → FindsKnown known.now group port.now place }
{
    let place = guide.known(group, port)?;
    let one = at(known, place)?;
    if one.group == group && one.port == port {
        return Some(place);
    }
    None
}

/// The step of a line that leads to a component.
fn component_step<'n>(
    names: &NestNames<'n>,
    guide: &Guide<'n>,
    group: usize,
    bind: &'n Bind,
    line: usize,
) -> Option<Descent>
    requires line { slice_get (ins_of names.now (Some group)) line ≡ Some bind.now }
    requires component { place_at names.now (Some group) bind.now.inner.instance ≡ None }
    ensures { (made : _) (scopes : List GroupScope) (known : List Knowns) → result ≡ Some made
        → IsStep names.now scopes known group made.height made.step bind.now }
{
    let line = same_line(guide, group, names.ins(group), bind, line);
    let Ok(line) = u32::try_from(line) else {
        return None;
    };
    let step = WayStep::Component(line);
    Some(Descent { step, height: 0 })
}

/// The step to an input; or, where that input has only one line and this leads into a group, the two steps joined. So a
/// chain of such inputs is one step.
fn past(inner: &Known<'_>, step: Inside) -> Option<Inside>
    ensures { (one : _) → result ≡ Some one → IsPast inner.now.steps.items step one }
{
    let Some(onward) = only_inside(inner.steps.as_slice()) else {
        return Some(step);
    };
    let offset = step.offset.checked_add(onward.offset)?;
    let input = onward.input;
    Some(Inside { offset, input })
}

/// The step of a line that leads into a group.
fn inside_step<'n>(
    names: &NestNames<'n>,
    scopes: &AllScopes<'n>,
    known: &[Known<'n>],
    guide: &Guide<'n>,
    group: usize,
    bind: &'n Bind,
    place: usize,
) -> Option<Descent>
    requires known { AreKnown names.now scopes.now known.now }
    requires inside { place_at names.now (Some group) bind.now.inner.instance ≡ Some place }
    ensures { (made : _) → result ≡ Some made → IsStep names.now scopes.now known.now group made.height made.step bind.now }
{
    let name = &bind.inner.instance;
    let input = find(known, guide, place, bind.inner.port.as_slice())?;
    let inner = at(known, input)?;
    let offset = scopes.offset(group, name, place)?;
    let height = inner.height.checked_add(1)?;
    let Ok(input) = u32::try_from(input) else {
        return None;
    };
    let onward = past(inner, Inside { offset, input })?;
    let step = WayStep::Inside(onward);
    Some(Descent { step, height })
}

/// The step of a line of a group.
fn step_of<'n>(
    names: &NestNames<'n>,
    scopes: &AllScopes<'n>,
    known: &[Known<'n>],
    guide: &Guide<'n>,
    group: usize,
    bind: &'n Bind,
    line: usize,
) -> Option<Descent>
    requires known { AreKnown names.now scopes.now known.now }
    requires line { slice_get (ins_of names.now (Some group)) line ≡ Some bind.now }
    ensures { (made : _) → result ≡ Some made → IsStep names.now scopes.now known.now group made.height made.step bind.now }
{
    match names.place_at(Some(group), bind.inner.instance.as_slice()) {
        None => component_step(names, guide, group, bind, line),
        Some(place) => inside_step(names, scopes, known, guide, group, bind, place),
    }
}

/// The steps of an input. The inputs of components that it reaches are at most `height` levels down.
#[derive(Drop)]
pub(crate) struct Steps {
    pub(crate) steps: InputSteps,
    pub(crate) height: usize,
}

/// The steps of an input, if the inner inputs that it leads to are known.
pub(crate) fn steps_of<'n>(
    alloc: Global,
    names: &NestNames<'n>,
    scopes: &AllScopes<'n>,
    known: &[Known<'n>],
    guide: &Guide<'n>,
    group: usize,
    port: &[u8],
) -> Result<Option<Steps>, NoMemory>
    requires { AreKnown names.now scopes.now known.now }
    ensures { IfOk result (λ made. (found : _) → made ≡ Some found
        → AreSteps names.now scopes.now known.now group found.height found.steps.items (lines_of names.now group port.now)) }
{
    let mut steps = SmallVec::new(alloc);
    let mut height: usize = 0;
    for line in names.ins_named(group, port) {
        let Some(bind) = at(names.ins(group), *line) else {
            return Ok(None);
        };
        let Some(next) = step_of(names, scopes, known, guide, group, bind, *line) else {
            return Ok(None);
        };
        steps.push(next.step)?;
        height = height.max(next.height);
    }
    Ok(Some(Steps { steps, height }))
}
