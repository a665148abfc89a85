ghost use Rattle.std.specs.Prelude.{◌≡◌, ◌≤◌, ◌+◌, ◌<◌, ◌^◌, ◌++◌, map, length, IfOk, OnOk};
ghost use Rattle.std.specs.Option.{option_copied};
ghost use Rattle.code_units.specs.Scopes.{constants, slots_from, scope_of, named};
ghost use Rattle.unit_tree.specs.Components.{variable};
ghost use Rattle.model_rules.specs.Limits.{input_limit, local_limit, state_limit};

use fixed_words::{List, NoMemory, Ty};
use std::alloc::Global;
use unit_tree::{Input, Local, Name, Param, State, Unit};
use unit_vm::Sizes;

/// Where the word of a name is.
#[derive(Clone, Copy, Debug)]
pub enum NamePlace {
    /// A constant of the code: the word of a parameter.
    Constant(i64),
    /// In a slot of the frame, by its number.
    Slot(u32),
}

/// A name that code may use.
#[derive(Debug, Drop)]
pub struct Named {
    pub name: Name,
    pub ty: Ty,
    pub place: NamePlace,
}

/// The names and slots that the code of a unit may use.
#[derive(Debug, Drop)]
pub struct CodeScope {
    /// Parameters, states, inputs and locals, in this order. If some have one name, the first counts.
    pub names: List<Named>,
    /// How many slots of each kind the frame has.
    pub sizes: Sizes,
    /// The slot of the local time.
    pub time: u32,
    /// The slot of the local step.
    pub step: u32,
}

/// A declaration that has a slot of its own.
trait Declared {
    ghost use Rattle.std.specs.Prelude.{◌≡◌};
    ghost use Rattle.unit_tree.specs.declared.environment.Variable.{Variable};

    ghost variable: { Self → Variable };

    fn name(&self) -> &[u8]
        ensures { result.now ≡ (variable self.now).name };

    fn ty(&self) -> Ty
        ensures { result ≡ (variable self.now).ty };
}

impl Declared for State {
    ghost use Rattle.unit_tree.specs.Components.{variable as of};

    ghost variable = { λ state. of state.name state.ty };

    fn name(&self) -> &[u8] {
        self.name.as_slice()
    }

    fn ty(&self) -> Ty {
        self.ty
    }
}

impl Declared for Input {
    ghost use Rattle.unit_tree.specs.Components.{variable as of};

    ghost variable = { λ input. of input.name input.ty };

    fn name(&self) -> &[u8] {
        self.name.as_slice()
    }

    fn ty(&self) -> Ty {
        self.ty
    }
}

impl Declared for Local {
    ghost use Rattle.unit_tree.specs.Components.{variable as of};

    ghost variable = { λ local. of local.name local.ty };

    fn name(&self) -> &[u8] {
        self.name.as_slice()
    }

    fn ty(&self) -> Ty {
        self.ty
    }
}

/// Appends parameters with their words to names.
fn push_constants(
    alloc: Global,
    names: &mut List<Named>,
    params: &[Param],
    words: &[i64],
) -> Result<(), NoMemory>
    requires { length words.now ≡ length params.now }
    ensures { OnOk result (names.new ≡ names.old ++ constants params.now words.now) }
{
    for place in 0..params.len() {
        let param = &params[place];
        names.push(Named {
            name: List::from_slice(alloc, param.name.as_slice())?,
            ty: param.ty,
            place: NamePlace::Constant(words[place]),
        })?;
    }
    Ok(())
}

/// Appends declarations with slots to names. The slots follow one another, beginning with the first.
fn push_slots<T: Declared>(
    alloc: Global,
    names: &mut List<Named>,
    first: u32,
    items: &[T],
) -> Result<(), NoMemory>
    requires { first + length items.now < 2 ^ 32 }
    ensures { OnOk result (names.new ≡ names.old ++ slots_from first (map T.variable items.now)) }
{
    for place in 0..items.len() {
        let item = &items[place];
        names.push(Named {
            name: List::from_slice(alloc, item.name())?,
            ty: item.ty(),
            place: NamePlace::Slot(first + place as u32),
        })?;
    }
    Ok(())
}

impl CodeScope {
    /// Returns the scope of a unit with these words of its parameters.
    pub fn new(alloc: Global, unit: &Unit, params: &[i64]) -> Result<CodeScope, NoMemory>
        requires one_each { length params.now ≡ length unit.now.params }
        requires states { length unit.now.states ≤ state_limit }
        requires inputs { length unit.now.inputs ≤ input_limit }
        requires locals { length unit.now.locals ≤ local_limit }
        ensures { IfOk result (λ scope. scope ≡ scope_of unit.now params.now) }
    {
        let states = unit.states.len() as u32;
        let inputs = unit.inputs.len() as u32;
        let locals = unit.locals.len() as u32;
        let mut names = List::new(alloc);
        push_constants(alloc, &mut names, unit.params.as_slice(), params)?;
        push_slots(alloc, &mut names, 0, unit.states.as_slice())?;
        push_slots(alloc, &mut names, states, unit.inputs.as_slice())?;
        push_slots(alloc, &mut names, states + inputs, unit.locals.as_slice())?;
        Ok(CodeScope {
            names,
            sizes: Sizes {
                states,
                inputs,
                locals,
            },
            time: states + inputs + locals,
            step: states + inputs + locals + 1,
        })
    }

    /// Returns the first entry of a name, or `None` where there is none.
    pub(crate) fn named(&self, name: &[u8]) -> Option<&Named>
        ensures { option_copied result ≡ named self.now.names name.now }
    {
        self.names
            .as_slice()
            .iter()
            .find(|known| known.name.as_slice() == name)
    }
}
