//! What each instance needs to run.
ghost use Rattle.std.specs.Prelude.{◌≡◌, ◌↔◌, ◌≤◌, length, map, IfOk, OnOk, IfSome, IfNone, None, IsSome, IsTrue};
ghost use Rattle.std.specs.List.{AllByRecursion, AllZip};
ghost use Rattle.fixed_words.specs.Types.{lowest, highest, AreDecimals};
ghost use Rattle.trace_plan.specs.Fitting.{IsUnitNamed, IsFittedFor, AreImagesOf, tells_max};
ghost use Rattle.trace_plan.specs.Keeps.{IsFitted};
ghost use Rattle.trace_plan.specs.Plans.{places_from};
ghost use Rattle.unit_exec.specs.Images.{IsCompiled, HasParams, unit_of_plain_form};
ghost use Rattle.unit_tree.specs.declared.system.System.{System};
ghost use Rattle.unit_tree.specs.Components.{start_word};
ghost use Rattle.unit_tree.specs.Compositions.{literal_set, run_of};
ghost use Rattle.unit_tree.specs.Names.{unit_named};
ghost use Rattle.unit_tree.specs.Plain.{plain_form};
ghost use Rattle.unit_tree.specs.WellFormed.{resolution_of};
ghost use Rattle.unit_tree.specs.declared.unit.Param.{Param};
ghost use Rattle.model_rules.specs.Limits.{instance_limit};

use crate::numbers::{factor, resolution};
use fixed_words::{Literal, NoMemory, range};
use std::alloc::{AllocError, Global};
use std::sync::Arc;
use unit_exec::{Image, compile};
use unit_tree::{Checked, Input, Instance, Param, Setting, Unit, start_word};

/// What an instance needs to run: its image, the length of its local tick in ticks of the system, and the lowest and the
/// highest words of its inputs' types.
#[derive(Drop)]
pub(crate) struct Fitted {
    pub(crate) image: Arc<Image>,
    pub(crate) factor: u64,
    pub(crate) low: Vec<i64>,
    pub(crate) high: Vec<i64>,
}

/// Returns the lowest words of the inputs' types.
fn lowest_words(alloc: Global, inputs: &[Input]) -> Result<Vec<i64>, NoMemory>
    ensures { IfOk result (λ words. words.items ≡ map (λ input. lowest input.ty) inputs.now) }
{
    let mut words = Vec::with_capacity(alloc, inputs.len())?;
    for input in inputs {
        words.push(range(input.ty).0)?;
    }
    Ok(words)
}

/// Returns the highest words of the inputs' types.
fn highest_words(alloc: Global, inputs: &[Input]) -> Result<Vec<i64>, NoMemory>
    ensures { IfOk result (λ words. words.items ≡ map (λ input. highest input.ty) inputs.now) }
{
    let mut words = Vec::with_capacity(alloc, inputs.len())?;
    for input in inputs {
        words.push(range(input.ty).1)?;
    }
    Ok(words)
}

/// Returns the literal of a parameter: the first that is set or, where none is, its start.
fn literal_set(settings: &[Setting], param: &Param) -> Literal
    ensures { result ≡ literal_set settings.now param.now }
{
    for setting in settings {
        if setting.name.as_slice() == param.name.as_slice() {
            return setting.value;
        }
    }
    param.start
}

/// Returns the words of parameters, with the settings of an instance.
fn param_words(alloc: Global, settings: &[Setting], params: &[Param]) -> Result<Vec<i64>, NoMemory>
    requires { AllByRecursion (λ (param : Param). AreDecimals param.ty) params.now }
    ensures { IfOk result (λ words. words.items ≡ map (λ param. start_word param.ty (literal_set settings.now param)) params.now) }
{
    let mut words = Vec::with_capacity(alloc, params.len())?;
    for param in params {
        words.push(start_word(param.ty, literal_set(settings, param)))?;
    }
    Ok(words)
}

/// Returns the number of the first unit of a name, or `None` where there is none.
fn number_of(units: &[Unit], name: &[u8]) -> Option<usize>
    ensures some { IfSome result (IsUnitNamed units.now name.now) }
    ensures none { IfNone result (unit_named units.now name.now ≡ None) }
{
    for (number, unit) in units.iter().enumerate() {
        if unit.name.as_slice() == name {
            return Some(number);
        }
    }
    None
}

/// A unit of a checked system, given by its number, that was compiled with words of its parameters.
#[derive(Drop)]
pub(crate) struct Made {
    pub(crate) unit: u32,
    pub(crate) params: Vec<i64>,
    pub(crate) image: Arc<Image>,
}

/// Returns whether the words are equal.
fn same_words(one: &[i64], other: &[i64]) -> bool
    ensures { IsTrue result ↔ (one.now ≡ other.now) }
{
    one == other
}

/// Returns the image that was made of a unit with these words of its parameters, where there is one.
fn made_of<'a>(made: &'a [Made], unit: u32, params: &[i64]) -> Option<&'a Arc<Image>>
    ensures { (checked : System) → AreImagesOf checked made.now → IfSome result (λ image. IsCompiled checked unit params.now image.now.value) }
{
    for one in made {
        if one.unit == unit && same_words(&one.params, params) {
            return Some(&one.image);
        }
    }
    None
}

/// Returns the image of a unit with words of its parameters. It is made once, and all instances with the same unit and words share it.
fn image_for(
    alloc: Global,
    checked: &Checked,
    made: &mut Vec<Made>,
    unit: u32,
    params: Vec<i64>,
) -> Result<Arc<Image>, NoMemory>
    requires there { IsSome (unit_of_plain_form checked.now unit) }
    requires one_each { HasParams checked.now unit params.items }
    requires made { AreImagesOf checked.now made.old.items }
    ensures image { IfOk result (λ image. IsCompiled checked.now unit params.items image.value) }
    ensures made { OnOk result (AreImagesOf checked.now made.new.items) }
{
    if let Some(image) = made_of(made, unit, &params) {
        return Arc::clone(image);
    }
    let image = Arc::new(alloc, compile(alloc, checked, unit, &params)?)?;
    let shared = Arc::clone(&image)?;
    made.push(Made {
        unit,
        params,
        image,
    })?;
    Ok(shared)
}

/// Returns what an instance of a checked system needs, where its unit is declared. `made` has the images made so far.
fn fit(
    alloc: Global,
    checked: &Checked,
    made: &mut Vec<Made>,
    resolution: u8,
    instance: &Instance,
    number: u32,
) -> Result<Fitted, NoMemory>
    requires resolution { resolution ≡ resolution_of (plain_form checked.now) }
    requires unit { IsUnitNamed (plain_form checked.now).units instance.now.unit number }
    requires made { AreImagesOf checked.now made.old.items }
    ensures fitted { IfOk result (IsFittedFor (plain_form checked.now) instance.now) }
    ensures made { OnOk result (AreImagesOf checked.now made.new.items) }
{
    let unit = checked.system().units.get(number as usize).unwrap();
    let params = param_words(alloc, instance.settings.as_slice(), unit.params.as_slice())?;
    Ok(Fitted {
        image: image_for(alloc, checked, made, number, params)?,
        factor: factor(resolution, unit),
        low: lowest_words(alloc, unit.inputs.as_slice())?,
        high: highest_words(alloc, unit.inputs.as_slice())?,
    })
}

/// Returns what each instance of a checked system needs, in their order.
pub(crate) fn all_fitted(alloc: Global, checked: &Checked) -> Result<Vec<Fitted>, NoMemory>
    ensures { IfOk result (λ all. AllZip IsFitted (run_of checked.now).members all.items) }
{
    let system = checked.system();
    let resolution = resolution(system);
    let mut all = Vec::new(alloc);
    let mut made = Vec::new(alloc);
    for instance in system.instances.as_slice() {
        if let Some(number) = number_of(system.units.as_slice(), instance.unit.as_slice()) {
            // A system in range has far fewer units.
            let Ok(number) = u32::try_from(number) else {
                return Err(AllocError);
            };
            all.push(fit(alloc, checked, &mut made, resolution, instance, number)?)?;
        }
    }
    Ok(all)
}

/// Returns the numbers of the instances whose code computes a limit, in their order.
pub(crate) fn limited(alloc: Global, fitted: &[Fitted]) -> Result<Vec<u32>, NoMemory>
    requires { length fitted.now ≤ instance_limit }
    ensures { IfOk result (λ limited. limited.items ≡ places_from 0 (map tells_max fitted.now)) }
{
    let mut limited = Vec::new(alloc);
    for instance in 0..fitted.len() {
        if fitted[instance].image.code().program().limit.is_some() {
            limited.push(instance as u32)?;
        }
    }
    Ok(limited)
}

/// Returns how many ticks of the system one local tick of each instance is.
pub(crate) fn factors(alloc: Global, fitted: &[Fitted]) -> Result<Vec<u64>, NoMemory>
    ensures { IfOk result (λ factors. factors.items ≡ map (λ one. one.factor) fitted.now) }
{
    let mut factors = Vec::with_capacity(alloc, fitted.len())?;
    for one in fitted {
        factors.push(one.factor)?;
    }
    Ok(factors)
}
