//! The numbers of the lines of a text, by groups.
ghost use Rattle.std.specs.Prelude.{◌≡◌, ◌++◌, IfOk, OnOk};
ghost use Rattle.unit_text.specs.declared.numbers.BlockPlace.TheVariants as place;
ghost use Rattle.unit_text.specs.Numbering.{joined_slices, no_unit_numbers, bare_numbers, place_in, group_of, in_unit_group, unit_in_order, unit_end, with_number, with_marks, marks_of, in_order};

use crate::draft::OpenBlock;
use fixed_words::{List, NoMemory};
use std::alloc::Global;
use std::mem::replace;
use unit_tree::LineForm;

/// The place of a line: which kind of block is open before it.
#[derive(Clone, Copy)]
pub enum BlockPlace {
    Top,
    Unit,
    Step,
    Instance,
}

impl BlockPlace {
    /// The place of a line that follows this block.
    pub fn of(block: &OpenBlock) -> BlockPlace
        ensures { result ≡ place_in block.now }
    {
        match block {
            OpenBlock::Top => BlockPlace::Top,
            OpenBlock::Unit(_) => BlockPlace::Unit,
            OpenBlock::Step { .. } => BlockPlace::Step,
            OpenBlock::Instance(_) => BlockPlace::Instance,
        }
    }
}

/// Lines that are together in canonical order, in each unit or in the whole text. The header is in no group.
#[derive(Clone, Copy)]
pub enum Group {
    UnitHead,
    Resolution,
    Params,
    States,
    Locals,
    Inputs,
    EventInputs,
    Outputs,
    EventOutputs,
    Max,
    /// The lines of a step, from `step` to its `end`.
    Step,
    UnitEnd,
    /// All lines of instances.
    Instances,
    Wires,
    Stop,
    Longest,
    Zero,
    Rows,
    Samples,
}

impl Group {
    /// The group of a line outside blocks, after the header. None where it is not allowed there; so it is in
    /// the functions below.
    fn at_top(form: &LineForm) -> Option<Group>
        ensures { result ≡ group_of place.Top form.now }
    {
        match form {
            LineForm::Unit(_) => Some(Group::UnitHead),
            LineForm::Instance { .. } => Some(Group::Instances),
            LineForm::Connect(_) => Some(Group::Wires),
            LineForm::Stop(_) => Some(Group::Stop),
            LineForm::Longest(_) => Some(Group::Longest),
            LineForm::Zero(_) => Some(Group::Zero),
            LineForm::Rows(_) => Some(Group::Rows),
            LineForm::Sample(_) => Some(Group::Samples),
            _ => None,
        }
    }

    /// The group of a line in a unit, outside its step.
    fn in_unit(form: &LineForm) -> Option<Group>
        ensures { result ≡ group_of place.Unit form.now }
    {
        match form {
            LineForm::Resolution(_) => Some(Group::Resolution),
            LineForm::Param(_) => Some(Group::Params),
            LineForm::State(_) => Some(Group::States),
            LineForm::Local(_) => Some(Group::Locals),
            LineForm::Input(_) => Some(Group::Inputs),
            LineForm::EventInput(_) => Some(Group::EventInputs),
            LineForm::Output(_) => Some(Group::Outputs),
            LineForm::EventOutput(_) => Some(Group::EventOutputs),
            LineForm::Max(_) => Some(Group::Max),
            LineForm::Step => Some(Group::Step),
            LineForm::End => Some(Group::UnitEnd),
            _ => None,
        }
    }

    /// The group of a line in this place.
    pub fn of(place: BlockPlace, form: &LineForm) -> Option<Group>
        ensures { result ≡ group_of place form.now }
    {
        match place {
            BlockPlace::Top => Group::at_top(form),
            BlockPlace::Unit => Group::in_unit(form),
            BlockPlace::Step => Some(Group::Step),
            BlockPlace::Instance => Some(Group::Instances),
        }
    }
}

/// A line of a text by its group and its number.
#[derive(Clone, Copy)]
pub struct Mark {
    pub group: Group,
    pub number: u32,
}

/// Adds a mark for the line with this number, if it is in a group.
pub fn note(marks: &mut Vec<Mark>, group: Option<Group>, number: u32) -> Result<(), NoMemory>
    ensures { OnOk result (marks.new.items ≡ marks.old.items ++ marks_of group number) }
{
    if let Some(group) = group {
        marks.push(Mark { group, number })?;
    }
    Ok(())
}

/// The numbers of the lines of the open unit, by groups.
#[derive(Drop)]
pub struct UnitNumbers {
    pub head: List<u32>,
    pub resolution: List<u32>,
    pub params: List<u32>,
    pub states: List<u32>,
    pub locals: List<u32>,
    pub inputs: List<u32>,
    pub events_in: List<u32>,
    pub outputs: List<u32>,
    pub events_out: List<u32>,
    pub max: List<u32>,
    pub step: List<u32>,
}

/// The numbers of the lines of a text, by groups. Those of the open unit are kept apart.
#[derive(Drop)]
pub struct Numbers {
    pub header: List<u32>,
    /// The lines of the complete units, those of each in canonical order.
    pub units: List<u32>,
    pub instances: List<u32>,
    pub wires: List<u32>,
    pub stop: List<u32>,
    pub longest: List<u32>,
    pub zero: List<u32>,
    pub rows: List<u32>,
    pub samples: List<u32>,
    pub unit: UnitNumbers,
}

/// Appends numbers.
fn append(numbers: &mut List<u32>, more: &[u32]) -> Result<(), NoMemory>
    ensures { OnOk result (numbers.new ≡ numbers.old ++ more.now) }
{
    for number in more {
        numbers.push(*number)?;
    }
    Ok(())
}

/// Appends the lists in their order.
fn append_all(numbers: &mut List<u32>, lists: &[&[u32]]) -> Result<(), NoMemory>
    ensures { OnOk result (numbers.new ≡ numbers.old ++ joined_slices lists.now) }
{
    for list in lists {
        append(numbers, list)?;
    }
    Ok(())
}

impl UnitNumbers {
    /// Returns the numbers of a unit without lines.
    fn new(alloc: Global) -> UnitNumbers
        ensures { result ≡ no_unit_numbers }
    {
        UnitNumbers {
            head: List::new(alloc),
            resolution: List::new(alloc),
            params: List::new(alloc),
            states: List::new(alloc),
            locals: List::new(alloc),
            inputs: List::new(alloc),
            events_in: List::new(alloc),
            outputs: List::new(alloc),
            events_out: List::new(alloc),
            max: List::new(alloc),
            step: List::new(alloc),
        }
    }

    /// Adds a line of the unit that does not end it.
    fn add(&mut self, group: Group, number: u32) -> Result<(), NoMemory>
        ensures { OnOk result (self.new ≡ in_unit_group self.old group number) }
    {
        match group {
            Group::UnitHead => self.head.push(number),
            Group::Resolution => self.resolution.push(number),
            Group::Params => self.params.push(number),
            Group::States => self.states.push(number),
            Group::Locals => self.locals.push(number),
            Group::Inputs => self.inputs.push(number),
            Group::EventInputs => self.events_in.push(number),
            Group::Outputs => self.outputs.push(number),
            Group::EventOutputs => self.events_out.push(number),
            Group::Max => self.max.push(number),
            Group::Step => self.step.push(number),
            _ => Ok(()),
        }
    }

    /// Appends the numbers of this unit, in canonical order, to those of the units before.
    fn append_to(&self, units: &mut List<u32>) -> Result<(), NoMemory>
        ensures { OnOk result (units.new ≡ units.old ++ unit_in_order self.now) }
    {
        append_all(
            units,
            &[
                self.head.as_slice(),
                self.resolution.as_slice(),
                self.params.as_slice(),
                self.states.as_slice(),
                self.locals.as_slice(),
                self.inputs.as_slice(),
                self.events_in.as_slice(),
                self.outputs.as_slice(),
                self.events_out.as_slice(),
                self.max.as_slice(),
                self.step.as_slice(),
            ],
        )
    }
}

impl Numbers {
    /// Returns the number of the header alone. Adding lines takes memory from `alloc`.
    fn new(alloc: Global, header: u32) -> Result<Numbers, NoMemory>
        ensures { IfOk result (λ numbers. numbers ≡ bare_numbers header) }
    {
        Ok(Numbers {
            header: List::from_slice(alloc, &[header])?,
            units: List::new(alloc),
            instances: List::new(alloc),
            wires: List::new(alloc),
            stop: List::new(alloc),
            longest: List::new(alloc),
            zero: List::new(alloc),
            rows: List::new(alloc),
            samples: List::new(alloc),
            unit: UnitNumbers::new(alloc),
        })
    }

    /// Adds the `end` of the open unit.
    fn end_unit(&mut self, alloc: Global, number: u32) -> Result<(), NoMemory>
        ensures { OnOk result (self.new ≡ unit_end self.old number) }
    {
        self.unit.append_to(&mut self.units)?;
        self.units.push(number)?;
        drop(replace(&mut self.unit, UnitNumbers::new(alloc)));
        Ok(())
    }

    /// Adds a line. New lists take memory from `alloc`.
    fn add(&mut self, alloc: Global, group: Group, number: u32) -> Result<(), NoMemory>
        ensures { OnOk result (self.new ≡ with_number self.old group number) }
    {
        match group {
            Group::UnitEnd => self.end_unit(alloc, number),
            Group::Instances => self.instances.push(number),
            Group::Wires => self.wires.push(number),
            Group::Stop => self.stop.push(number),
            Group::Longest => self.longest.push(number),
            Group::Zero => self.zero.push(number),
            Group::Rows => self.rows.push(number),
            Group::Samples => self.samples.push(number),
            of_unit => self.unit.add(of_unit, number),
        }
    }

    /// Appends all numbers, in canonical order.
    fn append_to(&self, numbers: &mut List<u32>) -> Result<(), NoMemory>
        ensures { OnOk result (numbers.new ≡ numbers.old ++ in_order self.now) }
    {
        append_all(
            numbers,
            &[
                self.header.as_slice(),
                self.units.as_slice(),
                self.instances.as_slice(),
                self.wires.as_slice(),
                self.stop.as_slice(),
                self.longest.as_slice(),
                self.zero.as_slice(),
                self.rows.as_slice(),
                self.samples.as_slice(),
            ],
        )
    }

    /// Adds lines, in their order.
    fn add_all(&mut self, alloc: Global, marks: &[Mark]) -> Result<(), NoMemory>
        ensures { OnOk result (self.new ≡ with_marks self.old marks.now) }
    {
        for mark in marks {
            self.add(alloc, mark.group, mark.number)?;
        }
        Ok(())
    }

    /// Adds lines, and returns all numbers in canonical order.
    fn in_order_with(&mut self, alloc: Global, marks: &[Mark]) -> Result<List<u32>, NoMemory>
        ensures { IfOk result (λ numbers. numbers ≡ in_order (with_marks self.old marks.now)) }
    {
        self.add_all(alloc, marks)?;
        let mut numbers = List::new(alloc);
        self.append_to(&mut numbers)?;
        Ok(numbers)
    }
}

/// Returns the numbers of the header and of the lines after it, in canonical order.
pub fn numbers_in_order(alloc: Global, header: u32, marks: &[Mark]) -> Result<List<u32>, NoMemory>
    ensures { IfOk result (λ numbers. numbers ≡ in_order (with_marks (bare_numbers header) marks.now)) }
{
    let mut groups = Numbers::new(alloc, header)?;
    let numbers = groups.in_order_with(alloc, marks);
    drop(groups);
    numbers
}
