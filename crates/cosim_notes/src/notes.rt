//! The notes of the programs.
ghost use Rattle.std.specs.Prelude.{◌≡◌, ◌≤◌, ◌∷◌, [], ◌++◌, IfOk, OnOk};
ghost use Rattle.cosim_call.specs.Notes.{line_end};
ghost use Rattle.cosim_answers.specs.Accepted.{traced_notes};
ghost use Rattle.cosim_answers.specs.SourcePlaces.{instance_shape, source_end, source_place};
ghost use Rattle.event_runs.specs.Readings.{event_shape, output_read};
ghost use Rattle.cosim_answers.specs.Notes.{count_text, counts_text, nodes_text, report_text, steps_text, tickets_text, fault_number, instance_name, name_in, output_name, place_text, point_text, fault_text, budget_text, lengths_text, step_refused_text, ending_notes};

use cosim_call::append_all;
use fixed_words::{Fault, List, NoMemory};
use itoa::Buffer;
use spec_core::Counts;
use std::alloc::Global;
use super_time::seconds_text;
use trace_core::Plan;
use trace_rows::Report;
use unit_tree::{Ending, Place, Point, System, Unit};

/// Returns the number that notes have for a fault.
fn number(fault: Fault) -> u8
    ensures { result ≡ fault_number fault }
{
    match fault {
        Fault::Overflow => 1,
        Fault::Range => 2,
        Fault::ZeroDivisor => 3,
        Fault::Accept => 4,
        Fault::Max => 5,
    }
}

/// Ends a note by a point, its time in seconds with `resolution` decimals.
fn end_at(note: &mut Vec<u8>, resolution: u8, point: Point) -> Result<(), NoMemory>
    requires { resolution ≤ 9 }
    ensures { OnOk result (note.new.items ≡ note.old.items ++ (point_text resolution point ++ line_end)) }
{
    seconds_text(resolution, point.t, note)?;
    let mut index = Buffer::new();
    append_all(note, &[b",", index.format(point.n).as_bytes(), b"\n"])
}

/// Returns the name of an instance by its number.
fn instance_name(system: &System, instance: u32) -> &[u8]
    ensures { result.now ≡ instance_name system.now instance }
{
    match system.instances.get(instance as usize) {
        Some(instance) => instance.name.as_slice(),
        None => &[],
    }
}

/// Returns the name of the output that an output of the unit's plain form comes from. After the plain outputs there are two for each
/// event output.
fn name_in(unit: &Unit, number: usize) -> &[u8]
    ensures { result.now ≡ name_in unit.now (output_read (event_shape unit.now) number) }
{
    let plain = unit.outputs.as_slice();
    if number < plain.len() {
        return plain[number].name.as_slice();
    }
    match unit.events_out.get((number - plain.len()) / 2) {
        Some(event) => event.name.as_slice(),
        None => &[],
    }
}

/// Returns the name of the output that an output of the plain form comes from, by its number and its instance's.
fn output_name(system: &System, instance: u32, output: u32) -> &[u8]
    ensures { result.now ≡ output_name system.now instance (output_read (instance_shape system.now instance) output) }
{
    let Some(instance) = system.instances.get(instance as usize) else {
        return &[];
    };
    let Some(unit) = system.unit_of(instance) else {
        return &[];
    };
    name_in(unit, output as usize)
}

/// Adds the place of a fault of an instance, by its place in the plain form.
fn put_place(
    note: &mut Vec<u8>,
    system: &System,
    instance: u32,
    place: Place,
) -> Result<(), NoMemory>
    ensures { OnOk result (note.new.items ≡ note.old.items ++ place_text system.now instance (source_place system.now instance place)) }
{
    match place {
        Place::Output(output) => {
            append_all(note, &[b" output ", output_name(system, instance, output)])
        }
        Place::Max => append_all(note, &[b" max"]),
        Place::Step => append_all(note, &[b" step"]),
    }
}

/// Returns the note of a fault of an instance, in a place of the plain form, at a point.
fn fault_note(
    alloc: Global,
    system: &System,
    resolution: u8,
    instance: u32,
    place: Place,
    fault: Fault,
    point: Point,
) -> Result<Vec<u8>, NoMemory>
    requires { resolution ≤ 9 }
    ensures { IfOk result (λ note. note.items ≡ fault_text resolution (instance_name system.now instance) (place_text system.now instance (source_place system.now instance place)) fault point) }
{
    let mut number_text = Buffer::new();
    let mut note = Vec::new(alloc);
    let number = number_text.format(number(fault)).as_bytes();
    append_all(&mut note, &[b"cosim: fault ", number, b" of "])?;
    append_all(&mut note, &[instance_name(system, instance)])?;
    put_place(&mut note, system, instance, place)?;
    append_all(&mut note, &[b" at "])?;
    end_at(&mut note, resolution, point)?;
    Ok(note)
}

/// Returns the note of a budget that was spent at a point.
fn budget_note(
    alloc: Global,
    resolution: u8,
    budget: &[u8],
    point: Point,
) -> Result<Vec<u8>, NoMemory>
    requires { resolution ≤ 9 }
    ensures { IfOk result (λ note. note.items ≡ budget_text resolution budget.now point) }
{
    let mut note = Vec::new(alloc);
    append_all(&mut note, &[b"cosim: ", budget, b" budget at "])?;
    end_at(&mut note, resolution, point)?;
    Ok(note)
}

/// Adds the length of a step that was refused, and how much of it was accepted.
fn put_lengths(note: &mut Vec<u8>, asked: u64, accepted: u64) -> Result<(), NoMemory>
    ensures { OnOk result (note.new.items ≡ note.old.items ++ lengths_text asked accepted) }
{
    let (mut asked_text, mut accepted_text) = (Buffer::new(), Buffer::new());
    append_all(
        note,
        &[
            b" refused ",
            asked_text.format(asked).as_bytes(),
            b", accepted ",
            accepted_text.format(accepted).as_bytes(),
        ],
    )
}

/// Returns the note of a step that an instance refused: its length, and how much was accepted, in local ticks.
fn refused_step_note(
    alloc: Global,
    resolution: u8,
    instance: &[u8],
    asked: u64,
    accepted: u64,
    point: Point,
) -> Result<Vec<u8>, NoMemory>
    requires { resolution ≤ 9 }
    ensures { IfOk result (λ note. note.items ≡ step_refused_text resolution instance.now asked accepted point) }
{
    let mut note = Vec::new(alloc);
    append_all(&mut note, &[b"cosim: ", instance])?;
    put_lengths(&mut note, asked, accepted)?;
    append_all(&mut note, &[b", at "])?;
    end_at(&mut note, resolution, point)?;
    Ok(note)
}

/// Adds a count with its name.
fn put_count(note: &mut Vec<u8>, name: &[u8], count: u64) -> Result<(), NoMemory>
    ensures { OnOk result (note.new.items ≡ note.old.items ++ count_text name.now count) }
{
    let mut digits = Buffer::new();
    append_all(note, &[b" ", name, b" ", digits.format(count).as_bytes()])
}

/// Adds how the steps of a run were made.
fn put_steps(note: &mut Vec<u8>, found: u64, own: u64) -> Result<(), NoMemory>
    ensures { OnOk result (note.new.items ≡ note.old.items ++ steps_text found own) }
{
    put_count(note, b"found", found)?;
    put_count(note, b"own", own)
}

/// Adds how many tickets there were, and how they ended.
fn put_tickets(
    note: &mut Vec<u8>,
    tickets: u64,
    posted: u64,
    back: u64,
    lapsed: u64,
) -> Result<(), NoMemory>
    ensures { OnOk result (note.new.items ≡ note.old.items ++ tickets_text tickets posted back lapsed) }
{
    put_count(note, b"tickets", tickets)?;
    put_count(note, b"posted", posted)?;
    put_count(note, b"back", back)?;
    put_count(note, b"lapsed", lapsed)
}

/// Returns the line of a replay's counts.
pub fn counts(alloc: Global, counts: Counts) -> Result<Vec<u8>, NoMemory>
    ensures { IfOk result (λ note. note.items ≡ counts_text counts) }
{
    let mut note = Vec::from_slice(alloc, b"cosim:")?;
    put_count(&mut note, b"events", counts.events)?;
    put_count(&mut note, b"refused", counts.refused)?;
    put_steps(&mut note, counts.found, counts.own)?;
    put_tickets(
        &mut note,
        counts.tickets,
        counts.posted,
        counts.back,
        counts.lapsed,
    )?;
    put_count(&mut note, b"appended", counts.appended)?;
    append_all(&mut note, &[b"\n"])?;
    Ok(note)
}

/// Returns the line of a run's report.
pub fn report(alloc: Global, report: Report) -> Result<Vec<u8>, NoMemory>
    ensures { IfOk result (λ note. note.items ≡ report_text report) }
{
    let mut note = Vec::from_slice(alloc, b"cosim:")?;
    put_count(&mut note, b"rows", report.rows)?;
    put_steps(&mut note, report.found, report.own)?;
    put_tickets(
        &mut note,
        report.tickets,
        report.posted,
        report.back,
        report.lapsed,
    )?;
    append_all(&mut note, &[b"\n"])?;
    Ok(note)
}

/// Returns the line with the rows of two nodes.
pub fn nodes(alloc: Global, first: u64, second: u64) -> Result<Vec<u8>, NoMemory>
    ensures { IfOk result (λ note. note.items ≡ nodes_text first second) }
{
    let (mut one, mut other) = (Buffer::new(), Buffer::new());
    let mut note = Vec::new(alloc);
    append_all(
        &mut note,
        &[
            b"cosim: node 0 row ",
            one.format(first).as_bytes(),
            b", node 1 row ",
            other.format(second).as_bytes(),
            b"\n",
        ],
    )?;
    Ok(note)
}

/// Returns one line of notes.
fn one(alloc: Global, line: Vec<u8>) -> Result<List<List<u8>>, NoMemory>
    ensures { IfOk result (λ lines. lines ≡ line.items ∷ []) }
{
    let mut lines = List::new(alloc);
    lines.push(List::from_vec(line))?;
    Ok(lines)
}

/// Returns the notes of how the plain form of a system ended at its last point, with the names of the system. There is
/// no line where it came
/// to its stop.
fn ending_notes(
    alloc: Global,
    system: &System,
    resolution: u8,
    ending: Ending,
    last: Point,
) -> Result<List<List<u8>>, NoMemory>
    requires { resolution ≤ 9 }
    ensures { IfOk result (λ lines. lines ≡ ending_notes system.now resolution (source_end system.now ending) last) }
{
    match ending {
        Ending::Completed => Ok(List::new(alloc)),
        Ending::RowBudget => one(alloc, budget_note(alloc, resolution, b"row", last)?),
        Ending::ZeroBudget => one(alloc, budget_note(alloc, resolution, b"zero", last)?),
        Ending::UnitFault {
            instance,
            place,
            fault,
        } => one(
            alloc,
            fault_note(alloc, system, resolution, instance, place, fault, last)?,
        ),
        Ending::StepRefused {
            instance,
            asked,
            accepted,
        } => {
            let name = instance_name(system, instance);
            one(
                alloc,
                refused_step_note(alloc, resolution, name, asked, accepted, last)?,
            )
        }
    }
}

/// Returns the notes of how the run of a plan ended at its last point. There is no line where it came to its stop.
pub fn ending(
    alloc: Global,
    plan: &Plan,
    ending: Ending,
    last: Point,
) -> Result<List<List<u8>>, NoMemory>
    ensures { IfOk result (λ lines. lines ≡ traced_notes plan.now.system (source_end plan.now.system ending) last) }
{
    let system = plan.checked().source();
    ending_notes(alloc, system, plan.resolution(), ending, last)
}
