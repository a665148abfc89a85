//! The text of a summary.
ghost use Rattle.std.specs.Prelude.{◌≡◌, ◌≤◌, ◌++◌, List, OnOk, length};
ghost use Rattle.std.specs.Option.{option_copied};
ghost use Rattle.step_counts.specs.Counts.{IsCountOf};
ghost use Rattle.step_counts.specs.Fields.{name_of};
ghost use Rattle.step_counts.specs.Summaries.{counts_line, faulted_by, instance_line, instance_lines, summary_of, totals};
ghost use Rattle.step_counts.specs.declared.step.AgreedStep.{AgreedStep};
ghost use Rattle.unit_tree.specs.WellFormed.{resolution_of};

use crate::counts::{InstanceCounts, StepCounts};
use crate::ranks::{at_rank, faults_of};
use cosim_call::append_all;
use fixed_words::NoMemory;
use itoa::Buffer;
use super_time::seconds_text;
use unit_tree::{Ending, System};

/// The first line of a summary.
const HEADER: &[u8] = b"name,limited,shortened,least_limit,faults\n";

/// The most instances that a summary lists.
const MOST_LISTED: usize = 16;

/// A line of a summary.
#[derive(Clone, Copy)]
struct Line<'a> {
    name: &'a [u8],
    limited: u64,
    shortened: u64,
    least_limit: Option<u64>,
    faults: u64,
}

/// Returns the name of an instance by its number.
pub fn name_of(system: &System, instance: usize) -> &[u8]
    ensures { result.now ≡ name_of system.now instance }
{
    match system.instances.get(instance) {
        Some(instance) => instance.name.as_slice(),
        None => &[],
    }
}

/// Appends a line of the summary of a system of this resolution.
fn append_line(
    out: &mut Vec<u8>,
    system: &System,
    resolution: u8,
    line: Line<'_>,
) -> Result<(), NoMemory>
    requires resolution { resolution ≡ resolution_of system.now }
    requires decimals { resolution ≤ 9 }
    ensures { OnOk result (out.new.items ≡ out.old.items
        ++ counts_line system.now line.entry.name.now line.entry.limited line.entry.shortened line.entry.least_limit line.entry.faults) }
{
    let mut limited = Buffer::new();
    let mut shortened = Buffer::new();
    let mut faults = Buffer::new();
    append_all(
        out,
        &[
            line.name,
            b",",
            limited.format(line.limited).as_bytes(),
            b",",
            shortened.format(line.shortened).as_bytes(),
            b",",
        ],
    )?;
    if let Some(limit) = line.least_limit {
        seconds_text(resolution, limit, out)?;
    }
    append_all(out, &[b",", faults.format(line.faults).as_bytes(), b"\n"])
}

/// Appends the line of an instance, if there is one.
fn append_instance(
    out: &mut Vec<u8>,
    system: &System,
    resolution: u8,
    faulted: Option<u32>,
    counts: Option<&InstanceCounts>,
) -> Result<(), NoMemory>
    requires resolution { resolution ≡ resolution_of system.now }
    requires decimals { resolution ≤ 9 }
    ensures { OnOk result (out.new.items ≡ out.old.items ++ instance_line system.now faulted (option_copied counts.entry)) }
{
    let Some(counts) = counts else {
        return Ok(());
    };
    append_line(
        out,
        system,
        resolution,
        Line {
            name: name_of(system, counts.instance),
            limited: counts.limited,
            shortened: counts.shortened,
            least_limit: counts.least_limit,
            faults: faults_of(faulted, counts.instance),
        },
    )
}

/// Appends the lines of the instances to look at first.
fn append_instances(
    out: &mut Vec<u8>,
    system: &System,
    resolution: u8,
    faulted: Option<u32>,
    instances: &[InstanceCounts],
) -> Result<(), NoMemory>
    requires resolution { resolution ≡ resolution_of system.now }
    requires decimals { resolution ≤ 9 }
    ensures { OnOk result (out.new.items ≡ out.old.items ++ instance_lines system.now faulted instances.now) }
{
    for rank in 0..MOST_LISTED {
        let counts = at_rank(faulted, instances, rank);
        append_instance(out, system, resolution, faulted, counts)?;
    }
    Ok(())
}

/// Returns the instance that ended a run by its fault, if one did.
fn faulted_by(outcome: Ending) -> Option<u32>
    ensures { result ≡ faulted_by outcome }
{
    match outcome {
        Ending::UnitFault { instance, .. } => Some(instance),
        _ => None,
    }
}

/// Appends the lines that no instance has: the header, and the counts of all steps and of those that the system itself limits.
fn append_totals(
    out: &mut Vec<u8>,
    system: &System,
    resolution: u8,
    counts: &StepCounts,
    faults: u64,
) -> Result<(), NoMemory>
    requires resolution { resolution ≡ resolution_of system.now }
    requires decimals { resolution ≤ 9 }
    ensures { OnOk result (out.new.items ≡ out.old.items ++ totals system.now faults counts.now.steps counts.now.redone counts.now.to_stop counts.now.longest) }
{
    out.extend_from_slice(HEADER)?;
    let step = Line {
        name: b"step",
        limited: counts.steps,
        shortened: counts.redone,
        least_limit: None,
        faults,
    };
    let stop = Line {
        name: b"stop",
        limited: counts.to_stop,
        shortened: 0,
        least_limit: None,
        faults: 0,
    };
    let longest = Line {
        name: b"longest",
        limited: counts.longest,
        ..stop
    };
    append_line(out, system, resolution, step)?;
    append_line(out, system, resolution, stop)?;
    append_line(out, system, resolution, longest)
}

/// Appends the summary of a run of a system of this resolution, whose steps have these counts and which ended so.
pub fn write_summary(
    out: &mut Vec<u8>,
    system: &System,
    resolution: u8,
    counts: &StepCounts,
    outcome: Ending,
) -> Result<(), NoMemory>
    requires resolution { resolution ≡ resolution_of system.now }
    requires decimals { resolution ≤ 9 }
    ensures { (steps : List AgreedStep) → IsCountOf (length system.now.instances) steps counts.now
        → OnOk result (out.new.items ≡ out.old.items ++ summary_of system.now steps outcome) }
{
    let faulted = faulted_by(outcome);
    append_totals(
        out,
        system,
        resolution,
        counts,
        u64::from(faulted.is_some()),
    )?;
    append_instances(
        out,
        system,
        resolution,
        faulted,
        counts.instances.as_slice(),
    )
}
