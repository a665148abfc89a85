//! The text of a line.
ghost use Rattle.std.specs.Prelude.{◌≡◌, ◌≤◌, ◌∷◌, ◌++◌, [], OnOk};
ghost use Rattle.fixed_words.specs.Texts.{truth_text};
ghost use Rattle.step_log.specs.Lines.{accepted_text, limiter_text, log_header, shortener_text, step_line};
ghost use Rattle.unit_tree.specs.WellFormed.{resolution_of};

use cosim_call::append_all;
use fixed_words::NoMemory;
use itoa::Buffer;
use step_counts::{AgreedStep, Limiter, Shortening, name_of};
use super_time::seconds_text;
use unit_tree::System;

/// The first line of a log.
const HEADER: &[u8] = b"time,index,proposed,limited_by,agreed,shortened_by,accepted,redone,held\n";

/// Returns the header.
pub(crate) fn header() -> &'static [u8]
    ensures { result.now ≡ log_header }
{
    HEADER
}

/// Returns the field for what limits a step.
fn limiter_text(system: &System, limiter: Limiter) -> &[u8]
    ensures { result.now ≡ limiter_text system.now limiter }
{
    match limiter {
        Limiter::Instance(instance) => name_of(system, instance as usize),
        Limiter::Stop => b"stop",
        Limiter::Longest => b"longest",
    }
}

/// Returns the field of a truth value.
fn truth_text(truth: bool) -> &'static [u8]
    ensures { result.now ≡ truth_text truth }
{
    if truth { b"true" } else { b"false" }
}

/// Adds the fields for who shortens a step, with a comma before and after each.
fn put_shortening(
    line: &mut Vec<u8>,
    system: &System,
    shortening: Option<Shortening>,
) -> Result<(), NoMemory>
    ensures { OnOk result (line.new.items ≡ line.old.items ++ (44 ∷ (shortener_text system.now shortening ++ 44 ∷ (accepted_text shortening ++ 44 ∷ [])))) }
{
    let Some(shortening) = shortening else {
        return append_all(line, &[b",,,"]);
    };
    let mut accepted = Buffer::new();
    append_all(
        line,
        &[
            b",",
            name_of(system, shortening.instance as usize),
            b",",
            accepted.format(shortening.accepted).as_bytes(),
            b",",
        ],
    )
}

/// Replaces the contents of `line` by the line of a step in the log of a system of this resolution.
pub(crate) fn write_line(
    line: &mut Vec<u8>,
    system: &System,
    resolution: u8,
    step: AgreedStep,
) -> Result<(), NoMemory>
    requires resolution { resolution ≡ resolution_of system.now }
    requires decimals { resolution ≤ 9 }
    ensures { OnOk result (line.new.items ≡ step_line system.now step) }
{
    line.clear();
    seconds_text(resolution, step.point.t, line)?;
    let mut digits = Buffer::new();
    append_all(line, &[b",", digits.format(step.point.n).as_bytes(), b","])?;
    seconds_text(resolution, step.proposed, line)?;
    append_all(line, &[b",", limiter_text(system, step.limiter), b","])?;
    seconds_text(resolution, step.agreed, line)?;
    put_shortening(line, system, step.shortening)?;
    let redone = truth_text(step.agreed < step.proposed);
    append_all(
        line,
        &[redone, b",", digits.format(step.held).as_bytes(), b"\n"],
    )
}
