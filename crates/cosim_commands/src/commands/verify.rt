//! The command `verify`, in three steps: where the table begins, the plan of the system of the text before it, and the verdict.
ghost use Rattle.std.specs.Prelude.{◌≡◌, ◌≤◌, length, IfOk};
ghost use Rattle.command_line.specs.Commands.{verify_limit};
ghost use Rattle.command_line.specs.declared.commands.Command.TheVariants.{Verify};
ghost use Rattle.cosim_answers.specs.Answer.{Answers};
ghost use Rattle.cosim_answers.specs.Serving.{FindsParts};
ghost use Rattle.cosim_answers.specs.TableAnswers.{verdict_text};
ghost use Rattle.cosim_call.specs.Coming.{Makes};

use cosim_call::{Stopped, append_all};
use cosim_notes::plan_of;
use fixed_words::NoMemory;
use itoa::Buffer;
use model_rules::Rule;
use std::alloc::Global;
use trace_verify::{Parted, Verdict, part, verify};

/// Returns the text and the table of an input, or its refusal.
fn parts_of(input: &[u8]) -> Result<Parted<'_>, Stopped>
    ensures { FindsParts input.now result }
{
    match part(input) {
        Some(parts) => Ok(parts),
        None => Err(Stopped::Refused {
            line: 1,
            rule: Rule::TraceIsThere.number(),
        }),
    }
}

/// Returns the line of a verdict.
fn line_of(alloc: Global, verdict: Verdict) -> Result<Vec<u8>, NoMemory>
    ensures { IfOk result (λ line. line.items ≡ verdict_text verdict) }
{
    let mut line = Vec::new(alloc);
    match verdict {
        Verdict::Yes => append_all(&mut line, &[b"yes\n"])?,
        Verdict::No { number, column } => {
            let (mut of_record, mut of_field) = (Buffer::new(), Buffer::new());
            append_all(
                &mut line,
                &[
                    b"no ",
                    of_record.format(number).as_bytes(),
                    b" ",
                    of_field.format(column).as_bytes(),
                    b"\n",
                ],
            )?;
        }
    }
    Ok(line)
}

/// Returns what is written for an input: the verdict on the table, which should be the trace of the text before it.
#[inline(never)]
pub(crate) fn make(alloc: Global, input: &[u8]) -> Result<Vec<u8>, Stopped>
    requires within { length input.now ≤ verify_limit }
    ensures { Makes (Answers Verify input.now) result }
{
    let parts = parts_of(input)?;
    let plan = plan_of(alloc, parts.model)?;
    let verdict = verify(alloc, plan, parts.table)?;
    Ok(line_of(alloc, verdict)?)
}
