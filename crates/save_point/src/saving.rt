//! Positions of a trace, written as texts.
ghost use Rattle.std.specs.Prelude.{◌≡◌, ◌++◌, ◌∷◌, [], length, map, decimal, Err, OnOk, OnErr};
ghost use Rattle.save_point.specs.SavedTexts.{ended, named, point_line, row_line, saved_text, spaced_words, state_line, states_of, title_line};
ghost use Rattle.save_point.specs.Saving.{HasNoPosition, PutsPosition};

use crate::fault::SaveFault;
use crate::walking::go_on;
use fixed_words::NoMemory;
use itoa::Buffer;
use std::alloc::Global;
use std::sync::Arc;
use trace_core::{Plan, Run};
use unit_print::print_system;
use unit_tree::{Instance, Point};

/// Appends a number to a text, with these bytes before it and this one after it.
fn put_number(text: &mut Vec<u8>, front: &[u8], number: u64, end: u8) -> Result<(), NoMemory>
    ensures { OnOk result (text.new.items ≡ text.old.items ++ (front.now ++ (decimal number ++ end ∷ []))) }
{
    let mut buffer = Buffer::new();
    text.extend_from_slice(front)?;
    text.extend_from_slice(buffer.format(number).as_bytes())?;
    text.push(end)?;
    Ok(())
}

/// Appends the lines of the title, of a row and of a point to a text.
fn put_point(text: &mut Vec<u8>, row: u64, point: Point) -> Result<(), NoMemory>
    ensures { OnOk result (text.new.items ≡ text.old.items ++ ended (title_line ∷ row_line row ∷ point_line point ∷ [])) }
{
    put_number(text, b"saved 1\nrow ", row, b'\n')?;
    put_number(text, b"at ", point.t, b' ')?;
    put_number(text, b"", point.n, b'\n')
}

/// Appends words to a text, each after a space.
fn put_words(text: &mut Vec<u8>, words: &[i64]) -> Result<(), NoMemory>
    ensures { OnOk result (text.new.items ≡ text.old.items ++ spaced_words words.now) }
{
    let mut buffer = Buffer::new();
    for word in words {
        text.push(b' ')?;
        text.extend_from_slice(buffer.format(*word).as_bytes())?;
    }
    Ok(())
}

/// Appends the line of a state to a text.
fn put_state(text: &mut Vec<u8>, name: &[u8], words: &[i64]) -> Result<(), NoMemory>
    ensures { OnOk result (text.new.items ≡ text.old.items ++ (state_line (named (name.now, words.now)) ++ 10 ∷ [])) }
{
    text.extend_from_slice(b"state ")?;
    text.extend_from_slice(name)?;
    put_words(text, words)?;
    text.push(b'\n')?;
    Ok(())
}

/// Appends the lines of all states of a run to a text, each with the name of its instance.
fn put_states(text: &mut Vec<u8>, instances: &[Instance], run: &Run) -> Result<(), NoMemory>
    requires { length instances.now ≡ length run.now.plan.run.members }
    ensures { OnOk result (text.new.items ≡ text.old.items ++ ended (map state_line (states_of instances.now run.now.stand.at.states))) }
{
    // Called for its clauses, which state the invariant of a run.
    let _ = run.phase();
    for (place, instance) in instances.iter().enumerate() {
        put_state(text, instance.name.as_slice(), run.state(place as u32))?;
    }
    Ok(())
}

/// Appends the saved text of the present position of a run of the plan to a text.
fn put_stand(alloc: Global, plan: &Plan, run: &Run, text: &mut Vec<u8>) -> Result<(), NoMemory>
    requires { run.now.plan ≡ plan.now }
    ensures { OnOk result (text.new.items ≡ text.old.items ++ saved_text plan.now.system run.now.stand.at) }
{
    let system = plan.checked().source();
    // Called for its clauses, which state that the system is judged.
    let _ = plan.checked().system();
    put_point(text, run.number(), run.point())?;
    put_states(text, system.instances.as_slice(), run)?;
    print_system(alloc, system, text)
}

/// Appends the saved text of the position with this number in the plan's trace. The position may be the last one, without a row,
/// where an output faults there.
///
/// # Errors
///
/// [`SaveFault::NoRow`] exactly where the trace has no position with this number. The call may fail for lack of memory at any
/// time. After a failure `out` is as before.
pub fn save_text(
    alloc: Global,
    plan: &Arc<Plan>,
    row: u64,
    out: &mut Vec<u8>,
) -> Result<(), SaveFault>
    ensures put { OnOk result (PutsPosition plan.now.value row out.old.items out.new.items) }
    ensures no_row { result ≡ Err SaveFault.NoRow → HasNoPosition plan.now.value.run row }
    ensures kept { OnErr result (out.new.items ≡ out.old.items) }
{
    let shared = Arc::clone(plan)?;
    let mut run = Run::open(alloc, shared)?;
    if !go_on(&mut run, plan.instances(), row) {
        return Err(SaveFault::NoRow);
    }
    let mut text = Vec::new(alloc);
    put_stand(alloc, plan, &run, &mut text)?;
    out.extend_from_slice(text.as_slice())?;
    Ok(())
}
