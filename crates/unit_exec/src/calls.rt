//! A call as a run: the words of a component are written to the slots of a frame, and the code is run from an entry.
ghost use Rattle.std.specs.Prelude.{◌≡◌, ◌+◌, ◌≤◌, ◌-◌, ◌<◌, ◌^◌, ◌∷◌, [], length, take, IsSome};
ghost use Rattle.code_units.specs.Calls.{slots_with, HasWordsFor};
ghost use Rattle.unit_exec.specs.Running.{overwritten, given_word};
ghost use Rattle.unit_vm.specs.Frames.{Leaves};
ghost use Rattle.unit_vm.specs.Machine.{run_of};
ghost use Rattle.unit_vm.specs.Programs.{part_at};
ghost use Rattle.unit_vm.specs.Valid.{HasFacts};

use fixed_words::{Fault, Ty, fits};
use unit_vm::{Code, Entry, Frame, run};

/// Overwrites words by others, from a place on.
pub(crate) fn put(slots: &mut [i64], first: usize, words: &[i64])
    requires { first + length words.now ≤ length slots.old }
    ensures { slots.new ≡ overwritten slots.old first words.now }
{
    // Many units have one state or one input: these need no loop.
    if let [word] = words {
        slots[first] = *word;
        return;
    }
    for place in 0..words.len() {
        slots[first + place] = words[place];
    }
}

/// Writes the words of a call to slots: the state, the inputs, the local time and the step. The run sets the locals to 0.
fn fill(slots: &mut [i64], state: &[i64], inputs: &[i64], time: i64, step: i64)
    requires { length state.now + length inputs.now + 2 ≤ length slots.old }
    ensures { slots.new ≡ overwritten (overwritten (overwritten slots.old 0 state.now) (length state.now) inputs.now) (length slots.old - 2) (time ∷ step ∷ []) }
{
    put(slots, 0, state);
    put(slots, state.len(), inputs);
    let last = slots.len() - 2;
    put(slots, last, &[time, step]);
}

/// Runs the code from an entry on the words of a call. The frame's slots then have these words, with the locals at 0.
pub(crate) fn run_on(
    code: &Code,
    entry: Entry,
    frame: &mut Frame,
    state: &[i64],
    inputs: &[i64],
    time: u64,
    step: u64,
) -> Result<(), Fault>
    requires entry { IsSome (part_at code.now entry) }
    requires made { HasFacts code.now frame.old.facts }
    requires words { HasWordsFor code.now state.now inputs.now }
    requires time_is { time < 2 ^ 63 }
    requires step_is { step < 2 ^ 63 }
    ensures runs { Leaves (run_of code.now entry (slots_with code.now.sizes state.now inputs.now time step)) frame.old result frame.new }
    ensures facts { frame.new.facts ≡ frame.old.facts }
{
    fill(frame.slots(), state, inputs, time as i64, step as i64);
    run(code, entry, frame)
}

/// Returns the word as an output, where it is of the type, and otherwise the fault.
pub(crate) fn given(ty: Ty, word: i64) -> Result<i64, Fault>
    ensures { result ≡ given_word ty word }
{
    if fits(ty, word) {
        Ok(word)
    } else {
        Err(Fault::Range)
    }
}

/// Overwrites words by the first of some others.
pub(crate) fn take_first(into: &mut [i64], words: &[i64])
    requires { length into.old ≤ length words.now }
    ensures { into.new ≡ take (length into.old) words.now }
{
    put(into, 0, &words[..into.len()]);
}
