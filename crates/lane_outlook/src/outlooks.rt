//! What is known of an instance at the run's stand, and how its lane is published with the guesses from that.
ghost use Rattle.std.specs.Prelude.{◌≡◌, ◌<◌, ◌≤◌, length, true, false, IfErr, IfOk, OnErr, OnOk};
ghost use Rattle.guess_board.specs.Events.{is_full, published};
ghost use Rattle.guess_board.specs.Guesses.{IsOutlook, guessed_line, seen_of};
ghost use Rattle.guess_board.specs.declared.fault.LaneFault.TheVariants as fault;
ghost use Rattle.lane_outlook.specs.Outlooks.{IsSeenAt};
ghost use Rattle.trace_core.specs.Runs.{is_ended, step_length};
ghost use Rattle.model_rules.specs.Limits.{window_limit};

use guess_board::{Lane, LaneFault, Outlook, Policy, guess_line};
use std::alloc::Global;
use trace_core::{Phase, Plan, Run};

/// Returns the length of the step of a phase, in ticks.
fn step_length(phase: Phase) -> u64
    ensures { result ≡ step_length phase }
{
    match phase {
        Phase::Trial { h } | Phase::Redo { h } => h,
        Phase::Ended(_) => 0,
    }
}

/// Returns what is known of an instance at the stand of a run of the plan: the step of the phase, and the words of the inputs
/// there and at the row before. Lines are guessed from it.
pub fn outlook<'a>(plan: &'a Plan, run: &'a Run, instance: u32) -> Outlook<'a>
    requires own { run.now.plan ≡ plan.now }
    requires there { instance < length run.now.plan.run.members }
    requires going { is_ended run.now.phase ≡ false }
    ensures seen { IsSeenAt run.now instance (seen_of result) }
    ensures outlook { IsOutlook (seen_of result) }
{
    // Called for its clauses, which state how large the numbers of a run are.
    let _ = plan.instances();
    let (low, high) = plan.input_ends(instance);
    Outlook {
        row: run.number(),
        t: run.point().t,
        step: step_length(run.phase()),
        stop: plan.stop(),
        factor: plan.factor(instance),
        last: run.inputs(instance),
        before: run.before(instance),
        low,
        high,
    }
}

/// Publishes a lane with a state, and with the line that is guessed from an outlook for at most `window` rows. Returns how many
/// answers the lane kept.
///
/// # Errors
///
/// [`LaneFault::Full`] exactly where the lane is full. The lane is as before.
pub fn publish_from(
    alloc: Global,
    policy: Policy,
    window: u32,
    seen: Outlook<'_>,
    state: &[i64],
    lane: &mut Lane,
) -> Result<u32, LaneFault>
    requires window { window ≤ window_limit }
    requires outlook { IsOutlook (seen_of seen) }
    requires each_state { length state.now ≡ lane.old.image.program.sizes.states }
    requires each_input { length seen.last.now ≡ lane.old.image.program.sizes.inputs }
    ensures published { OnOk result (lane.new ≡ published lane.old seen.entry.row state.now (guessed_line policy (seen_of seen.entry) window)) }
    ensures kept { IfOk result (λ kept. kept ≡ length lane.new.answers) }
    ensures room { OnOk result (is_full lane.old ≡ false) }
    ensures full { IfErr result (λ why. why ≡ fault.Full → is_full lane.old ≡ true) }
    ensures refused { OnErr result (lane.new ≡ lane.old) }
{
    let line = guess_line(alloc, policy, window, seen)?;
    lane.publish(alloc, seen.row, state, line)
}
