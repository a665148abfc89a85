//! A run that goes on to a row by its own steps.
ghost use Rattle.std.specs.Prelude.{◌≡◌, ◌<◌, ◌≤◌, length, true, false};
ghost use Rattle.trace_core.specs.Runs.{Stands, is_ended};

use serial_run::step_all;
use trace_core::{Phase, Run};

/// Goes on until the run is at the row with this number, or has ended before it. Returns whether it is there.
///
/// At the last position an output may fault, so that it has no row. The run gets there too.
pub(crate) fn go_on(run: &mut Run, instances: u32, row: u64) -> bool
    requires instances { instances ≡ length run.old.plan.run.members }
    requires before { run.old.stand.at.number ≤ row }
    ensures plan { run.new.plan ≡ run.old.plan }
    ensures opened { run.new.opened ≡ run.old.opened }
    ensures stands { Stands run.new }
    ensures there { result ≡ true → run.new.stand.at.number ≡ row }
    ensures ended { result ≡ false → is_ended run.new.phase ≡ true }
    ensures short { result ≡ false → run.new.stand.at.number < row }
{
    while run.number() < row {
        if let Phase::Ended(_) = run.phase() {
            return false;
        }
        step_all(run, instances);
        let _ = run.settle();
    }
    // Called for its clauses, which state the invariant of a run.
    let _ = run.phase();
    true
}
