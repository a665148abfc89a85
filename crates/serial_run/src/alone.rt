//! A run that makes all its steps itself.
ghost use Rattle.std.specs.Prelude.{◌≡◌, length};
ghost use Rattle.trace_rows.specs.Passing.{AreStepsThere};

use fixed_words::NoMemory;
use trace_core::{Run, Settle};
use trace_rows::Drive;

/// A driver that makes the steps of its run in the calling thread, one instance after the other.
#[derive(Drop)]
pub(crate) struct Alone {
    run: Run,
    /// How many instances the run has.
    instances: u32,
    ghost each: { instances ≡ length run.plan.run.members },
    ghost none_found: { run.found ≡ 0 },
}

impl Alone {
    /// Returns the driver of a run that has made no step yet.
    pub(crate) fn new(run: Run, instances: u32) -> Alone
        requires each { instances ≡ length run.plan.run.members }
        requires none_found { run.found ≡ 0 }
        ensures { result.run ≡ run }
    {
        Alone { run, instances }
    }

    /// No step of the run was made by others.
    pub(crate) fn facts(&self)
        ensures { self.now.run.found ≡ 0 }
    {
        let _ = self.instances;
    }
}

/// Makes all steps that the phase of a run requires, in the calling thread. `instances` is how many instances the run has.
pub fn step_all(run: &mut Run, instances: u32)
    requires { instances ≡ length run.old.cells }
    ensures there { AreStepsThere run.old run.new }
    ensures alone { run.new.found ≡ run.old.found }
{
    for instance in 0..instances {
        if run.is_wanted(instance) {
            run.compute(instance);
        }
    }
}

impl Drive for Alone {
    ghost state = { λ alone. alone.run };

    fn run(&self) -> &Run {
        &self.run
    }

    fn make_steps(&mut self) -> Result<(), NoMemory> {
        step_all(&mut self.run, self.instances);
        Ok(())
    }

    fn settle(&mut self) -> Settle {
        self.run.settle()
    }
}
