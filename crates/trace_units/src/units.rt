ghost use Rattle.std.specs.Prelude.{◌≡◌, ◌≤◌, ◌<◌, ◌+◌, ◌^◌, length, slice_get, slice_index_or, [], Some, IfOk};
ghost use Rattle.port_solve.specs.Solved.{HaveStates, HaveInputs};
ghost use Rattle.trace_units.specs.Fleets.{ForUnit, Steps, start_inputs, with_state};
ghost use Rattle.unit_tree.specs.Components.{max_of};
ghost use Rattle.unit_tree.specs.Compositions.{run_of};
ghost use Rattle.unit_tree.specs.Successor.{first_position};

use fixed_words::{Fault, NoMemory};
use std::alloc::Global;
use std::marker::Model;
use std::sync::Arc;
use trace_plan::Plan;
use unit_exec::Unit;
use unit_tree::Gets;

/// A unit for each instance of a plan. Instances are given by their numbers from 0; each call needs the number of one.
#[derive(Drop)]
pub struct Units {
    plan: Arc<Plan>,
    list: Vec<Unit>,
}

impl Model for Units {
    ghost use Rattle.std.specs.Coded.{codes};
    ghost use Rattle.trace_units.specs.Fleets.{Fleet};
    ghost use Rattle.unit_tree.specs.contracts.expr.Expr as expr;
    ghost use Rattle.unit_tree.specs.contracts.line.Line as line;

    ghost Value = { Fleet };

    ghost coded = { Prim.hlevel (codes, expr.the_row.coded, line.the_row.coded) };

    ghost use Rattle.trace_units.specs.Members.{fleet, AreUnits};

    ghost view = { fleet };

    ghost invariant = { AreUnits };
}

impl Gets for Units {
    ghost system = { λ units. units.plan.system };

    ghost states = { λ units. units.states };

    ghost inputs = { λ units. units.inputs };

    fn set(&mut self, instance: u32, input: u32, word: i64) {
        self.list[instance as usize].set(input, word);
    }

    fn get(&mut self, instance: u32, output: u32) -> Result<i64, Fault> {
        self.list[instance as usize].get(output)
    }
}

impl Units {
    /// Returns the units of a plan at their start: with the start words of their states and inputs.
    pub fn new(alloc: Global, plan: Arc<Plan>) -> Result<Units, NoMemory>
        ensures plan { IfOk result (λ units. units.plan ≡ plan.value) }
        ensures states { IfOk result (λ units. units.states ≡ (first_position plan.value.run).states) }
        ensures inputs { IfOk result (λ units. units.inputs ≡ start_inputs plan.value.run) }
    {
        // The clause of this call says that the plan's run is that of the plain form of its system.
        let _checked = plan.checked();
        let mut list = Vec::new(alloc);
        for instance in 0..plan.instances() {
            let image = Arc::clone(plan.image(instance))?;
            list.push(Unit::new(alloc, image)?)?;
        }
        Ok(Units { plan, list })
    }

    /// Returns how many units there are: one for each member, with a word for each of its states and inputs.
    pub fn count(&self) -> u32
        ensures count { result ≡ length self.now.plan.run.members }
        ensures run { self.now.plan.run ≡ run_of self.now.plan.system }
        ensures states { HaveStates self.now.plan.run self.now.states }
        ensures inputs { HaveInputs self.now.plan.run self.now.inputs }
    {
        self.plan.instances()
    }

    /// Returns the state of an instance.
    pub fn state(&self, instance: u32) -> &[i64]
        requires { instance < length self.now.plan.run.members }
        ensures { slice_get self.now.states instance ≡ Some result.now }
    {
        self.list[instance as usize].state()
    }

    /// Returns the words of an instance's inputs.
    pub fn inputs(&self, instance: u32) -> &[i64]
        requires { instance < length self.now.plan.run.members }
        ensures { slice_get self.now.inputs instance ≡ Some result.now }
    {
        self.list[instance as usize].inputs()
    }

    /// Returns the limit of an instance at its local time `time`, in its local ticks, or `None` where it sets no limit. All units
    /// stay as they are.
    pub fn max_step(&mut self, instance: u32, time: u64) -> Result<Option<u64>, Fault>
        requires there { instance < length self.old.plan.run.members }
        requires time { time ≤ 10 ^ 15 }
        ensures gives { ForUnit self.old instance (λ member state inputs. max_of member.component state inputs time ≡ result) }
        ensures kept { self.new ≡ self.old }
    {
        self.list[instance as usize].max_step(time)
    }

    /// Steps an instance from its local time `time` by `step` of its local ticks. Returns the length that it accepted, in its local
    /// ticks. The other units stay as they are; after a fault all of them do.
    pub fn do_step(&mut self, instance: u32, time: u64, step: u64) -> Result<u64, Fault>
        requires there { instance < length self.old.plan.run.members }
        requires end { time + step ≤ 10 ^ 15 }
        ensures { Steps self.old instance time step result self.new }
    {
        self.list[instance as usize].do_step(time, step)
    }

    /// Sets the state of an instance.
    pub fn restore(&mut self, instance: u32, state: &[i64])
        requires there { instance < length self.old.plan.run.members }
        requires same_length { length state.now ≡ length (slice_index_or self.old.states instance []) }
        ensures { self.new ≡ with_state self.old instance state.now }
    {
        self.list[instance as usize].restore(state);
    }
}
