ghost use Rattle.std.specs.Prelude.{◌≡◌, ◌≤◌, length, IfOk};
ghost use Rattle.std.specs.Borrow.{sem};
ghost use Rattle.unit_vm.specs.Frames.{new_frame};

use crate::program::CodeFacts;
use fixed_words::NoMemory;
use std::alloc::Global;
use std::marker::Model;

/// The memory of a run: slots, space for the stacks, and the results of the last run.
#[derive(Drop)]
pub struct Frame {
    pub(crate) slots: Vec<i64>,
    pub(crate) cells: Vec<i64>,
    pub(crate) accepted: u64,
    pub(crate) result: i64,
    pub(crate) loops: Vec<u32>,
    facts: CodeFacts,
}

impl Model for Frame {
    ghost use Rattle.std.specs.Prelude.{◌≡◌, length};
    ghost use Rattle.unit_vm.specs.Frames.{Held};

    ghost Value = { Held };

    ghost view = { λ f. record { facts = f.facts; slots = f.slots.items; accepted = f.accepted; result = f.result } };

    ghost invariant = { λ f. (length f.cells.items ≡ f.facts.stack) × (length f.loops.items ≡ f.facts.loops) × (length f.slots.items ≡ f.facts.slots) };
}

impl Frame {
    ghost use Rattle.unit_vm.specs.FrameLends.{LendsSlots};

    /// Returns a frame with space for every run of code with these facts. Its slots are 0.
    pub fn new(alloc: Global, facts: CodeFacts) -> Result<Frame, NoMemory>
        ensures { IfOk result (λ frame. frame ≡ new_frame facts) }
    {
        let cells = vec![in alloc; 0i64; facts.stack as usize]?;
        let loops = vec![in alloc; 0u32; facts.loops as usize]?;
        let slots = vec![in alloc; 0i64; facts.slots as usize]?;
        Ok(Frame {
            slots,
            cells,
            accepted: 0,
            result: 0,
            loops,
            facts,
        })
    }

    /// Lends the slots: states, inputs and locals in their order, then the local time and the step.
    pub fn slots(&mut self) -> &mut [i64]
        ensures* writes_back { sem 𝓛 (LendsSlots self.entry result) }
        ensures value { result.now ≡ self.old.slots }
        ensures each { length self.old.slots ≡ self.old.facts.slots }
    {
        self.slots.as_mut_slice()
    }

    /// Returns the length that the last run accepted, if it met no fault.
    pub fn accepted(&self) -> u64
        ensures { result ≡ self.now.accepted }
    {
        self.accepted
    }

    /// Returns the result of the last run that had one, if no run met a fault since.
    pub fn result(&self) -> i64
        ensures { result ≡ self.now.result }
    {
        self.result
    }
}
