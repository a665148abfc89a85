//! A wait in vain.

use cosim_io::NullSink;
use std::cell::Cell;
use std::test::Fail;
use test_plans::plan_of;
use work_crew::{Gate, Policy, run_crew};

/// Counts how many times it is called, and keeps the last turn.
#[derive(Drop)]
struct Counts {
    asked: Cell<u64>,
    last: Cell<u64>,
}

impl Gate for Counts {
    fn again(&self, _row: u64, _instance: u32, turn: u64) -> bool {
        self.asked.set(self.asked.get().wrapping_add(1));
        self.last.set(turn);
        true
    }
}

/// It makes one step.
const ONE_STEP: &str =
    "cosim 1\nunit Counter\nstate n : Int64 = 0\noutput y : Int64 = n\nstep\nn := n + 1\nend\nend\ninstance a : Counter\nend\nstop 1\nlongest 1\n";

/// Without workers nobody answers. The run looks 20,000,000 times for the step, and then makes it.
#[test]
fn a_wait_in_vain_ends(rt: HostRuntime) -> Result<(), Fail> {
    let alloc = rt.alloc();
    let plan = plan_of(alloc, ONE_STEP)?;
    let gate = Counts {
        asked: Cell::new(0),
        last: Cell::new(0),
    };
    let report = run_crew(rt, alloc, plan, 0, 4, Policy::Hold, &mut NullSink, &gate)?;
    let (asked, last) = (gate.asked.get(), gate.last.get());
    assert_eq!(rt; (report.found, report.own), (0, 1));
    assert_eq!(rt; (asked, last), (20_000_000, 19_999_999));
    Ok(())
}
