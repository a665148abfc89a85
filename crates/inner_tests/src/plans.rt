//! A system that has no plan, and a position that is saved after other bytes.
use save_point::save_text;
use std::alloc::Global;
use std::test::Fail;
use test_plans::{perhaps_plan, plan_of};
use trace_plan::PlanFault;

/// Two outputs that depend on each other.
const CYCLE: &str =
    "cosim 1\nunit A\noutput x : Int64 = 1\nend\nunit B\ninput u : Int64 = 0\noutput y : Int64 needs u = u + 1\nend\ninstance a : A\nend\ninstance b : B\nend\ninstance c : B\nend\nconnect b.y -> c.u\nconnect c.y -> b.u\nstop 1\n";

/// A unit that counts.
const COUNTER: &str =
    "cosim 1\nunit Counter\n  state n : Int64 = 0\n  output y : Int64 = n\n  step\n    n := n + 1\n  end\nend\ninstance a : Counter\nend\nstop 3\nlongest 1\n";

#[test]
fn outputs_that_depend_on_each_other_have_no_plan(rt: HostRuntime) -> Result<(), Fail> {
    let fault = perhaps_plan(rt.alloc(), CYCLE)?.err();
    let first = PlanFault::Loop {
        instance: 1,
        output: 0,
    };
    assert_eq!(rt; fault, Some(first));
    Ok(())
}

/// Returns these bytes with the saved text of a position after them.
fn saved_after(alloc: Global, bytes: &[u8]) -> Result<Vec<u8>, Fail> {
    let plan = plan_of(alloc, COUNTER)?;
    let mut out = bytes.to_vec(alloc)?;
    save_text(alloc, &plan, 1, &mut out)?;
    Ok(out)
}

#[test]
fn a_saved_text_comes_after_what_is_there(rt: HostRuntime) -> Result<(), Fail> {
    let alone = saved_after(rt.alloc(), b"")?;
    let after = saved_after(rt.alloc(), b"before\n")?;
    assert!(rt; alone.as_slice().starts_with(b"saved 1\nrow 1\n"));
    assert_eq!(rt;
        after.as_slice().strip_prefix(b"before\n".as_slice()),
        Some(alone.as_slice())
    );
    Ok(())
}
