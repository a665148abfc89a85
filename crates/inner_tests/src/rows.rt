//! A row that is written alone, and the sum of the words of all rows.
use cosim_io::NullSink;
use serial_run::run_alone;
use std::test::Fail;
use test_plans::plan_of;
use trace_csv::row_text;
use unit_tree::Point;

/// A truth value, an event only at the second row, and an output that is not a column.
const TRUTHS: &str =
    "cosim 2\nunit A\nstate n : Int64 = 0\noutput even : Bool = n mod 2 == 0\nevent output e : Int64 = if n == 1 then -5 else absent\noutput y : Int64 = n + 100\nstep\nn := n + h\nend\nend\ninstance a : A\nend\nstop 2\nlongest 1\nsample a.e\nsample a.even\n";

#[test]
fn a_row_comes_in_the_place_of_what_is_there(rt: HostRuntime) -> Result<(), Fail> {
    let mut out = b"what was there".to_vec(rt.alloc())?;
    row_text(rt.alloc(), 1, Point { t: 15, n: 1 }, &[], &[], &mut out)?;
    assert_eq!(rt; out.as_slice(), b"1.5,1\n".as_slice());
    Ok(())
}

/// `bench` alone prints a sum, and its systems have no events.
#[test]
fn an_event_that_is_absent_adds_nothing(rt: HostRuntime) -> Result<(), Fail> {
    let plan = plan_of(rt.alloc(), TRUTHS)?;
    let report = run_alone(rt.alloc(), plan, &mut NullSink)?;
    assert_eq!(rt; report.sum, -3);
    Ok(())
}
