//! The ports at a stand, and the phase that follows from it.
ghost use Rattle.std.specs.Prelude.{◌≡◌, ◌≤◌, ◌<◌, true, is_none, length};
ghost use Rattle.std.specs.List.{list_all};
ghost use Rattle.port_solve.specs.Solved.{ports_told};
ghost use Rattle.trace_core.specs.Arriving.{ended_or, phase_there, AreBegunIn};
ghost use Rattle.trace_core.specs.Seats.{AreAsLong};
ghost use Rattle.unit_tree.specs.Negotiation.{all_inputs};
ghost use Rattle.unit_tree.specs.Ports.{IsAssignment, port_fault};
ghost use Rattle.unit_tree.specs.Routes.{routes_of};

use crate::phase::Phase;
use crate::seat::Seat;
use crate::steps::{ask_limits, begin_all};
use port_solve::solve;
use trace_plan::Plan;
use trace_units::Units;
use unit_tree::{Ending, Place, Point};

/// Computes all outputs for the states of the units, and sets their inputs. Returns the port fault, where there is one.
pub(crate) fn solve_ports(
    plan: &Plan,
    units: &mut Units,
    ports: &mut [i64],
    known: &mut [bool],
) -> Option<Ending>
    requires tied { units.old.plan ≡ plan.now }
    requires ports { length ports.old ≡ length (routes_of plan.now.run).outputs }
    requires known { length known.old ≡ length (routes_of plan.now.run).outputs }
    ensures right { IsAssignment plan.now.run units.old.states (ports_told known.new ports.new) }
    ensures fault { result ≡ port_fault plan.now.run units.old.states (ports_told known.new ports.new) }
    ensures known { is_none result ≡ true → list_all (λ told. told) known.new ≡ true }
    ensures inputs { is_none result ≡ true → units.new.inputs ≡ all_inputs plan.now.run (ports_told known.new ports.new) }
    ensures states { units.new.states ≡ units.old.states }
    ensures as_long { AreAsLong units.old.inputs units.new.inputs }
    ensures as_many_ports { length ports.new ≡ length ports.old }
    ensures as_many_known { length known.new ≡ length known.old }
    ensures plan { units.new.plan ≡ units.old.plan }
{
    let _ = units.count();
    let solved = solve(plan.order(), plan.checked(), units, ports, known);
    // Called for its clauses, which state the shape of the units, before and after.
    let _ = units.count();
    match solved {
        Ok(()) => None,
        Err(fault) => Some(Ending::UnitFault {
            instance: fault.instance,
            place: Place::Output(fault.output),
            fault: fault.fault,
        }),
    }
}

/// Returns the phase at a stand: the end by its port fault or another end, or the trial of the proposed step. For a trial it
/// prepares the seats.
pub(crate) fn begin_phase(
    plan: &Plan,
    units: &mut Units,
    seats: &mut [Seat],
    point: Point,
    number: u64,
    fault: Option<Ending>,
) -> Phase
    requires tied { units.old.plan ≡ plan.now }
    requires seats { length seats.old ≡ length plan.now.run.members }
    requires stop { point.t ≤ plan.now.run.stop }
    requires rows { number < plan.now.run.row_budget }
    ensures phase { result ≡ ended_or fault (phase_there plan.now.run point number units.old.states units.old.inputs) }
    ensures begun { AreBegunIn point.t result plan.now.run.members seats.old seats.new }
    ensures kept { units.new ≡ units.old }
{
    if let Some(ending) = fault {
        return Phase::Ended(ending);
    }
    if point.t == plan.stop() {
        return Phase::Ended(Ending::Completed);
    }
    if number + 1 == plan.row_limit() {
        return Phase::Ended(Ending::RowBudget);
    }
    match ask_limits(plan, units, point.t) {
        Ok(h) => {
            begin_all(plan, seats, point.t, h);
            Phase::Trial { h }
        }
        Err(ending) => Phase::Ended(ending),
    }
}
