ghost use Rattle.std.specs.Prelude.{◌≡◌, ◌<◌, [], true, length, slice_get, OnOk, Some, None, IfSome};
ghost use Rattle.std.specs.List.{list_all};
ghost use Rattle.port_solve.specs.Solved.{HaveStates, HaveInputs, HaveTheirWords, ports_told, ending_told};
ghost use Rattle.port_solve.specs.Sound.{IsSound};
ghost use Rattle.port_solve.specs.Steps.{IsFirst};
ghost use Rattle.unit_tree.specs.Compositions.{run_of};
ghost use Rattle.unit_tree.specs.Negotiation.{all_inputs};
ghost use Rattle.unit_tree.specs.Ports.{IsAssignment, port_fault};
ghost use Rattle.unit_tree.specs.Routes.{IsOrderOf};

use crate::one_by_one::set_starts;
use crate::outputs::{Faulted, note, work_out};
use fixed_words::Fault;
use unit_tree::{Checked, Gets, Order, Routes};

/// The fault of an output, which is given by the number of its instance and its number in the instance. Both count from 0
/// in the plain form of the system, in which an event output is two outputs.
#[derive(Clone, Copy, Debug, PartialEq, Eq)]
pub struct PortFault {
    pub instance: u32,
    pub output: u32,
    pub fault: Fault,
}

/// Computes all outputs in their order. Returns the first fault by place, where there is one.
fn work_out_all<G: Gets>(
    gets: &mut G,
    order: &Order,
    ports: &mut [i64],
    known: &mut [bool],
) -> Option<Faulted>
    requires sound { IsSound (run_of (G.system gets.old)) }
    requires order { IsOrderOf (run_of (G.system gets.old)) order.now }
    requires states { HaveStates (run_of (G.system gets.old)) (G.states gets.old) }
    requires inputs { HaveInputs (run_of (G.system gets.old)) (G.inputs gets.old) }
    requires starts { HaveTheirWords (run_of (G.system gets.old)) [] (G.inputs gets.old) }
    requires ports { length ports.old ≡ length order.now.routes.outputs }
    requires known { length known.old ≡ length order.now.routes.outputs }
    ensures right { IsAssignment (run_of (G.system gets.old)) (G.states gets.old) (ports_told known.new ports.new) }
    ensures first { IsFirst (run_of (G.system gets.old)) (G.states gets.old) (ports_told known.new ports.new) order.now.places result }
    ensures words { HaveTheirWords (run_of (G.system gets.old)) (ports_told known.new ports.new) (G.inputs gets.new) }
    ensures inputs { HaveInputs (run_of (G.system gets.old)) (G.inputs gets.new) }
    ensures states { G.states gets.new ≡ G.states gets.old }
    ensures system { G.system gets.new ≡ G.system gets.old }
{
    let routes = order.routes().outputs.as_slice();
    let mut first = None;
    for place in order.places() {
        let fault = work_out(gets, &routes[*place as usize], *place, ports, known);
        note(&mut first, *place, fault);
    }
    first
}

/// Returns the fault of the output at a place.
fn fault_at(routes: &Routes, faulted: Faulted) -> PortFault
    requires { faulted.place < length routes.now.outputs }
    ensures { IfSome (slice_get routes.now.outputs faulted.place) (λ route.
        result ≡ record { instance = route.instance; output = route.output; fault = faulted.fault }) }
{
    let route = &routes.outputs.as_slice()[faulted.place as usize];
    PortFault {
        instance: route.instance,
        output: route.output,
        fault: faulted.fault,
    }
}

/// Solves the ports of a system for the states of its components. Computes each output once, in the order. Sets each input
/// whose word is defined; an input without a connection gets its start word.
///
/// `ports` and `known` have one element for each output. The call writes to `known` whether the output is defined and, where
/// it is, its word to `ports`. It fails with [`PortFault`] where some output is undefined: the fault of the first output, by
/// instance and then by declaration, that faults while all that it needs is defined.
pub fn solve<G: Gets>(
    order: &Order,
    checked: &Checked,
    gets: &mut G,
    ports: &mut [i64],
    known: &mut [bool],
) -> Result<(), PortFault>
    requires order { IsOrderOf (run_of checked.now) order.now }
    requires system { G.system gets.old ≡ checked.now }
    requires states { HaveStates (run_of checked.now) (G.states gets.old) }
    requires inputs { HaveInputs (run_of checked.now) (G.inputs gets.old) }
    requires ports { length ports.old ≡ length order.now.routes.outputs }
    requires known { length known.old ≡ length order.now.routes.outputs }
    ensures right { IsAssignment (run_of checked.now) (G.states gets.old) (ports_told known.new ports.new) }
    ensures fault { port_fault (run_of checked.now) (G.states gets.old) (ports_told known.new ports.new) ≡ ending_told result }
    ensures known { OnOk result (list_all (λ told. told) known.new ≡ true) }
    ensures solved { OnOk result (G.inputs gets.new ≡ all_inputs (run_of checked.now) (ports_told known.new ports.new)) }
    ensures words { HaveTheirWords (run_of checked.now) (ports_told known.new ports.new) (G.inputs gets.new) }
    ensures inputs { HaveInputs (run_of checked.now) (G.inputs gets.new) }
    ensures states { G.states gets.new ≡ G.states gets.old }
    ensures system { G.system gets.new ≡ G.system gets.old }
{
    // Called for its clauses, which state what holds of a judged system.
    let _ = checked.system();
    set_starts(order, checked, gets);
    match work_out_all(gets, order, ports, known) {
        None => Ok(()),
        Some(faulted) => Err(fault_at(order.routes(), faulted)),
    }
}
