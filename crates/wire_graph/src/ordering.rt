ghost use Rattle.std.specs.Prelude.{◌<◌, IfOk, IfErr, length};
ghost use Rattle.unit_tree.specs.Compositions.{run_of};
ghost use Rattle.unit_tree.specs.Routes.{IsOrderOf};
ghost use Rattle.unit_tree.specs.Plain.{plain_form};
ghost use Rattle.wire_graph.specs.Faults.{IsAtPlace, IsNumbered, IsRightFault, NamesOutput};
ghost use Rattle.wire_graph.specs.Wiring.{port_with};

use crate::components::{PortKey, components};
use crate::fault::OrderFault;
use crate::routing::system_routes;
use crate::sorting::{Sorting, first_left, sort};
use fixed_words::{List, NoMemory};
use std::alloc::Global;
use unit_tree::{Checked, Order, Routes};

/// The fault of the output at a place.
fn loop_at(routes: &Routes, place: usize) -> OrderFault
    requires { place < length routes.now.outputs }
    ensures { IsAtPlace routes.now place result }
{
    let route = &routes.outputs.as_slice()[place];
    OrderFault::Loop {
        instance: route.instance,
        output: route.output,
    }
}

/// Returns an order of the outputs of a checked system, with the routes of all its ports as numbers.
///
/// [`OrderFault::Loop`] where some output is on a cycle of needs, or depends on one that is: it names the first of
/// these. [`OrderFault::NoMemory`] may be returned in any case.
///
/// Each port is looked up in a table, and each connection is visited once. So the work should grow linearly with the
/// connections, and with the outputs times the inputs and needs of one component, of which there are few. No clause
/// states this.
pub fn order(alloc: Global, checked: &Checked) -> Result<Order, OrderFault>
    ensures ordered { IfOk result (IsOrderOf (run_of checked.now)) }
    ensures fault { IfErr result (IsRightFault checked.now) }
{
    let routes = system_routes(alloc, checked.system())?;
    let Sorting { places, placed } = sort(alloc, &routes)?;
    match first_left(&placed) {
        None => Ok(Order::new(List::from_vec(places), routes, checked)),
        Some(place) => Err(loop_at(&routes, place)),
    }
}

/// The names of the output that [`OrderFault::Loop`] gives by numbers: that of its instance, and its own in the plain
/// form.
pub fn output_names(
    alloc: Global,
    checked: &Checked,
    instance: u32,
    output: u32,
) -> Result<PortKey<'_>, NoMemory>
    requires { NamesOutput (plain_form checked.now) instance output }
    ensures { IfOk result (λ names. IsNumbered (plain_form checked.now) instance output (port_with names)) }
{
    let components = components(alloc, checked.system())?;
    let component = components[instance as usize];
    let declared = &component.unit.outputs.as_slice()[output as usize];
    Ok((component.name, declared.name.as_slice()))
}
