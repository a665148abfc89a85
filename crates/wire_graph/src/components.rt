ghost use Rattle.std.specs.Prelude.{◌≡◌, ◌++◌, IfOk, OnOk, map};
ghost use Rattle.wire_graph.specs.Wiring.{named_of, port_with, components_in, outputs_named, output_ports_of, targets_of};

use fixed_words::NoMemory;
use std::alloc::Global;
use unit_tree::{System, Unit, Wire};

/// A port by the names of its instance and of itself.
pub type PortKey<'a> = (&'a [u8], &'a [u8]);

/// An instance that is run: its name and its unit.
#[derive(Clone, Copy)]
pub(crate) struct Component<'a> {
    pub(crate) name: &'a [u8],
    pub(crate) unit: &'a Unit,
}

/// The instances that are run, in their order.
pub(crate) fn components<'a>(
    alloc: Global,
    system: &'a System,
) -> Result<Vec<Component<'a>>, NoMemory>
    ensures { IfOk result (λ components. map named_of components.items ≡ components_in system.now) }
{
    let mut components = Vec::new(alloc);
    for instance in system.instances.as_slice() {
        if let Some(unit) = system.unit_of(instance) {
            components.push(Component {
                name: instance.name.as_slice(),
                unit,
            })?;
        }
    }
    Ok(components)
}

/// Adds the outputs of one component.
fn add_outputs<'a>(component: Component<'a>, ports: &mut Vec<PortKey<'a>>) -> Result<(), NoMemory>
    ensures { OnOk result (map port_with ports.new.items ≡ map port_with ports.old.items ++ output_ports_of (named_of component.entry)) }
{
    for output in component.unit.outputs.as_slice() {
        ports.push((component.name, output.name.as_slice()))?;
    }
    Ok(())
}

/// All outputs, by component and then by declaration.
pub(crate) fn output_keys<'a>(
    alloc: Global,
    components: &[Component<'a>],
) -> Result<Vec<PortKey<'a>>, NoMemory>
    ensures { IfOk result (λ ports. map port_with ports.items ≡ outputs_named (map named_of components.now)) }
{
    let mut ports = Vec::new(alloc);
    for component in components {
        add_outputs(*component, &mut ports)?;
    }
    Ok(ports)
}

/// The input at which each connection ends.
pub(crate) fn target_keys<'a>(
    alloc: Global,
    wires: &'a [Wire],
) -> Result<Vec<PortKey<'a>>, NoMemory>
    ensures { IfOk result (λ ports. map port_with ports.items ≡ targets_of wires.now) }
{
    let mut ports = Vec::with_capacity(alloc, wires.len())?;
    for wire in wires {
        ports.push((wire.to.instance.as_slice(), wire.to.port.as_slice()))?;
    }
    Ok(ports)
}
