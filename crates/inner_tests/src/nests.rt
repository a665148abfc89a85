//! A nest that is kept when it is made flat, or when it is refused.
use nest_text::{NestFault, read_nest};
use std::alloc::Global;
use std::test::Fail;
use sub_flat::flatten;

/// Two ways through two groups to one input.
const TWO_WAYS: &[u8] =
    b"group H\ninstance d : D\nend\nin u -> d.u\nin w -> d.u\nout p = d.p\ngroup G\ninstance k : H\nend\nin v -> k.u\nin v -> k.w\nout y = k.p\nmain\ncosim 1\nunit A\noutput y : Int32 = 1\nend\nunit D\ninput u : Int32 = 0\ninput w : Int32 = 0\noutput p : Int32 = 2\nend\ninstance a : A\nend\nstop 3\ninstance g : G\nend\nconnect a.y -> g.v\nsample g.y\n";

/// Returns how many instances and connections the flat system of a nest has.
fn counts_of(alloc: Global, text: &[u8]) -> Result<(usize, usize), NestFault> {
    let nest = read_nest(alloc, text)?;
    let flat = if nest.lines.len() == nest.groups.len() {
        flatten(alloc, &nest)
    } else {
        Err(NestFault::NoMemory)
    };
    drop(nest);
    let system = flat?;
    let counts = (system.instances.len(), system.wires.len());
    drop(system);
    Ok(counts)
}

#[test]
fn two_ways_to_one_input_are_one_connection(rt: HostRuntime) -> Result<(), Fail> {
    assert_eq!(rt; counts_of(rt.alloc(), TWO_WAYS)?, (2, 1));
    Ok(())
}

/// Two groups with instances of each other, and a group around one of them.
const GROUPS_IN_EACH_OTHER: &[u8] =
    b"group O\ninstance i : G\nend\ngroup G\ninstance c : H\nend\nout x = c.y\ngroup H\ninstance b : G\nend\nout y = b.x\nmain\ncosim 1\nunit Counter\nstate n : Int64 = 0\noutput y : Int64 = n\nend\ninstance g : O\nend\nstop 3\n";

#[test]
fn groups_in_each_other_are_refused_at_the_first(rt: HostRuntime) -> Result<(), Fail> {
    let fault = NestFault::Line { line: 4, rule: 28 };
    assert_eq!(rt; counts_of(rt.alloc(), GROUPS_IN_EACH_OTHER), Err(fault));
    Ok(())
}
