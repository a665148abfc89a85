//! Saving and restoring the states of all units.
ghost use Rattle.std.specs.Prelude.{◌≡◌, map};
ghost use Rattle.port_solve.specs.Solved.{HaveStates};

use snap_store::copy_words;
use trace_units::Units;

/// Copies the state of each unit into a list of the same length.
pub(crate) fn keep_states(units: &Units, states: &mut Vec<Vec<i64>>)
    requires long { HaveStates units.now.plan.run (map (λ one. one.items) states.old.items) }
    ensures states { map (λ one. one.items) states.new.items ≡ units.now.states }
{
    for instance in 0..units.count() {
        copy_words(&mut states[instance as usize], units.state(instance));
    }
}

/// Restores the state of each unit.
pub(crate) fn restore_states(units: &mut Units, states: &[Vec<i64>])
    requires long { HaveStates units.old.plan.run (map (λ one. one.items) states.now) }
    ensures units { units.new ≡ record units.old { states = map (λ one. one.items) states.now } }
{
    for instance in 0..units.count() {
        units.restore(instance, &states[instance as usize]);
    }
}
