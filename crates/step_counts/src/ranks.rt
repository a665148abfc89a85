//! The order of the instances in a summary.
ghost use Rattle.std.specs.Prelude.{◌≡◌};
ghost use Rattle.std.specs.Option.{option_copied};
ghost use Rattle.step_counts.specs.Ranks.{at_rank, comes_before, faults_of, rank_of};

use crate::counts::InstanceCounts;

/// Returns how many faults an instance has. `faulted` is the instance that ended the run by its fault, if one did.
pub(crate) fn faults_of(faulted: Option<u32>, instance: usize) -> u64
    ensures { result ≡ faults_of faulted instance }
{
    match faulted {
        Some(other) if other as usize == instance => 1,
        _ => 0,
    }
}

/// Returns whether an instance is to be looked at before another one.
fn comes_before(faulted: Option<u32>, one: InstanceCounts, other: InstanceCounts) -> bool
    ensures { result ≡ comes_before faulted one other }
{
    let faults = faults_of(faulted, one.instance);
    let others = faults_of(faulted, other.instance);
    if faults != others {
        return faults > others;
    }
    if one.shortened != other.shortened {
        return one.shortened > other.shortened;
    }
    if one.limited != other.limited {
        return one.limited > other.limited;
    }
    one.instance < other.instance
}

/// Returns the rank of an instance: how many instances come before it.
fn rank(faulted: Option<u32>, instances: &[InstanceCounts], one: InstanceCounts) -> usize
    ensures { result ≡ rank_of faulted instances.now one }
{
    instances
        .iter()
        .filter(|other| comes_before(faulted, **other, one))
        .count()
}

/// Returns the instance of a rank, if there is one.
pub(crate) fn at_rank(
    faulted: Option<u32>,
    instances: &[InstanceCounts],
    number: usize,
) -> Option<&InstanceCounts>
    ensures { option_copied result ≡ at_rank faulted instances.now number }
{
    instances
        .iter()
        .find(|one| rank(faulted, instances, **one) == number)
}
