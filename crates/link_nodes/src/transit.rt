//! Facts on their way from one node to the other.
ghost use Rattle.std.specs.List.{AllByRecursion};
ghost use Rattle.std.specs.Prelude.{◌≡◌, ◌≤◌, true, [], map, length, OnOk};
ghost use Rattle.link_laws.specs.Lengths.{is_short};
ghost use Rattle.link_nodes.specs.Rounds.{is_sent, numbered_sent};
ghost use Rattle.link_nodes.specs.ShownRows.{AreOfOtherRows};
ghost use Rattle.link_nodes.specs.Wire.{HasTypes};

use crate::spans::Span;
use crate::wire::{decode, encode};
use fixed_words::NoMemory;
use link_core::{Asked, Fact, Said, Seen};

/// A round, given by its number from 1, and the seed. Together they determine which facts are lost.
#[derive(Clone, Copy, Debug)]
pub(crate) struct Round {
    pub(crate) seed: u64,
    pub(crate) number: u64,
}

/// Returns whether a fact is one of the row and isn't lost in a round.
fn is_sent(round: Round, row: u64, place: usize, fact: Fact) -> bool
    ensures { result ≡ is_sent round.seed round.number row (place, fact) }
{
    let place = place as u64;
    fact.row() == row && (place % 4 + round.number % 4 + round.seed % 4) % 4 != 3
}

/// States that the numbers of a fact are those of its types.
fn typed(fact: Fact)
    ensures { HasTypes fact }
{
    let _ = fact;
}

/// Returns a fact as it arrives: encoded, and decoded.
fn carried(fact: Fact) -> Fact
    requires { is_short fact ≡ true }
    ensures { result ≡ fact }
{
    typed(fact);
    match decode(&encode(&fact)) {
        Some(arrived) => arrived,
        None => unreachable!(),
    }
}

/// Sends the facts of a row that aren't lost in a round, in the order of their list. Outside the span there are none of the row.
pub(crate) fn send(
    facts: &[Fact],
    span: Span,
    round: Round,
    row: u64,
    transit: &mut Vec<Fact>,
) -> Result<(), NoMemory>
    requires end { span.end ≤ length facts.now }
    requires others { AreOfOtherRows facts.now row span.first span.end }
    requires short { AllByRecursion (λ fact. is_short fact ≡ true) facts.now }
    requires empty { transit.old.items ≡ [] }
    ensures { OnOk result (transit.new.items ≡ map (λ one. one.1) (numbered_sent round.seed round.number row facts.now)) }
{
    for place in span.first..span.end {
        let fact = facts[place];
        if is_sent(round, row, place, fact) {
            transit.push(carried(fact))?;
        }
    }
    Ok(())
}
