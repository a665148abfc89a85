//! Ports solved one by one, for a caller that gets words of some outputs from elsewhere.
ghost use Rattle.std.specs.Prelude.{◌≡◌, ◌<◌, ℤ, List, [], length, slice_get, slice_set, Some, IfSome};
ghost use Rattle.port_solve.specs.Solved.{HaveStates, HaveInputs, HaveTheirWords, with_words, all_with, ports_told, given_there};
ghost use Rattle.port_solve.specs.Sound.{IsWordOf};
ghost use Rattle.unit_tree.specs.Compositions.{run_of};
ghost use Rattle.unit_tree.specs.Ports.{Ports};
ghost use Rattle.unit_tree.specs.Routes.{IsOrderOf};

use crate::inputs::{set_all, set_words};
use crate::outputs::outcome;
use fixed_words::Fault;
use unit_tree::{Checked, Gets, Order};

/// Sets each input without a connection to its start word, and no other input. The inputs then have their words as far as
/// they are defined while no output is known.
pub fn set_starts<G: Gets>(order: &Order, checked: &Checked, gets: &mut G)
    requires order { IsOrderOf (run_of checked.now) order.now }
    requires system { G.system gets.old ≡ checked.now }
    requires inputs { HaveInputs (run_of checked.now) (G.inputs gets.old) }
    ensures set { G.inputs gets.new ≡ with_words (G.inputs gets.old) order.now.routes.starts }
    ensures words { HaveTheirWords (run_of checked.now) [] (G.inputs gets.new) }
    ensures inputs { HaveInputs (run_of checked.now) (G.inputs gets.new) }
    ensures states { G.states gets.new ≡ G.states gets.old }
    ensures system { G.system gets.new ≡ G.system gets.old }
{
    // Called for its clauses, which state what holds of a judged system.
    let _ = checked.system();
    set_words(gets, order.routes().starts.as_slice());
}

/// Computes the word of the output at a place. Returns `None` where an output that it needs is not known.
///
/// `known` says for each output, by its place, whether its word is known. The result is the one that the known words
/// determine, for any words that the inputs have.
pub fn ask<G: Gets>(
    order: &Order,
    checked: &Checked,
    gets: &mut G,
    place: u32,
    known: &[bool],
) -> Option<Result<i64, Fault>>
    requires order { IsOrderOf (run_of checked.now) order.now }
    requires system { G.system gets.old ≡ checked.now }
    requires states { HaveStates (run_of checked.now) (G.states gets.old) }
    requires inputs { HaveInputs (run_of checked.now) (G.inputs gets.old) }
    requires place { place < length order.now.routes.outputs }
    ensures given { (words : List ℤ) → length words ≡ length known.now → HaveTheirWords (run_of checked.now) (ports_told known.now words) (G.inputs gets.old)
        → result ≡ given_there (run_of checked.now) (G.states gets.old) (ports_told known.now words) place }
    ensures inputs { G.inputs gets.new ≡ G.inputs gets.old }
    ensures states { G.states gets.new ≡ G.states gets.old }
    ensures system { G.system gets.new ≡ G.system gets.old }
{
    // Called for its clauses, which state what holds of a judged system.
    let _ = checked.system();
    outcome(
        gets,
        &order.routes().outputs.as_slice()[place as usize],
        known,
    )
}

/// Accepts a word of the output at a place: sets the inputs that the output feeds to it, and no others. Where the inputs had
/// the words for some known ports, they now have those for these ports and this one.
pub fn feed<G: Gets>(order: &Order, checked: &Checked, gets: &mut G, place: u32, word: i64)
    requires order { IsOrderOf (run_of checked.now) order.now }
    requires system { G.system gets.old ≡ checked.now }
    requires inputs { HaveInputs (run_of checked.now) (G.inputs gets.old) }
    requires place { place < length order.now.routes.outputs }
    requires word { IsWordOf (run_of checked.now) place word }
    ensures set { IfSome (slice_get order.now.routes.outputs place) (λ route. G.inputs gets.new ≡ with_words (G.inputs gets.old) (all_with word route.feeds)) }
    ensures words { (ports : Ports) → HaveTheirWords (run_of checked.now) ports (G.inputs gets.old) → HaveTheirWords (run_of checked.now) (slice_set ports place (Some word)) (G.inputs gets.new) }
    ensures inputs { HaveInputs (run_of checked.now) (G.inputs gets.new) }
    ensures states { G.states gets.new ≡ G.states gets.old }
    ensures system { G.system gets.new ≡ G.system gets.old }
{
    // Called for its clauses, which state what holds of a judged system.
    let _ = checked.system();
    let route = &order.routes().outputs.as_slice()[place as usize];
    set_all(gets, route.feeds.as_slice(), word);
}
