ghost use Rattle.std.specs.Prelude.{◌≡◌, ◌<◌, false, length, slice_index_or, slice_set, IsSome};
ghost use Rattle.std.specs.List.{list_all};
ghost use Rattle.port_solve.specs.Solved.{ports_told, with_words};
ghost use Rattle.port_solve.specs.Steps.{set_from, asked, word_asked, fault_asked, FitsFeeds, noted};
ghost use Rattle.unit_tree.specs.Compositions.{run_of};
ghost use Rattle.unit_tree.specs.Given.{given_by};

use crate::inputs::set_all;
use fixed_words::Fault;
use unit_tree::{Gets, Route};

/// A fault of an output, which is given by its place.
#[derive(Clone, Copy)]
pub(crate) struct Faulted {
    pub(crate) place: u32,
    pub(crate) fault: Fault,
}

/// Returns whether the output at a place is known.
fn is_known(known: &[bool], place: u32) -> bool
    ensures { result ≡ slice_index_or known.now place false }
{
    match known.get(place as usize) {
        Some(told) => *told,
        None => false,
    }
}

/// Returns whether all of some outputs are known.
fn are_known(known: &[bool], places: &[u32]) -> bool
    ensures { result ≡ list_all (λ place. slice_index_or known.now place false) places.now }
{
    places.iter().all(|place| is_known(known, *place))
}

/// Computes an output: its word or its fault. `None` where an output that it needs is not known.
#[inline]
pub(crate) fn outcome<G: Gets>(
    gets: &mut G,
    route: &Route,
    known: &[bool],
) -> Option<Result<i64, Fault>>
    requires { IsSome (given_by (run_of (G.system gets.old)) (G.states gets.old) (G.inputs gets.old) route.now.instance route.now.output) }
    ensures outcome { result ≡ asked (run_of (G.system gets.old)) (G.states gets.old) (G.inputs gets.old) known.now route.now }
    ensures inputs { G.inputs gets.new ≡ G.inputs gets.old }
    ensures states { G.states gets.new ≡ G.states gets.old }
    ensures system { G.system gets.new ≡ G.system gets.old }
{
    if are_known(known, route.needs.as_slice()) {
        Some(gets.get(route.instance, route.output))
    } else {
        None
    }
}

/// Computes the output at a place, and sets the inputs that it feeds. Returns its fault, where it has one.
pub(crate) fn work_out<G: Gets>(
    gets: &mut G,
    route: &Route,
    place: u32,
    ports: &mut [i64],
    known: &mut [bool],
) -> Option<Fault>
    requires there { IsSome (given_by (run_of (G.system gets.old)) (G.states gets.old) (G.inputs gets.old) route.now.instance route.now.output) }
    requires fits { FitsFeeds (run_of (G.system gets.old)) route.now.feeds
        (word_asked (run_of (G.system gets.old)) (G.states gets.old) (G.inputs gets.old) known.old route.now) }
    requires place { place < length ports.old }
    requires same_length { length known.old ≡ length ports.old }
    ensures told { ports_told known.new ports.new ≡ slice_set (ports_told known.old ports.old) place
        (word_asked (run_of (G.system gets.old)) (G.states gets.old) (G.inputs gets.old) known.old route.now) }
    ensures fault { result ≡ fault_asked (run_of (G.system gets.old)) (G.states gets.old) (G.inputs gets.old) known.old route.now }
    ensures inputs { G.inputs gets.new ≡ with_words (G.inputs gets.old)
        (set_from (word_asked (run_of (G.system gets.old)) (G.states gets.old) (G.inputs gets.old) known.old route.now) route.now.feeds) }
    ensures states { G.states gets.new ≡ G.states gets.old }
    ensures system { G.system gets.new ≡ G.system gets.old }
{
    match outcome(gets, route, known) {
        Some(Ok(word)) => {
            ports[place as usize] = word;
            known[place as usize] = true;
            set_all(gets, route.feeds.as_slice(), word);
            None
        }
        Some(Err(fault)) => {
            known[place as usize] = false;
            Some(fault)
        }
        None => {
            known[place as usize] = false;
            None
        }
    }
}

/// Records a fault, where there is one: `first` is then the first fault by place.
pub(crate) fn note(first: &mut Option<Faulted>, place: u32, fault: Option<Fault>)
    ensures { first.new ≡ noted first.old place fault }
{
    let Some(fault) = fault else {
        return;
    };
    match first {
        Some(other) if other.place < place => {}
        _ => *first = Some(Faulted { place, fault }),
    }
}
