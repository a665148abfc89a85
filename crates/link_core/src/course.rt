//! The position of a node, and the row and the position that it keeps.
ghost use Rattle.std.specs.Prelude.{◌≡◌, ◌≤◌, length, vec_capacity};
ghost use Rattle.std.specs.List.{filter_map};
ghost use Rattle.link_laws.specs.Boards.{Board};
ghost use Rattle.link_core.specs.Ready.{shown_in};
ghost use Rattle.link_laws.specs.Making.{ports_in, row_shown};
ghost use Rattle.link_core.specs.Noted.{place_of};
ghost use Rattle.unit_tree.specs.Routes.{routes_of};

use crate::stage::word_fault;
use link_laws::Seen;
use super_time::Point;
use trace_plan::Plan;
use unit_tree::Ending;

/// The row that a node came to last, where there is one.
#[derive(Drop)]
pub(crate) struct Shown {
    pub(crate) there: bool,
    pub(crate) point: Point,
    pub(crate) words: Vec<i64>,
}

/// The position of a node, and how the trace ended there, where it has.
#[derive(Drop)]
pub(crate) struct NodePosition {
    pub(crate) point: Point,
    pub(crate) number: u64,
    pub(crate) ended: Option<Ending>,
    pub(crate) shown: Shown,
}

/// The saved position of a node, from which it can start again.
#[derive(Drop)]
pub(crate) struct Kept {
    pub(crate) point: Point,
    pub(crate) number: u64,
    pub(crate) states: Vec<Vec<i64>>,
}

/// Appends the known words to a list that has space for them.
fn put_known(words: &mut Vec<i64>, seen: &[Option<Seen>])
    requires { length seen.now ≤ vec_capacity words.old }
    ensures items { words.new.items ≡ filter_map (λ word. word) (ports_in seen.now) }
    ensures room { vec_capacity words.old ≤ vec_capacity words.new }
{
    words.clear();
    for place in 0..seen.len() {
        if let Some(Seen::Is(word)) = seen[place] {
            let _ = words.push(word);
        }
    }
}

/// Keeps the row at a point, whose words are all known. There is no row where an output has a fault.
pub(crate) fn show(plan: &Plan, shown: &mut Shown, point: Point, words: &[Option<Seen>])
    requires words { length words.now ≡ length (routes_of plan.now.run).outputs }
    requires room { length words.now ≤ vec_capacity shown.old.words }
    ensures shown { (known : Board) → known.words ≡ words.now → shown_in shown.new ≡ row_shown plan.now.run (place_of point) known }
    ensures room { vec_capacity shown.old.words ≤ vec_capacity shown.new.words }
{
    shown.there = word_fault(plan, words).is_none();
    shown.point = point;
    put_known(&mut shown.words, words);
}
