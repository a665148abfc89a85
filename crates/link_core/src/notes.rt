//! What a node knows of a row, and the facts that it made.
ghost use Rattle.std.specs.Prelude.{◌≡◌, ◌≤◌, ◌<◌, ◌+◌, ◌++◌, ◌∷◌, [], true, length, map, is_none, slice_set, vec_capacity, Some, OnOk};
ghost use Rattle.link_laws.specs.Boards.{entry};
ghost use Rattle.link_core.specs.Noted.{making_in, empties, HasRoom, AreNotes, forgotten};
ghost use Rattle.unit_tree.specs.Compositions.{Composition};

use fixed_words::NoMemory;
use link_laws::{Asked, Fact, Said, Seen};

/// What a node knows of a row, item by item, and all facts that it ever made.
#[derive(Drop)]
pub(crate) struct Notes {
    /// One for each output, by its place.
    pub(crate) words: Vec<Option<Seen>>,
    /// One for each instance; so are the next two.
    pub(crate) limits: Vec<Option<Asked>>,
    pub(crate) replies: Vec<Option<Said>>,
    pub(crate) redos: Vec<Option<Said>>,
    /// For each output, whether its word is known.
    pub(crate) defined: Vec<bool>,
    pub(crate) facts: Vec<Fact>,
}

#[tactic(auto, using(crate::proofs::CountLaws::fewer, crate::proofs::CountLaws::some_empty))]
/// Records an item that isn't known, and its fact.
pub(crate) fn note<T: Copy>(
    entries: &mut Vec<Option<T>>,
    facts: &mut Vec<Fact>,
    place: u32,
    told: T,
    fact: Fact,
)
    requires place { place < length entries.old.items }
    requires lacks { is_none (entry entries.old.items place) ≡ true }
    requires room { length facts.old.items + empties entries.old.items ≤ vec_capacity facts.old }
    ensures entries { entries.new.items ≡ slice_set entries.old.items place (Some told) }
    ensures facts { facts.new.items ≡ facts.old.items ++ fact ∷ [] }
    ensures fewer { empties entries.new.items + 1 ≡ empties entries.old.items }
    ensures room { vec_capacity facts.old ≤ vec_capacity facts.new }
{
    entries[place as usize] = Some(told);
    let _ = facts.push(fact);
}

/// Sets all items to one value.
fn fill<T: Copy>(items: &mut Vec<T>, value: T)
    ensures { items.new.items ≡ map (λ item. value) items.old.items }
{
    for place in 0..items.len() {
        items[place] = value;
    }
}

impl Notes {
    /// Reserves memory for a fact of each item.
    pub(crate) fn reserve(&mut self) -> Result<(), NoMemory>
        ensures room { OnOk result (HasRoom self.new) }
        ensures made { making_in self.new ≡ making_in self.old }
        ensures defined { self.new.defined.items ≡ self.old.defined.items }
    {
        let items = self
            .words
            .len()
            .saturating_add(self.limits.len())
            .saturating_add(self.replies.len())
            .saturating_add(self.redos.len());
        self.facts.reserve(items)
    }

    /// Forgets all that is known of a row.
    pub(crate) fn clear(&mut self)
        ensures made { making_in self.new ≡ forgotten (making_in self.old) }
        ensures notes { (run : Composition) → AreNotes run self.old → AreNotes run self.new }
    {
        fill(&mut self.words, None);
        fill(&mut self.limits, None);
        fill(&mut self.replies, None);
        fill(&mut self.redos, None);
        fill(&mut self.defined, false);
    }
}
