//! A store of snapshots: lists of words, each under an id that the store makes.
//!
//! The layer above saves the words of a component, overwrites them at each new point, restores them, and releases them.
//! It sees a store as the words under each live id, and an id as a number that only a store can make.
//! `specs/Store.antt` has the definitions. Only saving takes memory.
#![tactic(auto)]

ghost use Rattle.std.specs.Prelude.{◌≡◌, length, None, Some, IfOk, OnErr};
ghost use Rattle.std.specs.FinMap as map;
ghost use Rattle.snap_store.specs.Store.{words_of, IsLive, HasLength, KeepsOthers};

use slab::Slab;
use std::alloc::{AllocError, Global};
use std::marker::Model;

/// The id of a snapshot. A store returns it when it saves the snapshot. It is live until that store releases it.
/// The store may then use it again for another snapshot.
#[derive(Clone, Copy, Debug, PartialEq, Eq)]
pub struct SnapId {
    key: usize,
}

impl Model for SnapId {
    ghost use Rattle.std.specs.Prelude.{ℕ};

    ghost Value = { ℕ };

    ghost view = { λ id. id.key };

    ghost inverse = { λ n. record { key = n } };
}

/// A store: snapshots of words under ids.
#[derive(Drop)]
pub struct Snaps {
    slots: Slab<Vec<i64>>,
}

impl Model for Snaps {
    ghost use Rattle.std.specs.Prelude.{map};
    ghost use Rattle.std.specs.Option.{option_map};
    ghost use Rattle.std.specs.Coded.{coded_ℕ, coded_ℤ, coded_list};
    ghost use Rattle.std.specs.FinMap as finite;
    ghost use Rattle.snap_store.specs.Store.{Store};
    ghost use Rattle.snap_store.specs.View.{stored_from};

    ghost Value = { Store };

    ghost coded = { finite.code coded_ℕ (coded_list coded_ℤ) };

    ghost view = { λ s. stored_from 0 (map (option_map (λ v. v.items)) s.slots.slots) };
}

/// Overwrites words by as many others. A single word, as many components have, is written without a call.
pub fn copy_words(into: &mut [i64], words: &[i64])
    requires { length into.old ≡ length words.now }
    ensures { into.new ≡ words.now }
{
    if words.len() == 1 {
        into[0] = words[0];
    } else {
        into.copy_from_slice(words);
    }
}

impl Snaps {
    /// Returns a store without a snapshot. It takes no memory yet: `alloc` is where its memory comes from later.
    pub fn new(alloc: Global) -> Snaps
        ensures empty { result ≡ map.empty }
    {
        Snaps {
            slots: Slab::new(alloc),
        }
    }

    /// Saves a copy of the words and returns its id, which was not live before.
    /// Where memory is refused the store stays unchanged.
    pub fn save(&mut self, alloc: Global, words: &[i64]) -> Result<SnapId, AllocError>
        ensures new_id { IfOk result (λ id. words_of self.old id ≡ None) }
        ensures saved { IfOk result (λ id. words_of self.new id ≡ Some words.now) }
        ensures others { IfOk result (KeepsOthers self.old self.new) }
        ensures refused { OnErr result (self.new ≡ self.old) }
    {
        let copy = Vec::from_slice(alloc, words)?;
        let key = self.slots.insert(copy)?;
        Ok(SnapId { key })
    }

    /// Overwrites the words of a live id. The new ones must be as many.
    pub fn overwrite(&mut self, id: SnapId, words: &[i64])
        requires live { IsLive self.old id }
        requires same_length { HasLength self.old id (length words.now) }
        ensures written { words_of self.new id ≡ Some words.now }
        ensures others { KeepsOthers self.old self.new id }
    {
        let held = &mut self.slots[id.key];
        copy_words(held, words);
    }

    /// Copies the words of a live id into `into`, which must have their length.
    pub fn restore(&self, id: SnapId, into: &mut [i64])
        requires live { IsLive self.now id }
        requires same_length { HasLength self.now id (length into.old) }
        ensures restored { words_of self.now id ≡ Some into.new }
    {
        into.copy_from_slice(&self.slots[id.key]);
    }

    /// Returns the words of a live id.
    pub fn words(&self, id: SnapId) -> &[i64]
        requires live { IsLive self.now id }
        ensures words { words_of self.now id ≡ Some result.now }
    {
        &self.slots[id.key]
    }

    /// Releases a live id and its words.
    pub fn release(&mut self, id: SnapId)
        requires live { IsLive self.old id }
        ensures released { words_of self.new id ≡ None }
        ensures others { KeepsOthers self.old self.new id }
    {
        self.slots.remove(id.key);
    }
}

#[cfg(test)]
mod tests;
