ghost use Rattle.std.specs.Prelude.{◌≡◌, ◌↔◌, IsTrue, IfOk};
ghost use Rattle.unit_answers.specs.Keys.{key_held, key_of};

use fixed_words::{List, NoMemory};
use std::alloc::Global;
use std::sync::Arc;
use unit_exec::{Image, Want};
use word_lanes::first_mismatch;

/// All that a step of a component depends on.
#[derive(Drop)]
pub struct Key {
    /// The image that has the code. Which image it is does not matter: code is compared by its words.
    pub image: Arc<Image>,
    pub state: List<i64>,
    pub inputs: List<i64>,
    /// The local time at the beginning of the step, in local ticks.
    pub time: u64,
    /// The length of the step, in local ticks.
    pub step: u64,
}

impl Key {
    /// Returns the key of a required step. It takes memory for the words of the key.
    pub(crate) fn of(alloc: Global, want: Want<'_>) -> Result<Key, NoMemory>
        ensures { IfOk result (λ key. key_held key ≡ key_of want.entry) }
    {
        Ok(Key {
            image: Arc::clone(want.image)?,
            state: List::from_slice(alloc, want.state)?,
            inputs: List::from_slice(alloc, want.inputs)?,
            time: want.time,
            step: want.step,
        })
    }

    /// Returns whether this is the key of a required step. It first compares what is cheap to compare and likely to differ.
    pub(crate) fn is_of(&self, want: Want<'_>) -> bool
        ensures { IsTrue result ↔ (key_held self.now ≡ key_of want.entry) }
    {
        self.time == want.time
            && self.step == want.step
            && same_words(self.state.as_slice(), want.state)
            && same_words(self.inputs.as_slice(), want.inputs)
            && same_words(self.image.code().words(), want.image.code().words())
    }
}

/// Returns whether the words are equal.
fn same_words(one: &[i64], other: &[i64]) -> bool
    ensures { IsTrue result ↔ (one.now ≡ other.now) }
{
    one.len() == other.len() && first_mismatch(one, other).is_none()
}
