ghost use Rattle.std.specs.Prelude.{◌≡◌, ◌↔◌, IsTrue};
ghost use Rattle.unit_answers.specs.Answers.{IsProven, step_told};
ghost use Rattle.unit_answers.specs.Keys.{key_held, key_of};

use crate::answer::Answer;
use crate::key::Key;
use std::marker::Model;
use unit_exec::Want;

/// A key, the answer that is its meaning, and the row of the run for which the answer was made.
#[derive(Drop)]
pub struct Proven {
    pub(crate) row: u64,
    pub(crate) key: Key,
    pub(crate) answer: Answer,
}

impl Model for Proven {
    ghost use Rattle.unit_answers.specs.Answers.{Answered};

    ghost Value = { Answered };

    ghost use Rattle.unit_answers.specs.Answers.{IsProven};
    ghost use Rattle.unit_answers.specs.Proving.{answered};

    ghost view = { answered };

    ghost invariant = { λ one. IsProven (answered one) };
}

impl Proven {
    /// Returns the row for which the answer was made. The answer doesn't depend on it.
    pub fn row(&self) -> u64
        ensures { result ≡ self.now.row }
    {
        self.row
    }

    /// Returns what the step depended on.
    pub fn key(&self) -> &Key
        ensures { key_held result.now ≡ self.now.key }
    {
        &self.key
    }

    /// Returns the result of the step: the meaning of the key.
    pub fn answer(&self) -> &Answer
        ensures value { step_told result.now ≡ self.now.answer }
        ensures proven { IsProven self.now }
    {
        &self.answer
    }
}

/// Returns whether an answer is that of the required step: true exactly where code, state, inputs, time and step are equal. It
/// doesn't compare the row and takes no memory.
pub fn same_key(one: &Proven, want: Want<'_>) -> bool
    ensures { IsTrue result ↔ (one.now.key ≡ key_of want.entry) }
{
    one.key.is_of(want)
}
