//! How far ahead of the run each instance is stepped, and whether the guesses for it are right.
ghost use Rattle.std.specs.Prelude.{◌≤◌};
ghost use Rattle.guess_board.specs.Guesses.{IsOutlook, seen_of};
ghost use Rattle.model_rules.specs.Limits.{window_limit};

use crew_lanes::Patience;
use fixed_words::NoMemory;
use guess_board::{Outlook, Policy};
use std::alloc::Global;
use word_lanes::extrapolate;

/// How lines are guessed: for how many rows at most, and by which policy.
#[derive(Clone, Copy)]
pub(crate) struct Guessing {
    pub(crate) window: u32,
    pub(crate) policy: Policy,
    ghost few: { window ≤ window_limit },
}

/// What was guessed of an instance for the next row.
#[derive(Drop)]
struct Forecast {
    time: u64,
    step: u64,
    inputs: Vec<i64>,
}

impl Forecast {
    /// Returns whether the row of an outlook is as it was guessed: its time, its step and the words of the inputs.
    fn is_right(&self, seen: Outlook<'_>) -> bool {
        (self.time, self.step) == (seen.t, seen.step) && self.inputs.as_slice() == seen.last
    }

    /// Guesses the row after that of an outlook, as lines are guessed.
    fn guess_next(&mut self, policy: Policy, seen: Outlook<'_>)
        requires outlook { IsOutlook (seen_of seen) }
    {
        self.time = seen.t.saturating_add(seen.step);
        self.step = seen.step;
        if self.inputs.len() != seen.last.len() {
            return;
        }
        match policy {
            Policy::Hold => self.inputs.copy_from_slice(seen.last),
            Policy::Linear => extrapolate(
                seen.last,
                seen.before,
                seen.low,
                seen.high,
                &mut self.inputs,
            ),
        }
    }
}

/// Whether the lane of an instance is published, and for how many rows.
#[derive(Drop)]
pub(crate) struct Speculation {
    patience: Patience,
    forecast: Forecast,
}

impl Speculation {
    /// Returns that of an instance with so many inputs, whose steps cost so much, at the beginning of a run.
    pub(crate) fn new(
        alloc: Global,
        inputs: u32,
        cost: u32,
        window: u32,
    ) -> Result<Speculation, NoMemory> {
        Ok(Speculation {
            patience: Patience::new(cost, window),
            forecast: Forecast {
                time: 0,
                step: 0,
                inputs: Vec::from_elem(alloc, 0, inputs as usize)?,
            },
        })
    }

    /// Returns whether the lane is ever published.
    pub(crate) fn pays(&self) -> bool {
        self.patience.pays()
    }

    /// Begins a phase. Returns whether the lane is published in it.
    pub(crate) fn begin_phase(&mut self) -> bool {
        self.patience.begin_phase()
    }

    /// Returns whether the lane is published in this phase.
    pub(crate) fn is_published(&self) -> bool {
        self.patience.is_published()
    }

    /// Returns for how many rows the lane is published at an outlook, and guesses the next row.
    pub(crate) fn window(&mut self, guessing: Guessing, seen: Outlook<'_>) -> u32
        requires outlook { IsOutlook (seen_of seen) }
        ensures { result ≤ guessing.window }
    {
        let is_right = self.forecast.is_right(seen);
        self.forecast.guess_next(guessing.policy, seen);
        self.patience.window(is_right).min(guessing.window)
    }

    /// Records whether something was found in this phase.
    pub(crate) fn tell(&mut self, found: bool) {
        self.patience.tell(found);
    }
}
