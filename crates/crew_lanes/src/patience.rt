//! For how many rows a lane is published, by whether its guesses are right, and when it rests, by whether anything is found in it.

/// A step of lower cost is made faster than it is published, looked for and taken.
const LEAST_COST: u32 = 2_000;

/// A step of this cost takes so long that publishing its lane in vain delays the run by a small part of it.
const HEAVY_COST: u32 = 20_000;

/// After so many right guesses in a row the window doubles.
const RIGHT_GUESSES: u32 = 3;

/// In so many phases in a row nothing may be found before a lane rests. A worker needs some of them to get ahead.
const TRIES: u32 = 8;

/// For how many phases a lane rests at first.
const SHORTEST_REST: u32 = 8;

/// For how many phases a lane rests at most. The workers of a busy machine may have time again soon.
const LONGEST_REST: u32 = 64;

/// What it is worth to find a step.
#[derive(Clone, Copy, Debug, PartialEq, Eq)]
enum Worth {
    /// Less than it costs.
    Nothing,
    /// More than it costs, if steps are found often enough.
    Some,
    /// So much that it is always tried.
    Much,
}

/// Whether a lane is published, and for how many rows.
///
/// The window depends on the guesses alone. It is one row at first and after a wrong guess: the inputs of that row are known, so that
/// its answer is always right. After some right guesses in a row the window doubles, up to the one that is asked for. A guess is right
/// even where its answer comes too late.
///
/// The rests depend on the answers alone. A lane of heavy steps never rests. Any other lane in which nothing is found again and again
/// is left alone, twice as long each time. A lane of light steps is never published.
#[derive(Clone, Copy, Debug, PartialEq, Eq)]
pub struct Patience {
    worth: Worth,
    /// The window that is asked for.
    most: u32,
    window: u32,
    /// How many guesses in a row were right since the window changed.
    right: u32,
    /// In how many further phases nothing may be found.
    tries: u32,
    /// Whether the lane is published in this phase.
    published: bool,
    /// For how many phases the lane rests from the next on.
    left: u32,
    /// How long the next rest is.
    next_rest: u32,
}

/// Returns what it is worth to find a step of a cost.
fn worth_of(cost: u32) -> Worth {
    if cost < LEAST_COST {
        Worth::Nothing
    } else if cost < HEAVY_COST {
        Worth::Some
    } else {
        Worth::Much
    }
}

impl Patience {
    /// Returns that of a lane which nobody has looked into, by the cost of a step and the window that is asked for.
    pub fn new(cost: u32, most: u32) -> Patience {
        Patience {
            worth: if most == 0 {
                Worth::Nothing
            } else {
                worth_of(cost)
            },
            most,
            window: 1,
            right: 0,
            tries: TRIES,
            published: false,
            left: 0,
            next_rest: SHORTEST_REST,
        }
    }

    /// Returns whether the lane is ever published.
    pub fn pays(&self) -> bool {
        self.worth != Worth::Nothing
    }

    /// Begins a phase. Returns whether the lane is published in it.
    pub fn begin_phase(&mut self) -> bool {
        self.published = self.pays() && self.left == 0;
        self.left = self.left.saturating_sub(1);
        self.published
    }

    /// Returns whether the lane is published in this phase.
    pub fn is_published(&self) -> bool {
        self.published
    }

    /// Returns for how many rows the lane is published, by whether the guess for the first of them was right.
    pub fn window(&mut self, is_right: bool) -> u32 {
        if !is_right {
            self.window = 1;
            self.right = 0;
            return self.window;
        }
        self.right = self.right.saturating_add(1);
        if self.right >= RIGHT_GUESSES {
            self.window = self.window.saturating_mul(2).min(self.most);
            self.right = 0;
        }
        self.window
    }

    /// Records whether something was found in this phase.
    pub fn tell(&mut self, found: bool) {
        if found {
            self.tries = TRIES;
            self.next_rest = SHORTEST_REST;
        } else if self.worth == Worth::Some {
            self.find_nothing();
        }
    }

    /// Records that nothing was found. After the last try the lane rests from the next phase on.
    fn find_nothing(&mut self) {
        self.tries = self.tries.saturating_sub(1);
        if self.tries == 0 {
            self.tries = TRIES;
            self.left = self.next_rest;
            self.next_rest = self.next_rest.saturating_mul(2).min(LONGEST_REST);
        }
    }
}
