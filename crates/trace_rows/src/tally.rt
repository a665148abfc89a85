ghost use Rattle.std.specs.Prelude.{◌≡◌, ◌<◌, ◌+◌, ◌*◌, ◌^◌, pos, ◌+ℤ◌};
ghost use Rattle.trace_rows.specs.Sums.{IsBoundedBy};
ghost use Rattle.model_rules.specs.Limits.{rows_limit};

/// How many rows were written, and the sum of the words that they show.
#[derive(Clone, Copy, Debug)]
pub struct Tally {
    pub rows: u64,
    pub sum: i128,
    ghost in_bounds: { IsBoundedBy (rows * 2 ^ 95) sum },
}

impl Tally {
    /// Returns the tally of no rows.
    pub fn new() -> Tally
        ensures rows { result.rows ≡ 0 }
        ensures sum { result.sum ≡ pos 0 }
    {
        Tally { rows: 0, sum: 0 }
    }

    /// Counts a row whose words have this sum.
    pub(crate) fn count(&mut self, sum: i128)
        requires rows { self.old.rows < rows_limit }
        requires bound { IsBoundedBy (2 ^ 95) sum }
        ensures rows { self.new.rows ≡ self.old.rows + 1 }
        ensures sum { self.new.sum ≡ self.old.sum +ℤ sum }
    {
        *self = Tally {
            rows: self.rows + 1,
            sum: self.sum + sum,
        };
    }
}
