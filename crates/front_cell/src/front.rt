// The contents of a cell.
ghost use Rattle.std.specs.Prelude.{◌≡◌};

use crossbeam_utils::atomic::Words;

/// The progress of a run.
#[derive(Clone, Copy, PartialEq, Eq, Debug)]
pub struct Front {
    /// The number of committed rows.
    pub rows: u64,
    /// Whether the run is closed: no row will follow.
    pub closed: bool,
}

impl Front {
    ghost use Rattle.front_cell.specs.Front.{open_at, closed_at};

    // Returns the progress of an open run with so many rows.
    pub(crate) fn open_at(rows: u64) -> Front
        ensures { result ≡ open_at rows }
    {
        Front {
            rows,
            closed: false,
        }
    }

    // Returns the same rows, of a closed run.
    pub(crate) fn to_closed(self) -> Front
        ensures { result ≡ closed_at self }
    {
        Front {
            rows: self.rows,
            closed: true,
        }
    }
}

impl Words<2> for Front {
    ghost use Rattle.front_cell.specs.Front.{cell_words};

    ghost words = { cell_words };

    fn to_words(self) -> [u64; 2] {
        [self.rows, u64::from(self.closed)]
    }

    fn from_words(bits: &[u64; 2]) -> Front {
        Front {
            rows: bits[0],
            closed: bits[1] == 1,
        }
    }
}
