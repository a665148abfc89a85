//! The time of the shortest round, and how it prints.
use std::time::Instant;
use std::{fmt, io};

/// The time of the shortest round so far.
#[derive(Clone, Copy)]
pub(crate) struct Shortest {
    nanoseconds: u128,
}

impl Shortest {
    pub(crate) fn new() -> Shortest {
        Shortest {
            nanoseconds: u128::MAX,
        }
    }

    /// Ends the round that began at `start`.
    pub(crate) fn end_round(&mut self, rt: &HostRuntime, start: Instant) -> io::Result<()> {
        self.nanoseconds = self.nanoseconds.min(start.elapsed(rt)?.as_nanos());
        Ok(())
    }

    /// Returns the time of each of so many in a round, or zero where there are none.
    pub(crate) fn each(self, count: u64) -> Nanoseconds {
        let hundredths = self.nanoseconds.saturating_mul(100);
        Nanoseconds {
            hundredths: hundredths.checked_div(u128::from(count)).unwrap_or(0),
        }
    }
}

/// A time, to hundredths of a nanosecond.
#[derive(Clone, Copy)]
pub(crate) struct Nanoseconds {
    hundredths: u128,
}

impl fmt::Display for Nanoseconds {
    fn fmt<W: fmt::Write>(&self, f: &mut fmt::Formatter<W>) -> fmt::Result {
        write!(
            f,
            "{}.{:02} ns",
            self.hundredths / 100,
            self.hundredths % 100
        )
    }
}
