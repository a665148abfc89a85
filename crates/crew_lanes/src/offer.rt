//! Whether workers may take tickets of a lane, as a flag that they read without the lane's lock.

use std::sync::atomic::{AtomicU64, Ordering};

/// The run makes the required step itself.
const WITHDRAWN: u64 = 0;

/// The lane may make a ticket.
const OPEN: u64 = 1;

/// The lane makes no ticket until answers are posted or a ticket is given back.
const TAKEN: u64 = 2;

/// The offer of a lane. Workers that have nothing to do look at offers all the time. If they took the locks of the lanes, the run would
/// wait for these.
///
/// The run changes it before it takes the lock of the lane and after it leaves it. Workers change it while they have the lock. So none
/// of them marks a lane as taken that was published since.
#[derive(Drop)]
pub(crate) struct Offer {
    word: AtomicU64,
}

impl Offer {
    /// Returns the offer of a lane that the run withdrew.
    pub(crate) fn new() -> Offer {
        Offer {
            word: AtomicU64::new(WITHDRAWN),
        }
    }

    /// Withdraws the lane.
    pub(crate) fn withdraw(&self) {
        self.word.store(WITHDRAWN, Ordering::SeqCst);
    }

    /// Offers the lane.
    pub(crate) fn make(&self) {
        self.word.store(OPEN, Ordering::SeqCst);
    }

    /// Records that the lane makes no ticket, unless it is withdrawn.
    pub(crate) fn take(&self) {
        self.change(OPEN, TAKEN);
    }

    /// Records that the lane may make a ticket again, unless it is withdrawn.
    pub(crate) fn renew(&self) {
        self.change(TAKEN, OPEN);
    }

    /// Changes the word, where it is as it was thought to be.
    fn change(&self, from: u64, to: u64) {
        let _ = self
            .word
            .compare_exchange(from, to, Ordering::SeqCst, Ordering::SeqCst);
    }

    /// Returns whether the lane may make a ticket.
    pub(crate) fn is_open(&self) -> bool {
        self.word.load(Ordering::SeqCst) == OPEN
    }

    /// Returns whether the lane isn't withdrawn.
    pub(crate) fn is_made(&self) -> bool {
        self.word.load(Ordering::SeqCst) != WITHDRAWN
    }
}
