//! The replies to the events of a replay, counted.
ghost use Rattle.std.specs.Prelude.{◌≡◌, ◌<◌, ◌^◌};
ghost use Rattle.spec_core.specs.Rounds.{AreFew, no_replies, with_reply};

use crate::event::Reply;

/// How many events there were, and how many had each kind of reply.
#[derive(Clone, Copy, Debug)]
pub(crate) struct Replies {
    pub(crate) events: u64,
    pub(crate) refused: u64,
    pub(crate) found: u64,
    pub(crate) own: u64,
    pub(crate) tickets: u64,
    pub(crate) posted: u64,
    pub(crate) back: u64,
    pub(crate) appended: u64,
}

impl Replies {
    /// Returns the counts of no event.
    pub(crate) fn none() -> Replies
        ensures none { result ≡ no_replies }
        ensures few { AreFew result }
    {
        Replies {
            events: 0,
            refused: 0,
            found: 0,
            own: 0,
            tickets: 0,
            posted: 0,
            back: 0,
            appended: 0,
        }
    }

    /// Counts the reply to one more event.
    pub(crate) fn count(&mut self, reply: Reply)
        requires few { AreFew self.old }
        requires room { self.old.events < 2 ^ 30 }
        ensures counted { self.new ≡ with_reply self.old reply }
        ensures few { AreFew self.new }
    {
        self.events += 1;
        match reply {
            Reply::Refused => self.refused += 1,
            Reply::Found => self.found += 1,
            Reply::Computed => self.own += 1,
            Reply::Taken => self.tickets += 1,
            Reply::Posted { appended } => {
                self.posted += 1;
                self.appended += u64::from(appended);
            }
            Reply::Back => self.back += 1,
            // These count only as events.
            Reply::Published { .. } | Reply::Stolen | Reply::Missed | Reply::Settled(_) => {}
        }
    }
}
