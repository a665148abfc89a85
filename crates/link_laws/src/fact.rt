ghost use Rattle.std.specs.Prelude.{◌≡◌};
ghost use Rattle.link_laws.specs.Boards.{row_of};

use fixed_words::Fault;

/// What a fact says of an output.
#[derive(Clone, Copy, Debug, PartialEq, Eq)]
pub enum Seen {
    /// Its word.
    Is(i64),
    /// It has a fault of its own: each input in its needs has a word.
    Fault(Fault),
    /// It has no word, since an output that it needs has none.
    Undefined,
}

/// What a fact says of a `max`.
#[derive(Clone, Copy, Debug, PartialEq, Eq)]
pub enum Asked {
    /// It sets no limit.
    Free,
    /// The limit, in local ticks of the instance.
    Max(u64),
    /// Its fault.
    Fault(Fault),
}

/// What a fact says of a step.
#[derive(Clone, Copy, Debug, PartialEq, Eq)]
pub enum Said {
    /// The accepted length, in local ticks of the instance.
    Accepted(u64),
    /// Its fault.
    Fault(Fault),
}

/// A fact of a row, which one node sends to the other. Rows, places of outputs and instances are given by their numbers, from 0.
/// Outputs are those of the plain form, by instance and then by declaration.
#[derive(Clone, Copy, Debug, PartialEq, Eq)]
pub enum Fact {
    /// The output at a place.
    Word {
        row: u64,
        place: u32,
        seen: Seen,
    },
    /// The limit of an instance.
    Limit {
        row: u64,
        instance: u32,
        asked: Asked,
    },
    /// The result of an instance's step: of the proposed step, or of the redo.
    Reply {
        row: u64,
        instance: u32,
        redo: bool,
        said: Said,
    },
}

impl Fact {
    /// Returns the number of its row.
    pub fn row(&self) -> u64
        ensures { result ≡ row_of self.now }
    {
        match *self {
            Fact::Word { row, .. } | Fact::Limit { row, .. } | Fact::Reply { row, .. } => row,
        }
    }
}
