// The views of the writer and of each reader in proofs, and the rule that relates them to the cell.
use crate::front::Front;
use atomic_table::{Join, Split};
use crossbeam_utils::atomic::seq_cell::Pass;
use crossbeam_utils::rule::{Outcome, Protocol};

/// What one end of a cell has done. It exists only in proofs: no value of it is made, so its numbers have no bound.
pub enum View {
    /// The writer's: what it stored last, how many stores it made, and how many loads the readers that it joined had made.
    Wrote(Front, u64, u64),
    /// A reader's: what its last load returned, or before the first what the writer had stored, and how many loads it made.
    Saw(Front, u64),
    /// That of a reader after its join.
    Spent,
}

/// The rule of a cell, over what it holds and the views of all its ends.
pub struct InStep;

impl Protocol<Front, View> for InStep {
    ghost use Rattle.front_cell.specs.Front.{opening};
    ghost use Rattle.front_cell.specs.Rule.{IsInStep};
    ghost use Rattle.front_cell.specs.declared.view.View.TheVariants.{Wrote};

    ghost holds = { IsInStep };

    ghost first = { Wrote opening 0 0 };
}

/// The effect of a store on the writer's view.
pub struct Store;

impl Outcome<Front, View> for Store {
    ghost use Rattle.front_cell.specs.Steps.{Stores};

    ghost then = { Stores };
}

/// The effect of a load on a reader's view.
pub struct Load;

impl Outcome<Front, View> for Load {
    ghost use Rattle.front_cell.specs.Steps.{Loads};

    ghost then = { Loads };
}

/// How a reader begins, from the writer's view.
pub struct Begin;

impl Split<View> for Begin {
    ghost use Rattle.front_cell.specs.Steps.{reader_of};

    ghost left = { λ v. v };

    ghost right = { reader_of };
}

/// How a reader's whole view moves to a new pass.
pub struct HandOn;

impl Split<View> for HandOn {
    ghost use Rattle.front_cell.specs.declared.view.View.TheVariants.{Spent};

    ghost left = { λ _. Spent };

    ghost right = { λ v. v };
}

/// How the writer joins a reader, whose view ends.
pub struct End;

impl Join<View> for End {
    ghost use Rattle.front_cell.specs.Steps.{after_join};
    ghost use Rattle.front_cell.specs.declared.view.View.TheVariants.{Spent};

    ghost both = { after_join };

    ghost spent = { Spent };
}

/// The token of an end, which has no bytes.
pub type EndPass = Pass<Front, View>;
