//! What a command asks of the generator.
ghost use Rattle.std.specs.Prelude.{◌≡◌, IfOk};
ghost use Rattle.command_line.specs.Generations.{CanGive, asked_by, system_asked};

use crate::options::Given;
use crate::ranges::Within;
use cosim_gen::generate;
use fixed_words::NoMemory;
use model_rules::{MOST_CELLS, MOST_INSTANCES, MOST_ROWS};
use std::alloc::Global;
use std::marker::Model;
use unit_tree::System;

const GREATEST_INSTANCES: u64 = MOST_INSTANCES as u64;

const GREATEST_ROWS: u64 = MOST_ROWS as u64;

const GREATEST_CELLS: u64 = MOST_CELLS as u64;

type Instances = Within<1, GREATEST_INSTANCES>;

type Rows = Within<1, GREATEST_ROWS>;

/// Rows times components.
type Cells = Within<1, GREATEST_CELLS>;

/// The system that a command asks of the generator: by a seed, of so many components, and for so many rows. There always is one.
#[derive(Clone, Copy, Debug, PartialEq, Eq)]
pub struct Generation {
    seed: u64,
    instances: u32,
    rows: u32,
}

impl Model for Generation {
    ghost use Rattle.cosim_gen.specs.Generated.{CanGenerate};
    ghost use Rattle.command_line.specs.Generations.{Asked};

    ghost Value = { Asked };

    ghost view = { λ g. record { seed = g.seed; instances = g.instances; rows = g.rows } };

    ghost invariant = { λ g. CanGenerate g.instances g.rows };

    ghost inverse = { λ a. record { seed = a.seed; instances = a.instances; rows = a.rows } };
}

impl Generation {
    /// Returns what options ask for, or `None` where one of the three is missing or out of its range.
    pub(crate) fn asked(given: Given) -> Option<Generation>
        ensures { result ≡ asked_by given }
    {
        let seed = given.seed?;
        let instances = Instances::required(given.instances)?.get();
        let rows = Rows::required(given.rows)?.get();
        let _cells = Cells::product(rows, instances)?;
        Some(Generation {
            seed,
            instances: instances as u32,
            rows: rows as u32,
        })
    }

    /// Returns how many components the system has.
    pub fn instances(&self) -> u32
        ensures value { result ≡ self.now.instances }
        ensures given { CanGive self.now }
    {
        self.instances
    }

    /// Returns the system.
    pub fn system(&self, alloc: Global) -> Result<System, NoMemory>
        ensures { IfOk result (λ system. system ≡ system_asked self.now) }
    {
        generate(alloc, self.seed, self.instances, self.rows)
    }
}
