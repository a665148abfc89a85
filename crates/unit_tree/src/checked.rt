use crate::System;
use std::marker::Model;

/// A system that was judged: it is in range and well-formed. Its plain form is kept with it. Contracts see it as
/// the system itself.
#[derive(Debug, Drop)]
pub struct Checked {
    source: System,
    plain: System,
}

impl Model for Checked {
    ghost use Rattle.std.specs.Coded.{codes};
    ghost use Rattle.unit_tree.specs.contracts.expr.Expr as expr;
    ghost use Rattle.unit_tree.specs.contracts.line.Line as line;
    ghost use Rattle.unit_tree.specs.declared.system.System.{System};

    ghost Value = { System };

    ghost coded = { Prim.hlevel (codes, expr.the_row.coded, line.the_row.coded) };

    ghost use Rattle.unit_tree.specs.Judged.{source_of, IsJudged};

    ghost view = { source_of };

    ghost invariant = { IsJudged };
}

impl Checked {
    ghost use Rattle.std.specs.Prelude.{◌≡◌};
    ghost use Rattle.unit_tree.specs.Plain.{plain_form};
    ghost use Rattle.unit_tree.specs.Printable.{IsRanged};
    ghost use Rattle.unit_tree.specs.WellFormed.{IsWellFormed};

    /// Returns a system together with its plain form.
    pub fn new(source: System, plain: System) -> Checked
        requires ranged { IsRanged source }
        requires well_formed { IsWellFormed source }
        requires plain { plain ≡ plain_form source }
        ensures { result ≡ source }
    {
        Checked { source, plain }
    }

    /// The system as it was written.
    pub fn source(&self) -> &System
        ensures { result.now ≡ self.now }
    {
        &self.source
    }

    /// Its plain form, which has no event ports and is the system that is run.
    pub fn system(&self) -> &System
        ensures plain { result.now ≡ plain_form self.now }
        ensures ranged { IsRanged self.now }
        ensures well_formed { IsWellFormed self.now }
    {
        &self.plain
    }
}
