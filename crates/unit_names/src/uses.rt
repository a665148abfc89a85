//! Which names expressions use.
ghost use Rattle.std.specs.Prelude.{◌≡◌};
ghost use Rattle.unit_tree.specs.Names.{is_among, keeps_to};
ghost use Rattle.unit_tree.specs.WellFormed.{uses_other_input, has_equals};
ghost use Rattle.unit_names.specs.Uses.{uses_of, nodes_keep, nodes_have, is_other_input};

use crate::units::UnitNames;
use unit_tree::{Expr, Name};

/// Where an expression is, which decides what it may use.
#[derive(Clone, Copy, Debug, PartialEq, Eq)]
pub enum Asker {
    /// An output's value: parameters, states and inputs.
    Output,
    /// The longest step, `max`: the same, and `t`.
    Max,
    /// A step line: the same as `max`, locals and `h`.
    Step,
}

/// Whether a name is in a list.
pub fn is_among(names: &[Name], name: &[u8]) -> bool
    ensures { result ≡ is_among names.now name.now }
{
    for one in names {
        if name == one.as_slice() {
            return true;
        }
    }
    false
}

/// Whether two of the names are equal.
pub fn has_equals(names: &[Name]) -> bool
    ensures { result ≡ has_equals names.now }
{
    for (place, name) in names.iter().enumerate() {
        let (_, behind) = names.split_at(place + 1);
        if is_among(behind, name.as_slice()) {
            return true;
        }
    }
    false
}

impl<'a> UnitNames<'a> {
    #[tactic(auto, using(crate::proofs::UnitTables::among_two))]
    fn may_use(&self, asker: Asker, name: &[u8]) -> bool
        ensures { result ≡ is_among (uses_of asker self.now).names name.now }
    {
        match asker {
            Asker::Output => self.is_shared(name),
            Asker::Max => self.is_shared(name),
            Asker::Step => self.is_local(name) || self.is_shared(name),
        }
    }

    fn may_ask(&self, asker: Asker, name: &[u8]) -> bool
        ensures { result ≡ is_among (uses_of asker self.now).events name.now }
    {
        match asker {
            Asker::Output => self.is_event(name),
            Asker::Max => self.is_event(name),
            Asker::Step => self.is_event(name),
        }
    }

    fn may_tell_time(&self, asker: Asker) -> bool
        ensures { result ≡ (uses_of asker self.now).clocks.time }
    {
        match asker {
            Asker::Output => false,
            Asker::Max => true,
            Asker::Step => true,
        }
    }

    fn may_tell_step(&self, asker: Asker) -> bool
        ensures { result ≡ (uses_of asker self.now).clocks.step }
    {
        match asker {
            Asker::Output => false,
            Asker::Max => false,
            Asker::Step => true,
        }
    }

    fn nodes_keep(&self, asker: Asker, expr: &Expr) -> bool
        ensures { result ≡ nodes_keep (uses_of asker self.now) expr.now }
    {
        match expr {
            Expr::Number { .. } | Expr::Truth(_) | Expr::Absent => true,
            Expr::Var(name) => self.may_use(asker, name.as_slice()),
            Expr::Time => self.may_tell_time(asker),
            Expr::Step => self.may_tell_step(asker),
            Expr::Unary { op: _, arg } => self.nodes_keep(asker, arg.get()),
            Expr::Binary { op: _, left, right } => self.nodes_keep(asker, left.get())
                && self.nodes_keep(asker, right.get()),
            Expr::Clamp { value, low, high } => self.nodes_keep(asker, value.get())
                && self.nodes_keep(asker, low.get())
                && self.nodes_keep(asker, high.get()),
            Expr::Choose { cond, yes, no } => self.nodes_keep(asker, cond.get())
                && self.nodes_keep(asker, yes.get())
                && self.nodes_keep(asker, no.get()),
            Expr::Present(name) => self.may_use(asker, name.as_slice())
                && self.may_ask(asker, name.as_slice()),
        }
    }

    /// Whether an expression uses only what it may, by where it is.
    #[tactic(auto, using(crate::proofs::NodesByNames::nodes_are_kept))]
    pub fn keeps_to(&self, asker: Asker, expr: &Expr) -> bool
        ensures { result ≡ keeps_to (uses_of asker self.now) expr.now }
    {
        self.nodes_keep(asker, expr)
    }

    fn is_other_input(&self, needs: &[Name], name: &[u8]) -> bool
        ensures { result ≡ is_other_input self.now needs.now name.now }
    {
        self.is_input(name) && !is_among(needs, name)
    }

    fn nodes_have(&self, needs: &[Name], expr: &Expr) -> bool
        ensures { result ≡ nodes_have (is_other_input self.now needs.now) expr.now }
    {
        match expr {
            Expr::Number { .. } | Expr::Truth(_) | Expr::Time | Expr::Step | Expr::Absent => false,
            Expr::Var(name) => self.is_other_input(needs, name.as_slice()),
            Expr::Unary { op: _, arg } => self.nodes_have(needs, arg.get()),
            Expr::Binary { op: _, left, right } => self.nodes_have(needs, left.get())
                || self.nodes_have(needs, right.get()),
            Expr::Clamp { value, low, high } => self.nodes_have(needs, value.get())
                || self.nodes_have(needs, low.get())
                || self.nodes_have(needs, high.get()),
            Expr::Choose { cond, yes, no } => self.nodes_have(needs, cond.get())
                || self.nodes_have(needs, yes.get())
                || self.nodes_have(needs, no.get()),
            Expr::Present(name) => self.is_other_input(needs, name.as_slice()),
        }
    }

    /// Whether an expression uses an input that is not in the needs, also in `present`.
    #[tactic(auto, using(crate::proofs::NodesByNames::nodes_have_names))]
    pub fn uses_other_input(&self, needs: &[Name], expr: &Expr) -> bool
        ensures { result ≡ uses_other_input self.now needs.now expr.now }
    {
        self.nodes_have(needs, expr)
    }
}
