//! The kinds of expressions, by the names of their unit.
ghost use Rattle.std.specs.Prelude.{◌≡◌, Some};
ghost use Rattle.fixed_words.specs.Types.{kind_of};
ghost use Rattle.unit_tree.specs.Kinds.{same_kind, is_number, is_fixed, where_holds, unary_kind, binary_kind, kind_of_expression, is_of_kind, has_kind, line_is_kinded};
ghost use Rattle.unit_tree.specs.Names.{kinds_in};
ghost use Rattle.unit_tree.specs.Plain.{word_expression_of};
ghost use Rattle.unit_tree.specs.Values.{kind_of_number};
ghost use Rattle.unit_names.specs.Choices.{choice_kind};
ghost use Rattle.unit_tree.specs.declared.line_form.LineForm.TheVariants as form;

use crate::units::UnitNames;
use fixed_words::{Kind, Ty};
use unit_tree::{BinOp, Expr, UnOp, kind_of_number};

/// Whether two kinds are equal.
pub fn is_same_kind(one: Kind, other: Kind) -> bool
    ensures { result ≡ same_kind one other }
{
    match (one, other) {
        (Kind::Int, Kind::Int) => true,
        (Kind::Bool, Kind::Bool) => true,
        (Kind::Fixed(m), Kind::Fixed(n)) => m == n,
        _ => false,
    }
}

fn is_number(kind: Kind) -> bool
    ensures { result ≡ is_number kind }
{
    !matches!(kind, Kind::Bool)
}

fn is_fixed(kind: Kind) -> bool
    ensures { result ≡ is_fixed kind }
{
    matches!(kind, Kind::Fixed(_))
}

fn where_holds(test: bool, kind: Kind) -> Option<Kind>
    ensures { result ≡ where_holds test kind }
{
    if test { Some(kind) } else { None }
}

fn unary_kind(op: UnOp, x: Kind) -> Option<Kind>
    ensures { result ≡ unary_kind op x }
{
    match op {
        UnOp::Neg | UnOp::Abs => where_holds(is_number(x), x),
        UnOp::Not => where_holds(is_same_kind(x, Kind::Bool), Kind::Bool),
        UnOp::ToInt => Some(Kind::Int),
        UnOp::ToFix(decimals) => where_holds(is_number(x), Kind::Fixed(decimals)),
    }
}

fn binary_kind(op: BinOp, x: Kind, y: Kind) -> Option<Kind>
    ensures { result ≡ binary_kind op x y }
{
    match op {
        BinOp::Slash => where_holds(is_same_kind(x, y) && is_fixed(x), x),
        BinOp::Div | BinOp::Mod => where_holds(
            is_same_kind(x, Kind::Int) && is_same_kind(y, Kind::Int),
            Kind::Int,
        ),
        BinOp::Eq | BinOp::Ne => where_holds(is_same_kind(x, y), Kind::Bool),
        BinOp::Lt | BinOp::Le | BinOp::Gt | BinOp::Ge => where_holds(
            is_same_kind(x, y) && is_number(x),
            Kind::Bool,
        ),
        BinOp::And | BinOp::Or => where_holds(
            is_same_kind(x, Kind::Bool) && is_same_kind(y, Kind::Bool),
            Kind::Bool,
        ),
        BinOp::Add | BinOp::Sub | BinOp::Mul | BinOp::Min | BinOp::Max => where_holds(
            is_same_kind(x, y) && is_number(x),
            x,
        ),
    }
}

/// The kind of `if`, from those of its condition and its branches.
fn choice_kind(cond: Option<Kind>, yes: Option<Kind>, no: Option<Kind>) -> Option<Kind>
    ensures { result ≡ choice_kind cond yes no }
{
    let c = cond?;
    let x = yes?;
    let y = no?;
    where_holds(is_same_kind(c, Kind::Bool) && is_same_kind(x, y), x)
}

/// Whether both kinds are there and are equal.
fn is_of_kind(found: Option<Kind>, asked: Option<Kind>) -> bool
    ensures { result ≡ is_of_kind found asked }
{
    match (found, asked) {
        (Some(one), Some(other)) => is_same_kind(one, other),
        _ => false,
    }
}

impl<'a> UnitNames<'a> {
    /// The kind of a declared name.
    pub fn kind_named(&self, name: &[u8]) -> Option<Kind>
        ensures { result ≡ kinds_in self.now name.now }
    {
        Some(self.type_in(name)?.kind())
    }

    /// The kind of an expression. None where an operand has a wrong one, a name is not declared, or `absent` occurs in
    /// it.
    pub fn kind(&self, expr: &Expr) -> Option<Kind>
        ensures { result ≡ kind_of_expression expr.now (kinds_in self.now) }
    {
        match expr {
            Expr::Number { word: _, decimals } => Some(kind_of_number(*decimals)),
            Expr::Truth(_) => Some(Kind::Bool),
            Expr::Var(name) => self.kind_named(name.as_slice()),
            Expr::Time | Expr::Step => Some(Kind::Int),
            Expr::Unary { op, arg } => unary_kind(*op, self.kind(arg.get())?),
            Expr::Binary { op, left, right } => {
                let x = self.kind(left.get())?;
                let y = self.kind(right.get())?;
                binary_kind(*op, x, y)
            }
            Expr::Clamp { value, low, high } => {
                let x = self.kind(value.get())?;
                let l = self.kind(low.get())?;
                let h = self.kind(high.get())?;
                where_holds(
                    is_same_kind(x, l) && (is_same_kind(x, h) && is_number(x)),
                    x,
                )
            }
            Expr::Choose { cond, yes, no } => choice_kind(
                self.kind(cond.get()),
                self.kind(yes.get()),
                self.kind(no.get()),
            ),
            Expr::Absent => None,
            Expr::Present(_) => Some(Kind::Bool),
        }
    }

    /// Whether an expression has the required kind.
    pub fn has_kind(&self, asked: Option<Kind>, expr: &Expr) -> bool
        ensures { result ≡ has_kind asked expr.now (kinds_in self.now) }
    {
        is_of_kind(self.kind(expr), asked)
    }

    /// Whether the value of an assignment has its target's kind.
    pub fn is_assigned_kind(&self, target: &[u8], value: &Expr) -> bool
        ensures { result ≡ line_is_kinded (form.Assign target.now value.now) (kinds_in self.now) }
    {
        self.has_kind(self.kind_named(target), value)
    }

    /// The kind of an event output's word: that of its expression, where each `absent` that is allowed there counts as
    /// a zero of the output's type.
    fn word_kind(&self, ty: Ty, expr: &Expr) -> Option<Kind>
        ensures { result ≡ kind_of_expression (word_expression_of ty expr.now) (kinds_in self.now) }
    {
        match expr {
            Expr::Absent => Some(ty.kind()),
            Expr::Choose { cond, yes, no } => choice_kind(
                self.kind(cond.get()),
                self.word_kind(ty, yes.get()),
                self.word_kind(ty, no.get()),
            ),
            _ => self.kind(expr),
        }
    }

    /// Whether an event output's expression has the kind of its type.
    pub fn has_word_kind(&self, ty: Ty, expr: &Expr) -> bool
        ensures { result ≡ has_kind (Some (kind_of ty)) (word_expression_of ty expr.now) (kinds_in self.now) }
    {
        is_of_kind(self.word_kind(ty, expr), Some(ty.kind()))
    }
}
