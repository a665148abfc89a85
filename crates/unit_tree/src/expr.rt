use crate::Name;
use fixed_words::Boxed;

/// An operation on one operand.
#[derive(Clone, Copy, Debug, PartialEq, Eq)]
pub enum UnOp {
    Neg,
    Not,
    Abs,
    /// `int(x)`
    ToInt,
    /// `fix N (x)`, with N from 0 to 9.
    ToFix(u8),
}

/// An operation on two operands.
#[derive(Clone, Copy, Debug, PartialEq, Eq)]
pub enum BinOp {
    Add,
    Sub,
    Mul,
    /// `/`, of fixed-point words.
    Slash,
    /// `div`: the floor of the quotient.
    Div,
    Mod,
    Eq,
    Ne,
    Lt,
    Le,
    Gt,
    Ge,
    And,
    Or,
    Min,
    Max,
}

/// An expression. Parentheses are not in the tree.
#[derive(Debug, Drop)]
pub enum Expr {
    /// A number as the word of its digits without the point, and how many digits follow the point.
    Number {
        word: i64,
        decimals: u8,
    },
    Truth(bool),
    /// A parameter, state, local or input by its name. An event input that is absent has the word 0.
    Var(Name),
    /// `t`, the local time.
    Time,
    /// `h`, the local step.
    Step,
    Unary {
        op: UnOp,
        arg: Boxed<Expr>,
    },
    Binary {
        op: BinOp,
        left: Boxed<Expr>,
        right: Boxed<Expr>,
    },
    Clamp {
        value: Boxed<Expr>,
        low: Boxed<Expr>,
        high: Boxed<Expr>,
    },
    /// `if cond then yes else no`
    Choose {
        cond: Boxed<Expr>,
        yes: Boxed<Expr>,
        no: Boxed<Expr>,
    },
    /// `absent`: no event occurs. It is the whole expression of an event output, or a choice of an
    /// `if` that may be `absent`.
    Absent,
    /// `present(u)`: whether an event occurs at the event input `u`.
    Present(Name),
}
