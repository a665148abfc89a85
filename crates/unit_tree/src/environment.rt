use crate::Name;
use fixed_words::{Kind, List, Ty};

/// A word, with its kind, as the value of an expression.
#[derive(Clone, Copy, Debug, PartialEq, Eq)]
pub struct Value {
    pub kind: Kind,
    pub word: i64,
}

/// A parameter, state, local or input, with its name and type, as expressions and step lines read it.
#[derive(Debug, Drop)]
pub struct Variable {
    pub name: Name,
    pub ty: Ty,
}

/// What expressions and step lines of a component can read: its variables with their words, the local
/// time `t`, the local step `h`, and the accepted length. The accepted length is `h` until a line
/// accepts another length.
#[derive(Debug, Drop)]
pub struct Environment {
    pub variables: List<Variable>,
    /// The words that the variables have now, one each.
    pub words: List<i64>,
    /// In local ticks.
    pub time: u64,
    /// In local ticks.
    pub step: u64,
    /// In local ticks, at most `step`.
    pub accepted: u64,
}
