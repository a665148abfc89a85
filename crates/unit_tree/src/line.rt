use crate::{Expr, Name};
use fixed_words::List;

/// A line of a unit's `step`, with the lines of its block.
#[derive(Debug, Drop)]
pub enum Line {
    /// `target := value`
    Assign {
        target: Name,
        value: Expr,
    },
    If {
        cond: Expr,
        yes: List<Line>,
        no: Option<List<Line>>,
    },
    /// `count` times the body, from 1 to 1,000.
    Repeat {
        count: u32,
        body: List<Line>,
    },
    Accept {
        value: Expr,
    },
}
