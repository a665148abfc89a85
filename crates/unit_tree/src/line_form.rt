ghost use Rattle.std.specs.Prelude.{◌≡◌};
ghost use Rattle.unit_tree.specs.LineForms.{speaks_of_events};

use crate::{
    EventIn, EventOut, Expr, Input, Local, Name, Output, Param, PortName, Setting, State, Wire,
};
use fixed_words::Literal;

/// The content of a line of a model text. Of a line that opens a block it is only the line itself.
/// The lines of the block follow it, up to the block's own [`End`](LineForm::End).
#[derive(Debug, Drop)]
pub enum LineForm {
    /// `cosim 1`, or `cosim 2`: the version of the language.
    Header(u8),
    /// `unit A`, which opens a block.
    Unit(Name),
    /// `resolution E`: a local tick is 10^-E seconds, with E from 0 to 9.
    Resolution(u8),
    /// `param p : T = L`
    Param(Param),
    /// `state s : T = L`
    State(State),
    /// `local x : T`
    Local(Local),
    /// `input u : T = L`
    Input(Input),
    /// `event input u : T`
    EventInput(EventIn),
    /// `output y : T = e`, or `output y : T needs u, v = e`
    Output(Output),
    /// `event output y : T = e`, or `event output y : T needs u, v = e`
    EventOutput(EventOut),
    /// `max e`
    Max(Expr),
    /// `step`, which opens a block.
    Step,
    /// `end`
    End,
    /// `x := e`
    Assign { target: Name, value: Expr },
    /// `if e`, which opens a block.
    If(Expr),
    /// `else`
    Else,
    /// `repeat K`, which opens a block that is run K times, from 1 to 1,000.
    Repeat(u32),
    /// `accept e`
    Accept(Expr),
    /// `instance a : A`, which opens a block.
    Instance { name: Name, unit: Name },
    /// `p = L`
    Setting(Setting),
    /// `connect a.y -> b.u`
    Connect(Wire),
    /// `stop S`, in seconds.
    Stop(Literal),
    /// `longest S`, in seconds.
    Longest(Literal),
    /// `zero Z`, from 0 to 10,000.
    Zero(u32),
    /// `rows R`, from 1 to 100,000.
    Rows(u32),
    /// `sample a.y`
    Sample(PortName),
}

/// Whether `absent` or `present` occurs in an expression.
pub fn speaks_of_events(expr: &Expr) -> bool
    ensures { result ≡ speaks_of_events expr.now }
{
    match expr {
        Expr::Absent | Expr::Present(_) => true,
        Expr::Unary { arg, .. } => speaks_of_events(arg.get()),
        Expr::Binary { left, right, .. } => {
            speaks_of_events(left.get()) || speaks_of_events(right.get())
        }
        Expr::Clamp { value, low, high } => {
            speaks_of_events(value.get())
                || speaks_of_events(low.get())
                || speaks_of_events(high.get())
        }
        Expr::Choose { cond, yes, no } => {
            speaks_of_events(cond.get())
                || speaks_of_events(yes.get())
                || speaks_of_events(no.get())
        }
        _ => false,
    }
}
