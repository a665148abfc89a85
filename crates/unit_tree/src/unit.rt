ghost use Rattle.std.specs.Prelude.{◌≡◌};
ghost use Rattle.fixed_words.specs.Types.{AreDecimals};
ghost use Rattle.unit_tree.specs.Components.{start_word};

use crate::{Expr, Line, Name};
use fixed_words::{List, Literal, Ty, literal_word};

/// A constant of a unit, which each instance may set to another value.
#[derive(Debug, Drop)]
pub struct Param {
    pub name: Name,
    pub ty: Ty,
    pub start: Literal,
}

/// A variable that a component keeps from step to step, and its initial value.
#[derive(Debug, Drop)]
pub struct State {
    pub name: Name,
    pub ty: Ty,
    pub start: Literal,
}

/// A variable of one step, which has the word 0 at the beginning of every step.
#[derive(Debug, Drop)]
pub struct Local {
    pub name: Name,
    pub ty: Ty,
}

/// An input port, and the value that it has if nothing is connected to it.
#[derive(Debug, Drop)]
pub struct Input {
    pub name: Name,
    pub ty: Ty,
    pub start: Literal,
}

/// An output port. Its value may depend on the current values of no inputs but those in `needs`.
#[derive(Debug, Drop)]
pub struct Output {
    pub name: Name,
    pub ty: Ty,
    pub needs: List<Name>,
    pub value: Expr,
}

/// An event input: a port at which an event with a value occurs or not. It is absent if nothing is connected
/// to it.
#[derive(Debug, Drop)]
pub struct EventIn {
    pub name: Name,
    pub ty: Ty,
}

/// An event output: its value, or `absent`. It may depend on the current values of no inputs but those in
/// `needs`.
#[derive(Debug, Drop)]
pub struct EventOut {
    pub name: Name,
    pub ty: Ty,
    pub needs: List<Name>,
    pub value: Expr,
}

/// A component model.
///
/// The event ports come after the plain ones wherever ports are counted or listed.
#[derive(Debug, Drop)]
pub struct Unit {
    pub name: Name,
    /// One local tick is 10 to the power of minus this number, in seconds, from 0 to 9. Without it, a local
    /// tick is one second.
    pub resolution: Option<u8>,
    pub params: List<Param>,
    pub states: List<State>,
    pub locals: List<Local>,
    pub inputs: List<Input>,
    /// Only in version 2 of the language.
    pub events_in: List<EventIn>,
    pub outputs: List<Output>,
    /// Only in version 2 of the language.
    pub events_out: List<EventOut>,
    /// The longest step that the component accepts, in local ticks. Without it, there is no limit.
    pub max: Option<Expr>,
    /// What a step does. Without it, a step keeps the state and accepts its whole length.
    pub step: Option<List<Line>>,
}

/// The start word of a declaration: the word of its literal as a value of the type; 0 where it has none.
pub fn start_word(ty: Ty, literal: Literal) -> i64
    requires { AreDecimals ty }
    ensures { result ≡ start_word ty literal }
{
    match literal_word(ty, literal) {
        Ok(word) => word,
        Err(_) => 0,
    }
}
