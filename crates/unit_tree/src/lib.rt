//! The trees of a system, and what they mean.
//!
//! A [`System`] is the content of a model text: units (component models) with parameters, states, inputs, outputs and
//! step lines, instances of them, and connections between their ports. All of it is plain data to contracts: two
//! systems are equal exactly where their trees are.
//!
//! The definitions that every layer above uses are in `specs/`.
//!
//! - What a tree means: `Kinds` (which operands an operation takes), `Values` (the value of an expression), `Effects`
//!   (what step lines do), `Costs` (the static cost of a call) and `Components` (initial state, get, max and step of a
//!   unit).
//! - What a run of it is: `Compositions` (what is run, by numbers), `Ports` (port assignment), `Negotiation` (proposed
//!   step, reply, agreed step), `Successor` and `Trace` (the one trace of a system). `Routes` and `Given` state the
//!   same for calls by numbers.
//! - How a system is written: `Lines` and `Tokens` (how a text is split), `Phrases` (the grammar of expressions, whose
//!   levels are [`levels`] in code), `LineForms` (the forms of lines, each a [`LineForm`]), `Blocks` (where a form is
//!   allowed), `Parts` and `Texts` (which system a text has, and where any other text is refused), `Canonical` and
//!   `Printable` (the one canonical text of a system).
//! - Which systems may run: `Names`, `Sites` and `WellFormed` (the lines that break each rule), and `Orders` (outputs
//!   without a cycle).
//!
//! The laws of these definitions are in `language_laws` and `run_laws`. `worked_facts` proves that they give the
//! results of small cases that were worked out by hand.
#![tactic(auto)]

mod checked;
mod effects;
mod ending;
mod environment;
mod evaluate;
mod expr;
mod gets;
pub mod levels;
mod line;
mod line_form;
mod order;
mod system;
mod token;
mod unit;

pub use checked::Checked;
pub use effects::run_lines;
pub use ending::{Ending, Place};
pub use environment::{Environment, Value, Variable};
pub use evaluate::{kind_of_number, value};
pub use expr::{BinOp, Expr, UnOp};
use fixed_words::List;
pub use gets::Gets;
pub use line::Line;
pub use line_form::{LineForm, speaks_of_events};
pub use order::{InputAt, Order, Route, Routes, StartWord};
pub use super_time::Point;
pub use system::{Column, Instance, PortName, Setting, System, Wire};
pub use token::{Keyword, Symbol, Token, begins_with_word_byte, is_letter, is_word_byte};
pub use unit::{EventIn, EventOut, Input, Local, Output, Param, State, Unit, start_word};

/// A name as its bytes: an identifier of at most 32 bytes that is not reserved.
pub type Name = List<u8>;
