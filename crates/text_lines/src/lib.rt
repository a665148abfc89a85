//! Reading of one line of a model text: what is known by its bytes, its form, and the expression on it.
//!
//! The layer above uses [`look_at`] (whether a line breaks a rule by its bytes, is blank, or has code),
//! [`form_of_line`] (the form of a line with code, or that it has none), [`is_of_version_2`], [`code`] (a line without its
//! comment), [`is_blank`], and the laws: a line has at most one form ([`lines_have_one_form`]), and tokens write at most
//! one expression ([`tokens_write_one_expression`]).
//!
//! Definitions: `Tokens`, `Phrases` and `LineForms` of `unit_tree`. How the code reads is defined in
//! `specs/Expressions.antt` (an expression from its tokens) and `specs/LineReading.antt` (the form of a line).
#![tactic(auto)]

mod expressions;
mod laws;
mod line_forms;
mod lines;
mod versions;

pub use expressions::{expression, tokens_write_one_expression};
pub use laws::lines_have_one_form;
pub use line_forms::{form_of_line, line_form};
pub use lines::{LineClass, code, is_blank, is_blank_line, look_at, without_return};
pub use versions::{VERSION_2, is_of_version_2};
