//! Words and their types: the values of a simulation, and what the operations on them give.
//!
//! A word is a signed 64-bit integer, which contracts see as an integer (`ℤ`). A [`Ty`] states which
//! words a variable may hold and how they are written. A [`Fault`] is what an operation gives where it
//! has no word. The crate also has [`List`] and [`Boxed`], a `Vec` and a `Box` that contracts see as
//! what they hold, so that trees of them are plain data.
//!
//! The layers above use all that is named here. [`read_literal`], [`literal_word`], [`fits`] and the
//! operations take no memory; [`word_text`] and [`magnitude_text`] take only what their buffer grows by.
//!
//! Definitions: `specs/Types.antt` (kinds, ranges, fits), `specs/Operations.antt` (the integer that
//! each operation means, or its fault), `specs/Digits.antt` (numbers as text), `specs/Literals.antt`
//! (how a literal is spelled, and its word as a value of a type), `specs/Texts.antt` (how a word is
//! written), `specs/Laws.antt` (quotients are floors, a text spells one literal, texts are read back).
#![tactic(auto)]

mod boxed;
mod digits;
mod laws;
mod list;
mod literals;
mod operations;
mod text;
mod types;

pub use boxed::Boxed;
pub use laws::{quotients_are_floors, texts_are_read_back, texts_spell_one_literal};
pub use list::List;
pub use literals::{literal_word, read_literal, signed_word};
pub use operations::{
    abs, add, div, fix_div, fix_mul, mul, neg, rem, scale_down, scale_up, sub, ten_to_the,
};
pub use text::{magnitude_text, word_text};
pub use types::{Fault, Kind, Literal, LiteralFault, Ty, fits, range};

/// There is no memory, as an error.
pub type NoMemory = std::alloc::AllocError;
