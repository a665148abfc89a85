ghost use Rattle.std.specs.Prelude.{◌≡◌};

use fixed_words::NoMemory;

/// Why a part of a text was not read.
#[derive(Clone, Copy, Debug, PartialEq, Eq)]
pub enum Unread {
    /// It has none of the forms of the language.
    NoForm,
    NoMemory,
}

impl From<NoMemory> for Unread {
    ghost use Rattle.text_tokens.specs.declared.fault.Unread.TheVariants.{NoMemory};

    ghost from_gives = { λ _ unread. unread ≡ NoMemory };

    fn from(_: NoMemory) -> Unread {
        Unread::NoMemory
    }
}
