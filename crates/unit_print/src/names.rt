//! Names: words that are not reserved.
ghost use Rattle.std.specs.Prelude.{◌≡◌, ◌&&◌, nat_lt, length};
ghost use Rattle.std.specs.List.{list_all};
ghost use Rattle.unit_tree.specs.Tokens.{is_word_byte};
ghost use Rattle.unit_print.specs.Fitting.{is_word, reserved_words, is_reserved, is_name};
ghost use Rattle.model_rules.specs.Limits.{name_limit};

use model_rules::LONGEST_NAME;
use unit_tree::{Keyword, is_letter, is_word_byte};

fn are_word_bytes(bytes: &[u8]) -> bool
    ensures { result ≡ list_all is_word_byte bytes.now }
{
    bytes.iter().all(|byte| is_word_byte(*byte))
}

/// Whether bytes are allowed after the first byte of a word.
fn goes_on(others: &[u8]) -> bool
    ensures { result ≡ (list_all is_word_byte others.now && nat_lt (length others.now) name_limit) }
{
    are_word_bytes(others) && others.len() < LONGEST_NAME
}

/// Whether a text is a word of the language, a reserved one too: a letter, then letters, digits and `_`, at most 32 bytes.
pub fn is_word(text: &[u8]) -> bool
    ensures { result ≡ is_word text.now }
{
    match text {
        [] => false,
        [first, others @ ..] => is_letter(*first) && goes_on(others),
    }
}

fn reserved_words() -> &'static [Keyword]
    ensures { result.now ≡ reserved_words }
{
    &[
        Keyword::Cosim,
        Keyword::Unit,
        Keyword::Resolution,
        Keyword::Param,
        Keyword::State,
        Keyword::Local,
        Keyword::Input,
        Keyword::Output,
        Keyword::Needs,
        Keyword::Max,
        Keyword::Step,
        Keyword::Repeat,
        Keyword::Accept,
        Keyword::End,
        Keyword::Instance,
        Keyword::Connect,
        Keyword::Stop,
        Keyword::Longest,
        Keyword::Zero,
        Keyword::Rows,
        Keyword::Sample,
        Keyword::If,
        Keyword::Then,
        Keyword::Else,
        Keyword::And,
        Keyword::Or,
        Keyword::Not,
        Keyword::Div,
        Keyword::Mod,
        Keyword::Abs,
        Keyword::Min,
        Keyword::Clamp,
        Keyword::Int,
        Keyword::Fix,
        Keyword::True,
        Keyword::False,
        Keyword::Time,
        Keyword::Length,
        Keyword::Event,
        Keyword::Present,
        Keyword::Absent,
    ]
}

#[tactic(auto, unfolding(crate::specs::Fitting::is_reserved))]
fn is_reserved(text: &[u8]) -> bool
    ensures { result ≡ is_reserved text.now }
{
    reserved_words()
        .iter()
        .any(|reserved| text == reserved.text())
}

/// Whether a text is a name.
#[tactic(auto, unfolding(crate::specs::Fitting::is_name))]
pub(crate) fn is_name(text: &[u8]) -> bool
    ensures { result ≡ is_name text.now }
{
    is_word(text) && !is_reserved(text)
}
