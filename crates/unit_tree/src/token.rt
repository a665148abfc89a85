ghost use Rattle.std.specs.Prelude.{◌≡◌};
ghost use Rattle.unit_tree.specs.Tokens.{is_letter, is_word_byte, begins_with, keyword_text, symbol_text};

use crate::Name;

/// A reserved word, which cannot be a name.
#[derive(Clone, Copy, Debug, PartialEq, Eq)]
pub enum Keyword {
    Cosim,
    Unit,
    Resolution,
    Param,
    State,
    Local,
    Input,
    Output,
    Needs,
    Max,
    Step,
    Repeat,
    Accept,
    End,
    Instance,
    Connect,
    Stop,
    Longest,
    Zero,
    Rows,
    Sample,
    If,
    Then,
    Else,
    And,
    Or,
    Not,
    Div,
    Mod,
    Abs,
    Min,
    Clamp,
    Int,
    Fix,
    True,
    False,
    /// `t`, the local time.
    Time,
    /// `h`, the local step.
    Length,
    Event,
    Present,
    Absent,
}

impl Keyword {
    /// The word as it is written.
    pub fn text(self) -> &'static [u8]
        ensures { result.now ≡ keyword_text self }
    {
        match self {
            Keyword::Cosim => b"cosim",
            Keyword::Unit => b"unit",
            Keyword::Resolution => b"resolution",
            Keyword::Param => b"param",
            Keyword::State => b"state",
            Keyword::Local => b"local",
            Keyword::Input => b"input",
            Keyword::Output => b"output",
            Keyword::Needs => b"needs",
            Keyword::Max => b"max",
            Keyword::Step => b"step",
            Keyword::Repeat => b"repeat",
            Keyword::Accept => b"accept",
            Keyword::End => b"end",
            Keyword::Instance => b"instance",
            Keyword::Connect => b"connect",
            Keyword::Stop => b"stop",
            Keyword::Longest => b"longest",
            Keyword::Zero => b"zero",
            Keyword::Rows => b"rows",
            Keyword::Sample => b"sample",
            Keyword::If => b"if",
            Keyword::Then => b"then",
            Keyword::Else => b"else",
            Keyword::And => b"and",
            Keyword::Or => b"or",
            Keyword::Not => b"not",
            Keyword::Div => b"div",
            Keyword::Mod => b"mod",
            Keyword::Abs => b"abs",
            Keyword::Min => b"min",
            Keyword::Clamp => b"clamp",
            Keyword::Int => b"int",
            Keyword::Fix => b"fix",
            Keyword::True => b"true",
            Keyword::False => b"false",
            Keyword::Time => b"t",
            Keyword::Length => b"h",
            Keyword::Event => b"event",
            Keyword::Present => b"present",
            Keyword::Absent => b"absent",
        }
    }
}

/// A symbol of the language.
#[derive(Clone, Copy, Debug, PartialEq, Eq)]
pub enum Symbol {
    /// `:=`
    Assign,
    /// `->`
    Arrow,
    /// `==`
    Equals,
    /// `!=`
    Differs,
    /// `<=`
    AtMost,
    /// `>=`
    AtLeast,
    Colon,
    /// `=`
    Is,
    Less,
    Greater,
    Plus,
    Minus,
    Star,
    Slash,
    Open,
    Close,
    Comma,
    Point,
}

impl Symbol {
    /// The symbol as it is written.
    pub fn text(self) -> &'static [u8]
        ensures { result.now ≡ symbol_text self }
    {
        match self {
            Symbol::Assign => b":=",
            Symbol::Arrow => b"->",
            Symbol::Equals => b"==",
            Symbol::Differs => b"!=",
            Symbol::AtMost => b"<=",
            Symbol::AtLeast => b">=",
            Symbol::Colon => b":",
            Symbol::Is => b"=",
            Symbol::Less => b"<",
            Symbol::Greater => b">",
            Symbol::Plus => b"+",
            Symbol::Minus => b"-",
            Symbol::Star => b"*",
            Symbol::Slash => b"/",
            Symbol::Open => b"(",
            Symbol::Close => b")",
            Symbol::Comma => b",",
            Symbol::Point => b".",
        }
    }
}

/// Whether a byte may begin a word: a letter or `_`.
pub fn is_letter(byte: u8) -> bool
    ensures { result ≡ is_letter byte }
{
    byte.is_ascii_alphabetic() || byte == b'_'
}

/// Whether a byte may be in a word: a letter, a digit or `_`.
pub fn is_word_byte(byte: u8) -> bool
    ensures { result ≡ is_word_byte byte }
{
    byte.is_ascii_alphanumeric() || byte == b'_'
}

/// Whether there is a first byte and it may be in a word.
pub fn begins_with_word_byte(bytes: &[u8]) -> bool
    ensures { result ≡ begins_with is_word_byte bytes.now }
{
    match bytes {
        [] => false,
        [first, ..] => is_word_byte(*first),
    }
}

/// A token of a line.
#[derive(Debug, Drop)]
pub enum Token {
    Keyword(Keyword),
    /// A word that is not reserved.
    Name(Name),
    /// A number as its digits without the point, at most 2^63, and how many of them follow the
    /// point, at most 9. It is 2^63 only after the `-` of a literal.
    Number { digits: u64, decimals: u8 },
    Symbol(Symbol),
}
