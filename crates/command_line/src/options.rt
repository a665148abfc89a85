//! The options of a command line: in any order, each at most once, its value in the next word.
ghost use Rattle.std.specs.Prelude.{◌≡◌, ◌<◌, ◌≤◌, ◌∷◌, [], length};
ghost use Rattle.std.specs.Option.{option_and_then};
ghost use Rattle.command_line.specs.Laws.{OptionsHaveNoOrder, OtherWordsHaveNoForm, PartsHaveNoOrder};
ghost use Rattle.command_line.specs.Options.{given_by, is_given_none, number_behind, number_of_word, policy_named, option_of, options_of, with_all, with_one};
ghost use Rattle.command_line.specs.Words.{bytes_of};

use guess_board::Policy;

/// One option, with its value where it has one.
#[derive(Clone, Copy, Debug)]
pub enum CommandOption {
    /// `--workers N`
    Workers(u64),
    /// `--window N`
    Window(u64),
    /// `--guess hold` or `--guess linear`
    Guess(Policy),
    /// `--seed N`
    Seed(u64),
    /// `--instances N`
    Instances(u64),
    /// `--rows N`
    Rows(u64),
    /// `--row N`
    Row(u64),
    /// `--rounds N`
    Rounds(u64),
    /// `--report`
    Report,
}

/// The options that were given.
#[derive(Clone, Copy, Debug, PartialEq, Eq)]
pub struct Given {
    pub workers: Option<u64>,
    pub window: Option<u64>,
    pub guess: Option<Policy>,
    pub seed: Option<u64>,
    pub instances: Option<u64>,
    pub rows: Option<u64>,
    pub row: Option<u64>,
    pub rounds: Option<u64>,
    pub report: bool,
}

impl Given {
    /// No option.
    pub(crate) const NONE: Given = Given {
        workers: None,
        window: None,
        guess: None,
        seed: None,
        instances: None,
        rows: None,
        row: None,
        rounds: None,
        report: false,
    };

    /// Returns whether no option was given.
    pub(crate) fn is_none(self) -> bool
        ensures { result ≡ is_given_none self }
    {
        self.workers.is_none()
            && self.window.is_none()
            && self.guess.is_none()
            && self.seed.is_none()
            && self.instances.is_none()
            && self.rows.is_none()
            && self.row.is_none()
            && self.rounds.is_none()
            && !self.report
    }

    /// Returns these options with one more, or `None` where one of its kind was given before.
    fn with(self, option: CommandOption) -> Option<Given>
        ensures { result ≡ with_one self option }
    {
        match option {
            CommandOption::Workers(number) => self.workers.is_none().then_some(Given {
                workers: Some(number),
                ..self
            }),
            CommandOption::Window(number) => self.window.is_none().then_some(Given {
                window: Some(number),
                ..self
            }),
            CommandOption::Guess(policy) => self.guess.is_none().then_some(Given {
                guess: Some(policy),
                ..self
            }),
            CommandOption::Seed(number) => self.seed.is_none().then_some(Given {
                seed: Some(number),
                ..self
            }),
            CommandOption::Instances(number) => self.instances.is_none().then_some(Given {
                instances: Some(number),
                ..self
            }),
            CommandOption::Rows(number) => self.rows.is_none().then_some(Given {
                rows: Some(number),
                ..self
            }),
            CommandOption::Row(number) => self.row.is_none().then_some(Given {
                row: Some(number),
                ..self
            }),
            CommandOption::Rounds(number) => self.rounds.is_none().then_some(Given {
                rounds: Some(number),
                ..self
            }),
            CommandOption::Report => (!self.report).then_some(Given {
                report: true,
                ..self
            }),
        }
    }
}

/// The most digits that a number may have.
const MOST_DIGITS: usize = 19;

/// Returns the number with one more digit, if the byte is one.
fn with_digit(number: u64, byte: u8) -> Option<u64>
    requires { number < 1_000_000_000_000_000_000 }
    ensures { result ≡ number_behind number (byte ∷ []) }
{
    if byte.is_ascii_digit() {
        Some(10 * number + u64::from(byte - b'0'))
    } else {
        None
    }
}

/// Returns the number that digits spell, or `None` where a byte is not a digit. Without bytes it is 0.
fn number_of_digits(digits: &[u8]) -> Option<u64>
    requires { length digits.now ≤ 19 }
    ensures { result ≡ number_behind 0 digits.now }
{
    let mut number = 0;
    for byte in digits {
        number = with_digit(number, *byte)?;
    }
    Some(number)
}

/// Returns the number that one to nineteen digits spell, or `None` for any other word. Leading zeros are allowed.
fn number(word: &[u8]) -> Option<u64>
    ensures { result ≡ number_of_word word.now }
{
    if word.is_empty() || word.len() > MOST_DIGITS {
        None
    } else {
        number_of_digits(word)
    }
}

/// Returns the policy of a name, or `None` where there is none.
fn policy_named(name: &str) -> Option<Policy>
    ensures { result ≡ policy_named name.now }
{
    if name == "hold" {
        Some(Policy::Hold)
    } else if name == "linear" {
        Some(Policy::Linear)
    } else {
        None
    }
}

/// Returns the option of a flag with the word after it, or `None` where it is not a flag, or the word is not a value of it.
#[tactic(auto, unfolding(crate::specs::Options::option_of))]
fn option_of(flag: &str, word: &str) -> Option<CommandOption>
    ensures { result ≡ option_of flag.now word.now }
{
    if flag == "--workers" {
        Some(CommandOption::Workers(number(word.as_bytes())?))
    } else if flag == "--window" {
        Some(CommandOption::Window(number(word.as_bytes())?))
    } else if flag == "--guess" {
        Some(CommandOption::Guess(policy_named(word)?))
    } else if flag == "--seed" {
        Some(CommandOption::Seed(number(word.as_bytes())?))
    } else if flag == "--instances" {
        Some(CommandOption::Instances(number(word.as_bytes())?))
    } else if flag == "--rows" {
        Some(CommandOption::Rows(number(word.as_bytes())?))
    } else if flag == "--row" {
        Some(CommandOption::Row(number(word.as_bytes())?))
    } else if flag == "--rounds" {
        Some(CommandOption::Rounds(number(word.as_bytes())?))
    } else {
        None
    }
}

/// Returns these options with those of words after them. `None` where some word is not of an option, or two options are of a kind.
/// Each turn adds an option, and each may be there once, so there are few turns.
fn given_behind(given: Given, words: &[String]) -> Option<Given>
    ensures { result ≡ option_and_then (with_all given) (options_of (bytes_of words.now)) }
{
    match words {
        [] => Some(given),
        [flag, rest @ ..] if flag.as_str() == "--report" => {
            given_behind(given.with(CommandOption::Report)?, rest)
        }
        [flag, word, rest @ ..] => {
            given_behind(given.with(option_of(flag.as_str(), word.as_str())?)?, rest)
        }
        _ => None,
    }
}

/// Returns the options of words, or `None` where some word is not of an option, or two options are of a kind.
pub(crate) fn given_by(words: &[String]) -> Option<Given>
    ensures { result ≡ given_by (bytes_of words.now) }
{
    given_behind(Given::NONE, words)
}

/// A law: the order of options doesn't matter, in the same words or in others. Words that are not options have no form in any order.
pub fn options_have_no_order()
    ensures parts { PartsHaveNoOrder }
    ensures options { OptionsHaveNoOrder }
    ensures others { OtherWordsHaveNoForm }
{}
