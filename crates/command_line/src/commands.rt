//! Commands, and their words.
ghost use Rattle.std.specs.Prelude.{◌≡◌};
ghost use Rattle.command_line.specs.Commands.{KeepsRanges, command_of, command_with, generation_of, has_workers, input_of, without_options};
ghost use Rattle.command_line.specs.Words.{bytes_of};
ghost use Rattle.command_line.specs.WorkedWords.{CommandsAreWorked, NumbersAreWorked, OptionsAreWorked, RangesAreWorked};

use crate::generation::Generation;
use crate::options::{Given, given_by};
use crate::replaying::{Replaying, replaying_of};
use crate::running::{Running, running_of};
use crate::saving::{Saving, saving_of};
use crate::splitting::{Splitting, splitting_of};
use model_rules::LONGEST_TEXT;

/// A command of the program, with its options.
#[derive(Clone, Copy, Debug, PartialEq, Eq)]
pub enum Command {
    /// Writes the trace of the text's system.
    Run(Running),
    /// Answers whether the text keeps all rules.
    Check,
    /// Writes the canonical text of the text's system.
    Print,
    /// Writes the canonical text of the text's system in version 2 of the language.
    Upgrade,
    /// Writes the trace of the text's system, from a world in which a seed draws the events of the workers.
    Replay(Replaying),
    /// Writes the canonical text of a generated system.
    Gen(Generation),
    /// Runs a generated system, and writes figures of its trace.
    Bench(Generation),
    /// Writes the saved text of a position of the text's trace.
    Save(Saving),
    /// Writes the rows of a run that continues from the position that the text saves.
    Resume,
    /// Answers whether the table after the text is the trace of the text's system.
    Verify,
    /// Writes the canonical text of a system that has the words of a table at its times.
    Stimulus,
    /// Writes the canonical text of the flat system of a nested text.
    Flatten,
    /// Writes the rows that the first of two nodes commits. The nodes exchange facts over a link that loses some of them.
    Nodes(Splitting),
}

/// The greatest number of bytes that `resume` reads.
const LONGEST_SAVED: usize = 2_097_152;

/// The greatest number of bytes that `verify` reads.
const LONGEST_VERIFIED: usize = 67_108_864;

/// The greatest number of bytes that `stimulus` reads.
const LONGEST_STIMULUS: usize = 1_048_576;

impl Command {
    /// Returns the greatest number of bytes that it reads, or `None` where it reads nothing.
    pub fn input(&self) -> Option<usize>
        ensures input { result ≡ input_of self.now }
        ensures ranges { KeepsRanges self.now }
    {
        match self {
            Command::Run(_)
            | Command::Check
            | Command::Print
            | Command::Upgrade
            | Command::Replay(_)
            | Command::Save(_)
            | Command::Flatten
            | Command::Nodes(_) => Some(LONGEST_TEXT),
            Command::Resume => Some(LONGEST_SAVED),
            Command::Verify => Some(LONGEST_VERIFIED),
            Command::Stimulus => Some(LONGEST_STIMULUS),
            Command::Gen(_) => None,
            Command::Bench(asked) => {
                // Called for its clauses, which state that its numbers are in their ranges.
                let _ = asked.instances();
                None
            }
        }
    }

    /// Returns whether it is run with workers.
    pub fn has_workers(&self) -> bool
        ensures { result ≡ has_workers self.now }
    {
        match self {
            Command::Run(asked) => asked.workers.get() >= 1,
            Command::Bench(_) => true,
            _ => false,
        }
    }
}

/// Returns a command where no option was given, and otherwise `None`. For a command with options, `given` has the other options: those
/// that its row doesn't name.
pub(crate) fn without_options<T: Copy>(command: T, given: Given) -> Option<T>
    ensures { result ≡ without_options command given }
{
    if given.is_none() { Some(command) } else { None }
}

/// Returns the generated system that a command asks for, where no other options are given.
fn generation_of(given: Given) -> Option<Generation>
    ensures { result ≡ generation_of given }
{
    let left = Given {
        seed: None,
        instances: None,
        rows: None,
        ..given
    };
    without_options(Generation::asked(given)?, left)
}

/// Returns the command of a word with the given options, or `None` where there is none. There is a row for each command, with the
/// options that it takes.
fn command_with(word: &str, given: Given) -> Option<Command>
    ensures { result ≡ command_with word.now given }
{
    if word == "run" {
        Some(Command::Run(running_of(given)?))
    } else if word == "check" {
        without_options(Command::Check, given)
    } else if word == "print" {
        without_options(Command::Print, given)
    } else if word == "upgrade" {
        without_options(Command::Upgrade, given)
    } else if word == "replay" {
        Some(Command::Replay(replaying_of(given)?))
    } else if word == "gen" {
        Some(Command::Gen(generation_of(given)?))
    } else if word == "bench" {
        Some(Command::Bench(generation_of(given)?))
    } else if word == "save" {
        Some(Command::Save(saving_of(given)?))
    } else if word == "resume" {
        without_options(Command::Resume, given)
    } else if word == "verify" {
        without_options(Command::Verify, given)
    } else if word == "stimulus" {
        without_options(Command::Stimulus, given)
    } else if word == "flatten" {
        without_options(Command::Flatten, given)
    } else if word == "nodes" {
        Some(Command::Nodes(splitting_of(given)?))
    } else {
        None
    }
}

/// Returns the command of some words, or `None` where they have no form.
pub fn command_of(words: &[String]) -> Option<Command>
    ensures { result ≡ command_of (bytes_of words.now) }
{
    match words {
        [] => None,
        [word, options @ ..] => command_with(word.as_str(), given_by(options)?),
    }
}

/// A law: by the definitions, words that were worked out by hand are the right numbers, give the right options and are of the right
/// commands; and a number is in a range where it should be.
pub fn words_are_worked()
    ensures numbers { NumbersAreWorked }
    ensures ranges { RangesAreWorked }
    ensures options { OptionsAreWorked }
    ensures commands { CommandsAreWorked }
{}
