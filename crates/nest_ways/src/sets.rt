//! Sets of numbers, as words of 64 bits.
ghost use Rattle.std.specs.Prelude.{◌≡◌, ◌↔◌, ◌⊎◌, ◌+◌, ◌<◌, ◌≤◌, ℕ, [], drop, length, Some, IfOk, IsTrue, OnOk, slice_get};
ghost use Rattle.nest_ways.specs.Sets.{HasAt, HasNumber, HasRoomFor, HasRoomForGroup, HasRoomForWords, HasSame, IsEmpty, IsInWord, IsTrimmed};
ghost use Rattle.nest_ways.specs.declared.sets.SetWord.{SetWord as SetWords};

use crate::numbers::MOST_NUMBERS;
use fixed_words::NoMemory;
use nest_names::at;
use smallvec::SmallVec;
use std::alloc::Global;

/// How many numbers a word is for.
pub(crate) const WORD_BITS: u32 = 64;

/// Which of the numbers below 64 are in a set.
#[derive(Clone, Copy)]
pub struct SetWord {
    bits: u64,
}

/// What a short list has at a place without a word.
impl Default for SetWord {
    fn default() -> SetWord {
        SetWord::empty()
    }
}

impl SetWord {
    /// None of the numbers.
    pub(crate) fn empty() -> SetWord
        ensures { IsEmpty result }
    {
        SetWord { bits: 0 }
    }

    /// Whether it has none of the numbers.
    fn is_empty(self) -> bool
        ensures { IsTrue result ↔ IsEmpty self }
    {
        self.bits == 0
    }

    /// Whether a number is in the set.
    pub(crate) fn has(self, number: u32) -> bool
        ensures { IsTrue result ↔ IsInWord self number }
    {
        if number >= WORD_BITS {
            return false;
        }
        self.bits & (1 << number) != 0
    }

    /// The set with one more number, if it is below 64.
    pub(crate) fn with(self, number: u32) -> SetWord
        ensures there { number < 64 → IsInWord result number }
        ensures still { (one : ℕ) → IsInWord self one → IsInWord result one }
        ensures only { (one : ℕ) → IsInWord result one → (one ≡ number) ⊎ IsInWord self one }
    {
        if number >= WORD_BITS {
            return self;
        }
        let bits = self.bits | (1 << number);
        SetWord { bits }
    }

    /// Whether all its numbers are in another word.
    fn is_within(self, other: SetWord) -> bool
        ensures { IsTrue result ↔ ((number : ℕ) → IsInWord self number → IsInWord other number) }
    {
        self.bits | other.bits == other.bits
    }

    /// The numbers of both.
    fn joined(self, other: SetWord) -> SetWord
        ensures { (number : ℕ) → IsInWord result number ↔ (IsInWord self number ⊎ IsInWord other number) }
    {
        let bits = self.bits | other.bits;
        SetWord { bits }
    }
}

/// How many words are stored in the set itself.
const FEW_WORDS: usize = 3;

/// The most words for the numbers of one group.
const MOST_WORDS: usize = MOST_NUMBERS / 64 + 1;

/// The words of a set, in turn.
type Words = SmallVec<SetWord, FEW_WORDS>;

/// A set of numbers.
#[derive(Drop)]
pub struct NumberSet {
    /// How many words of lower numbers are left out. The set has none of these numbers.
    start: usize,
    words: Words,
}

/// The word at a place, or an empty one.
fn word_at(words: &[SetWord], place: usize) -> SetWord
    ensures { (bit : ℕ) → IsInWord result bit ↔ HasAt words.now place bit }
{
    match at(words, place) {
        Some(word) => *word,
        None => SetWord::empty(),
    }
}

/// Adds empty words at the end until there is one at the place.
fn grow_to(words: &mut Words, place: usize) -> Result<(), NoMemory>
    ensures still { OnOk result ((at bit : ℕ) → HasAt words.old.items at bit → HasAt words.new.items at bit) }
    ensures only { OnOk result ((at bit : ℕ) → HasAt words.new.items at bit → HasAt words.old.items at bit) }
    ensures long { OnOk result (place < length words.new.items) }
{
    for _ in words.len()..=place {
        words.push(SetWord::empty())?;
    }
    Ok(())
}

/// Sets a bit of the word at a place.
fn put_bit(words: &mut Words, place: usize, bit: u32)
    requires { place < length words.old.items }
    ensures there { bit < 64 → HasAt words.new.items place bit }
    ensures still { (at one : ℕ) → HasAt words.old.items at one → HasAt words.new.items at one }
    ensures only { (at one : ℕ) → HasAt words.new.items at one → ((at ≡ place) × (one ≡ bit)) ⊎ HasAt words.old.items at one }
{
    if let Some(word) = words.get_mut(place) {
        *word = word.with(bit);
    }
}

/// Adds the bits of a word to those of the word at a place.
fn put_word(words: &mut Words, place: usize, more: SetWord)
    requires { place < length words.old.items }
    ensures there { (bit : ℕ) → IsInWord more bit → HasAt words.new.items place bit }
    ensures still { (at bit : ℕ) → HasAt words.old.items at bit → HasAt words.new.items at bit }
    ensures only { (at bit : ℕ) → HasAt words.new.items at bit → ((at ≡ place) × IsInWord more bit) ⊎ HasAt words.old.items at bit }
{
    if let Some(word) = words.get_mut(place) {
        *word = word.joined(more);
    }
}

/// How many words are empty before the first that isn't.
fn empty_before(words: &[SetWord]) -> usize
    ensures least { (place bit : ℕ) → HasAt words.now place bit → result ≤ place }
    ensures first { (word : SetWords) → slice_get words.now result ≡ Some word → IsEmpty word → ⊥ }
    ensures within { result ≤ length words.now }
{
    for (place, word) in words.iter().enumerate() {
        if !word.is_empty() {
            return place;
        }
    }
    words.len()
}

/// Whether all words before a place are empty.
fn are_empty_before(words: &[SetWord], place: usize) -> bool
    ensures { IsTrue result ↔ ((at bit : ℕ) → HasAt words.now at bit → place ≤ at) }
{
    let empty = empty_before(words);
    empty >= place || empty == words.len()
}

/// The words from a place on.
fn words_from(words: &[SetWord], place: usize) -> &[SetWord]
    ensures { result.now ≡ drop place words.now }
{
    if place >= words.len() {
        return &[];
    }
    words.split_at(place).1
}

/// Whether all numbers of words are in other words, at the same places.
fn are_within(ones: &[SetWord], others: &[SetWord]) -> bool
    ensures { IsTrue result ↔ ((place bit : ℕ) → HasAt ones.now place bit → HasAt others.now place bit) }
{
    for (place, word) in ones.iter().enumerate() {
        if !word.is_within(word_at(others, place)) {
            return false;
        }
    }
    true
}

impl NumberSet {
    /// Returns an empty set, with room for numbers from `first` on.
    pub(crate) fn new(alloc: Global, first: usize) -> NumberSet
        ensures none { (number : ℕ) → HasNumber result number → ⊥ }
        ensures room { (number : ℕ) → first ≤ number → HasRoomFor result number }
    {
        NumberSet {
            start: first / 64,
            words: SmallVec::new(alloc),
        }
    }

    /// Adds a number.
    pub(crate) fn put(&mut self, number: usize) -> Result<(), NoMemory>
        requires { HasRoomFor self.old number }
        ensures there { OnOk result (HasNumber self.new number) }
        ensures still { OnOk result ((one : ℕ) → HasNumber self.old one → HasNumber self.new one) }
        ensures only { OnOk result ((one : ℕ) → HasNumber self.new one → (one ≡ number) ⊎ HasNumber self.old one) }
        ensures room { OnOk result ((one : ℕ) → HasRoomFor self.old one → HasRoomFor self.new one) }
    {
        let place = number / 64 - self.start;
        grow_to(&mut self.words, place)?;
        put_bit(&mut self.words, place, (number % 64) as u32);
        Ok(())
    }

    /// The same numbers, without the empty words in front. Some of these stay only where the start would be no `usize`.
    pub(crate) fn trimmed(&self) -> Result<NumberSet, NoMemory>
        ensures same { IfOk result (λ made. HasSame made self.now) }
        ensures first { IfOk result (λ made. IsTrimmed made) }
    {
        let empty = empty_before(self.words.as_slice()).min(usize::MAX - self.start);
        let start = self.start + empty;
        let words = SmallVec::from_slice(*self.words.allocator(), &self.words.as_slice()[empty..])?;
        Ok(NumberSet { start, words })
    }

    /// Whether all its numbers are in another set.
    pub(crate) fn is_within(&self, other: &NumberSet) -> bool
        ensures { IsTrue result ↔ ((number : ℕ) → HasNumber self.now number → HasNumber other.now number) }
    {
        let before = other.start.saturating_sub(self.start);
        let ahead = self.start.saturating_sub(other.start);
        let words = self.words.as_slice();
        if !are_empty_before(words, before) {
            return false;
        }
        are_within(
            words_from(words, before),
            words_from(other.words.as_slice(), ahead),
        )
    }

    /// Chooses how many words are left out, if the set has no words yet. Then there is room for all numbers of the other
    /// set's group.
    fn begin(&mut self, set: &NumberSet)
        ensures same { (number : ℕ) → HasNumber self.new number ↔ HasNumber self.old number }
        ensures room { HasRoomForWords self.old set.now ↔ (self.new.start ≤ set.now.start) }
        ensures group { self.old.words.items ≡ [] → HasRoomForGroup self.new set.now }
    {
        if self.words.is_empty() {
            self.start = set.start.saturating_sub(MOST_WORDS);
        }
    }

    /// Adds all numbers of another set, if there is room for its words, and returns whether it did. There is no room if
    /// its words begin earlier. Those of another set of the same group don't.
    pub(crate) fn put_all(&mut self, set: &NumberSet) -> Result<bool, NoMemory>
        ensures room { IfOk result (λ told. IsTrue told ↔ HasRoomForWords self.old set.now) }
        ensures group { OnOk result (self.old.words.items ≡ [] → HasRoomForGroup self.new set.now) }
        ensures there { IfOk result (λ told. IsTrue told → (number : ℕ) → HasNumber set.now number → HasNumber self.new number) }
        ensures still { OnOk result ((number : ℕ) → HasNumber self.old number → HasNumber self.new number) }
        ensures only { OnOk result ((number : ℕ) → HasNumber self.new number → HasNumber set.now number ⊎ HasNumber self.old number) }
    {
        self.begin(set);
        let Some(ahead) = set.start.checked_sub(self.start) else {
            return Ok(false);
        };
        for (place, word) in set.words.as_slice().iter().enumerate() {
            let there = ahead + place;
            grow_to(&mut self.words, there)?;
            // So the next place is a `usize` too, as the length is.
            let reaches = there < self.words.len();
            prove!(reaches);
            put_word(&mut self.words, there, *word);
        }
        Ok(true)
    }
}
