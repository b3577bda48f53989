//! Sets of numbers below `NUMBERS`, as bits.

ghost use Rattle.std.specs.Prelude.{◌≡◌, ◌≢◌, ◌⊎◌, ◌↔◌, ◌<◌, ◌≤◌, ◌/◌, ◌%◌, ◌*◌, ◌+◌, ℕ, [], ◌∷◌, Contains};
ghost use Rattle.std.specs.Prelude.{IfSome, MatchOption, length};
ghost use Rattle.std.specs.Int.{bit_at};
ghost use Rattle.match_limits.specs.Listing.{IsListing};
ghost use Rattle.match_limits.specs.First.{IsLeast};
ghost use Rattle.match_limits.specs.NumberSets.{IsGroup, count_of_group};

use crate::{MOST_TILES, TURNS};
use std::marker::Model;

/// How many words a set has.
const WORDS: usize = 16;

/// How many bits a word has.
const WORD_BITS: u16 = 64;

/// How many groups of four numbers a word has.
const WORD_GROUPS: u16 = WORD_BITS / TURNS;

/// All numbers of a set are below this one.
const NUMBERS: u16 = WORD_BITS * WORDS as u16;

/// How many groups of four numbers there are.
pub const GROUPS: u16 = WORD_GROUPS * WORDS as u16;

// There is a group for each tile; there are as many cells.
const _: () = prove!(MOST_TILES <= GROUPS);

/// Different numbers below `NUMBERS`, rising. They come in groups of four: group k has the numbers from 4 k to 4 k + 3.
#[derive(Drop)]
pub struct NumberSet {
    words: [u64; WORDS],
    // Words from here on are 0 and are not looked at.
    end: usize,
}

impl Model for NumberSet {
    ghost use Rattle.std.specs.Prelude.{ℕ, List};

    ghost Value = { List ℕ };

    ghost use Rattle.match_limits.specs.NumberSets.{members, AreWordsOfSet};

    ghost view = { λ s. members s.words };

    ghost invariant = { λ s. AreWordsOfSet s.words s.end };
}

/// A set that no longer changes. It doesn't keep where its last number is, so it takes just 128 bytes, and a table of
/// such sets finds each by a shift.
#[derive(Drop)]
pub struct FixedSet {
    words: [u64; WORDS],
}

impl Model for FixedSet {
    ghost use Rattle.std.specs.Prelude.{ℕ, List};
    ghost use Rattle.match_limits.specs.declared.number_sets.TheConstants.{WORDS};

    ghost Value = { List ℕ };

    ghost use Rattle.match_limits.specs.NumberSets.{members, AreWordsOfSet};

    ghost view = { λ s. members s.words };

    ghost invariant = { λ s. AreWordsOfSet s.words WORDS };
}

/// The numbers of a set that were not taken yet. They are taken from the least on.
#[derive(Drop)]
pub struct Members<'a> {
    words: &'a [u64; WORDS],
    end: usize,
    // What is left of the word at this place; nothing is left of those before it.
    place: usize,
    word: u64,
}

impl<'a> Model for Members<'a> {
    ghost use Rattle.std.specs.Prelude.{ℕ, List};

    ghost Value = { List ℕ };

    ghost use Rattle.match_limits.specs.NumberSets.{members, words_from, AreWordsFrom};

    ghost view = { λ m. members (words_from m.words.now m.place m.word) };

    ghost invariant = { λ m. AreWordsFrom m.words.now m.end m.place m.word };
}

impl<'a> Members<'a> {
    /// Takes the least number. Those that are left are greater.
    #[inline]
    pub fn take_first(&mut self) -> Option<u16>
        ensures taken { MatchOption result ((self.old ≡ []) × (self.new ≡ [])) (λ n. self.old ≡ n ∷ self.new) }
        ensures least { IfSome result (λ n. (other : ℕ) → Contains self.new other → n < other) }
    {
        while self.word == 0 {
            if self.place + 1 >= self.end {
                return None;
            }
            self.place += 1;
            self.word = self.words[self.place];
        }
        let digit = self.word.trailing_zeros();
        self.word &= !(1 << digit);
        Some(WORD_BITS * self.place as u16 + digit as u16)
    }
}

impl NumberSet {
    /// The empty set.
    pub fn new() -> NumberSet
        ensures { result ≡ [] }
    {
        NumberSet {
            words: [0; WORDS],
            end: 0,
        }
    }

    /// A copy.
    pub fn copy(&self) -> NumberSet
        ensures { result ≡ self.now }
    {
        NumberSet {
            words: self.words,
            end: self.end,
        }
    }

    /// A copy that no longer changes.
    pub fn fixed(&self) -> FixedSet
        ensures { result ≡ self.now }
    {
        FixedSet { words: self.words }
    }

    /// How many numbers there are.
    pub fn len(&self) -> u16
        ensures count { result ≡ length self.now }
        ensures few { result ≤ NUMBERS }
    {
        let mut count = 0;
        for word in &self.words[..self.end] {
            count += word.count_ones() as u16;
        }
        count
    }

    /// The numbers of the set, to be taken one after the other.
    #[inline]
    pub fn members(&self) -> Members<'_>
        ensures { result ≡ self.now }
    {
        Members {
            words: &self.words,
            end: self.end,
            place: 0,
            word: self.words[0],
        }
    }

    /// Removes the least number, and returns it.
    pub fn take_first(&mut self) -> Option<u16>
        ensures { MatchOption result ((self.old ≡ []) × (self.new ≡ [])) (λ n. self.old ≡ n ∷ self.new) }
    {
        for i in 0..self.end {
            let word = self.words[i];
            if word != 0 {
                let digit = word.trailing_zeros();
                self.words[i] = word & !(1 << digit);
                return Some(WORD_BITS * i as u16 + digit as u16);
            }
        }
        None
    }

    /// Adds the number.
    pub fn put(&mut self, number: u16)
        requires { number < NUMBERS }
        ensures { IsListing ◌<◌ (λ n. Contains self.old n ⊎ (n ≡ number)) self.new }
    {
        let place = usize::from(number / WORD_BITS);
        self.words[place] |= 1 << (number % WORD_BITS);
        self.end = self.end.max(place + 1);
    }

    /// Removes the number.
    pub fn remove(&mut self, number: u16)
        requires { number < NUMBERS }
        ensures { IsListing ◌<◌ (λ n. Contains self.old n × (n ≢ number)) self.new }
    {
        self.words[usize::from(number / WORD_BITS)] &= !(1 << (number % WORD_BITS));
    }

    /// Removes all numbers.
    pub fn clear(&mut self)
        ensures { self.new ≡ [] }
    {
        // words of no numbers stay as they are
        if self.end > 0 {
            self.words = [0; WORDS];
            self.end = 0;
        }
    }

    /// Replaces this set by the numbers that are in each of five sets.
    ///
    /// Each word is made at once, in its place, so the set is written and not read again on the way. Four words go
    /// together, up to the last one that is or was in use: a loop whose end is known beforehand is faster.
    pub fn put_common(
        &mut self,
        all: &NumberSet,
        first: &FixedSet,
        second: &FixedSet,
        third: &FixedSet,
        fourth: &FixedSet,
    )
        ensures { IsListing ◌<◌ (λ n. Contains all.now n × Contains first.now n × Contains second.now n
            × Contains third.now n × Contains fourth.now n) self.new }
    {
        let end = self.end.max(all.end);
        self.end = all.end;
        for block in 0..(end + 3) / 4 {
            for i in 4 * block..4 * block + 4 {
                self.words[i] = all.words[i]
                    & first.words[i]
                    & second.words[i]
                    & third.words[i]
                    & fourth.words[i];
            }
        }
    }

    /// Replaces this set by the numbers that are in both sets.
    pub fn put_both(&mut self, first: &NumberSet, second: &NumberSet)
        ensures { IsListing ◌<◌ (λ n. Contains first.now n × Contains second.now n) self.new }
    {
        self.words = [0; WORDS];
        self.end = first.end;
        for i in 0..first.end {
            self.words[i] = first.words[i] & second.words[i];
        }
    }

    /// Replaces this set by the numbers that are in the first and in the last set, and not in the second.
    pub fn put_without(&mut self, first: &NumberSet, without: &FixedSet, last: &NumberSet)
        ensures { IsListing ◌<◌ (λ n. Contains first.now n × (Contains without.now n → ⊥)
            × Contains last.now n) self.new }
    {
        self.words = [0; WORDS];
        self.end = first.end;
        for i in 0..first.end {
            self.words[i] = first.words[i] & !without.words[i] & last.words[i];
        }
    }

    /// Removes all numbers that are not in the other set.
    pub fn keep(&mut self, kept: &FixedSet)
        ensures { IsListing ◌<◌ (λ n. Contains self.old n × Contains kept.now n) self.new }
    {
        for i in 0..self.end {
            self.words[i] &= kept.words[i];
        }
    }

    /// The least number from this one on that is in both sets.
    pub fn next_in_both(&self, other: &NumberSet, from: u16) -> Option<u16>
        requires { from ≤ NUMBERS }
        ensures few { IfSome result (λ n. n < NUMBERS) }
        ensures least { MatchOption result
            ((n : ℕ) → Contains self.now n → Contains other.now n → from ≤ n → ⊥)
            (IsLeast (λ n. Contains self.now n × Contains other.now n × (from ≤ n))) }
    {
        let first = usize::from(from / WORD_BITS);
        let mut mask = u64::MAX << (from % WORD_BITS);
        for i in first..self.end {
            let word = self.words[i] & other.words[i] & mask;
            if word != 0 {
                return Some(WORD_BITS * i as u16 + word.trailing_zeros() as u16);
            }
            mask = u64::MAX;
        }
        None
    }

    /// How many numbers of the group are in the set.
    pub fn group_len(&self, group: u16) -> u8
        requires { group < GROUPS }
        ensures count { result ≡ count_of_group self.now group }
        ensures few { result ≤ 4 }
    {
        let word = self.words[usize::from(group / WORD_GROUPS)];
        let digits = (word >> (TURNS * (group % WORD_GROUPS)) & 15) as u8;
        digits.count_ones() as u8
    }

    /// Which numbers of the group are in this set and in each of four others, as bits: the first number is the lowest
    /// bit.
    pub fn common_group(
        &self,
        first: &FixedSet,
        second: &FixedSet,
        third: &FixedSet,
        fourth: &FixedSet,
        group: u16,
    ) -> u8
        requires { group < GROUPS }
        ensures few { result < 16 }
        ensures common { (n : ℕ) → n < 4 → (bit_at result n ≡ 1) ↔ (Contains self.now (4 * group + n)
            × Contains first.now (4 * group + n) × Contains second.now (4 * group + n)
            × Contains third.now (4 * group + n) × Contains fourth.now (4 * group + n)) }
    {
        let place = usize::from(group / WORD_GROUPS);
        let word = self.words[place]
            & first.words[place]
            & second.words[place]
            & third.words[place]
            & fourth.words[place];
        (word >> (TURNS * (group % WORD_GROUPS)) & 15) as u8
    }

    /// Which numbers of the group are in the set, as bits: the first number is the lowest bit.
    pub fn group(&self, group: u16) -> u8
        requires { group < GROUPS }
        ensures few { result < 16 }
        ensures group { IsGroup self.now group result }
    {
        let word = self.words[usize::from(group / WORD_GROUPS)];
        (word >> (TURNS * (group % WORD_GROUPS)) & 15) as u8
    }

    /// Adds these numbers of the group.
    pub fn put_group(&mut self, group: u16, digits: u8)
        requires group { group < GROUPS }
        requires digits { digits < 16 }
        ensures { IsListing ◌<◌ (λ n. Contains self.old n ⊎ ((n / 4 ≡ group) × (bit_at digits (n % 4) ≡ 1))) self.new }
    {
        let place = usize::from(group / WORD_GROUPS);
        self.words[place] |= u64::from(digits) << (TURNS * (group % WORD_GROUPS));
        self.end = self.end.max(place + 1);
    }

    /// Removes all numbers of the group.
    pub fn remove_group(&mut self, group: u16)
        requires { group < GROUPS }
        ensures { IsListing ◌<◌ (λ n. Contains self.old n × (n / 4 ≢ group)) self.new }
    {
        self.words[usize::from(group / WORD_GROUPS)] &= !(15 << (TURNS * (group % WORD_GROUPS)));
    }
}
