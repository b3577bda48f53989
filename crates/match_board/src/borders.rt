//! What is asked of the border of a board.

ghost use Rattle.std.specs.Prelude.{◌≡◌, ◌<◌, ◌≤◌, ◌↔◌, ◌^◌, ℕ, IfOk, MatchOption, MatchBool, Some, length, slice_get};
ghost use Rattle.match_limits.specs.First.{IsLeast};

use crate::boards::Board;
use match_limits::MOST_COLOURS;
use std::alloc::{AllocError, Global};
use std::marker::Model;

/// For each outer side a colour, or nothing: by cell, then by side. The list needn't fit any board.
#[derive(Debug, Drop)]
pub struct BorderRules {
    rules: Vec<Option<u8>>,
}

impl Model for BorderRules {
    ghost use Rattle.std.specs.Prelude.{ℕ, List, Option};

    ghost Value = { List (Option ℕ) };

    ghost view = { λ r. r.rules.items };
}

impl BorderRules {
    /// These rules.
    pub fn new(rules: Vec<Option<u8>>) -> BorderRules
        ensures { result ≡ rules.items }
    {
        BorderRules { rules }
    }

    /// The rules.
    pub fn as_slice(&self) -> &[Option<u8>]
        ensures { result.now ≡ self.now }
    {
        self.rules.as_slice()
    }

    // The rule at this place, if there is one.
    fn at(&self, place: u16) -> Option<u8>
        ensures { (colour : ℕ) → (result ≡ Some colour) ↔ (slice_get self.now place ≡ Some (Some colour)) }
    {
        self.rules.get(usize::from(place)).copied().flatten()
    }

    // The first place that asks for no colour that there is.
    fn bad_colour(&self) -> Option<u32>
        requires { length self.now < 2 ^ 32 }
        ensures { MatchOption result
            ((place colour : ℕ) → slice_get self.now place ≡ Some (Some colour) → colour < MOST_COLOURS)
            (IsLeast
            (λ place. (colour : ℕ) × (slice_get self.now place ≡ Some (Some colour)) × (MOST_COLOURS ≤ colour))) }
    {
        first_bad_colour(&self.rules)
    }

    // One more than the greatest colour.
    fn colour_count(&self) -> u8
        requires { (place colour : ℕ) → slice_get self.now place ≡ Some (Some colour) → colour < MOST_COLOURS }
        ensures above { (place colour : ℕ) → slice_get self.now place ≡ Some (Some colour) → colour < result }
        ensures least { (other : ℕ)
            → ((place colour : ℕ) → slice_get self.now place ≡ Some (Some colour) → colour < other) → result ≤ other }
    {
        colour_count_of(&self.rules)
    }

    // Equal rules.
    fn copy(&self, alloc: Global) -> Result<BorderRules, AllocError>
        ensures { IfOk result (λ rules. rules ≡ self.now) }
    {
        let rules = self.rules.to_vec(alloc)?;
        Ok(BorderRules::new(rules))
    }
}

// The first place that asks for no colour that there is.
pub(crate) fn first_bad_colour(rules: &[Option<u8>]) -> Option<u32>
    requires { length rules.now < 2 ^ 32 }
    ensures { MatchOption result
        ((place colour : ℕ) → slice_get rules.now place ≡ Some (Some colour) → colour < MOST_COLOURS)
        (IsLeast (λ place. (colour : ℕ) × (slice_get rules.now place ≡ Some (Some colour)) × (MOST_COLOURS ≤ colour))) }
{
    for (place, rule) in rules.iter().enumerate() {
        if let Some(colour) = *rule
            && colour >= MOST_COLOURS
        {
            return Some(place as u32);
        }
    }
    None
}

// One more than the greatest colour of the rules.
pub(crate) fn colour_count_of(rules: &[Option<u8>]) -> u8
    requires { (place colour : ℕ) → slice_get rules.now place ≡ Some (Some colour) → colour < MOST_COLOURS }
    ensures above { (place colour : ℕ) → slice_get rules.now place ≡ Some (Some colour) → colour < result }
    ensures least { (other : ℕ) → ((place colour : ℕ) → slice_get rules.now place ≡ Some (Some colour) → colour < other)
        → result ≤ other }
{
    let mut count = 0;
    for rule in rules {
        count = count_with(count, *rule);
    }
    count
}

// One more than the greatest colour, with one rule more.
fn count_with(count: u8, rule: Option<u8>) -> u8
    requires { (colour : ℕ) → rule ≡ Some colour → colour < MOST_COLOURS }
    ensures more { count ≤ result }
    ensures above { (colour : ℕ) → rule ≡ Some colour → colour < result }
    ensures least { (other : ℕ) → count ≤ other → ((colour : ℕ) → rule ≡ Some colour → colour < other)
        → result ≤ other }
{
    match rule {
        Some(colour) if colour >= count => colour + 1,
        _ => count,
    }
}

/// What the border asks for: which colours outer sides have to show. An outer side is one that meets no other.
#[derive(Debug, Drop)]
pub enum Border {
    /// Nothing is asked for.
    Free,
    /// Each outer side has to show this colour.
    One(u8),
    /// For each outer side a colour, or nothing.
    Each(BorderRules),
}

impl Border {
    ghost use Rattle.match_board.specs.Borders.{rule_of, AsksAt, StandsInRule, IsAsLongAsBorder, IsShortRule};

    /// A copy.
    pub fn copy(&self, alloc: Global) -> Result<Border, AllocError>
        ensures { IfOk result (λ border. border ≡ self.now) }
    {
        match self {
            Border::Free => Ok(Border::Free),
            Border::One(colour) => Ok(Border::One(*colour)),
            Border::Each(rules) => Ok(Border::Each(rules.copy(alloc)?)),
        }
    }

    /// What is asked of the outer side with this number, counted by cell, then by side.
    pub fn rule_at(&self, number: u16) -> Option<u8>
        ensures { (colour : ℕ) → (result ≡ Some colour) ↔ AsksAt (rule_of self.now) number colour }
    {
        match self {
            Border::Free => None,
            Border::One(colour) => Some(*colour),
            Border::Each(rules) => rules.at(number),
        }
    }

    /// The first place that asks for 36 or more, which is no colour.
    pub fn bad_colour(&self) -> Option<u32>
        requires { IsShortRule (rule_of self.now) }
        ensures { MatchOption result
            ((place colour : ℕ) → StandsInRule (rule_of self.now) place colour → colour < MOST_COLOURS)
            (IsLeast (λ place. (colour : ℕ) × StandsInRule (rule_of self.now) place colour × (MOST_COLOURS ≤ colour))) }
    {
        match self {
            Border::Free => None,
            Border::One(colour) => {
                if *colour < MOST_COLOURS {
                    None
                } else {
                    Some(0)
                }
            }
            Border::Each(rules) => rules.bad_colour(),
        }
    }

    /// One more than the greatest colour that is asked for.
    pub fn colour_count(&self) -> u8
        requires { (place colour : ℕ) → StandsInRule (rule_of self.now) place colour → colour < MOST_COLOURS }
        ensures above { (place colour : ℕ) → StandsInRule (rule_of self.now) place colour → colour < result }
        ensures least { (other : ℕ)
            → ((place colour : ℕ) → StandsInRule (rule_of self.now) place colour → colour < other) → result ≤ other }
    {
        match self {
            Border::Free => 0,
            Border::One(colour) => *colour + 1,
            Border::Each(rules) => rules.colour_count(),
        }
    }

    /// Whether a list of rules has one for each outer side.
    pub fn is_as_long_as(&self, board: &Board) -> bool
        ensures { MatchBool result (IsAsLongAsBorder board.now (rule_of self.now))
            (IsAsLongAsBorder board.now (rule_of self.now) → ⊥) }
    {
        match self {
            Border::Free | Border::One(_) => true,
            Border::Each(rules) => rules.as_slice().len() == usize::from(board.border_len()),
        }
    }
}
