//! Puts puzzles together.

ghost use Rattle.std.specs.Prelude.{◌≡◌, ◌≢◌, ◌<◌, ◌≤◌, ◌^◌, ℕ, Contains, IfOk, IsTrue, Some, length, map};
ghost use Rattle.match_puzzle.specs.Puzzle.{word_of};
ghost use Rattle.match_limits.specs.declared.TheConstants.{MOST_CELLS, MOST_RULES, MOST_TILES};
ghost use Rattle.match_board.specs.Borders.{IsShortRule, rule_of};
ghost use Rattle.puzzle_maker.specs.Made.{ShowColoursBelow};
ghost use Rattle.puzzle_maker.specs.Plans.{AsksAsPlanned, IsAsPlanned};

use crate::cuts::Cut;
use crate::faults::{Flaw, Refusal};
use crate::outsides::{Outside, is_short};
use crate::plans::Plan;
use match_board::{Border, BorderRules, Clue};
use match_puzzle::{Puzzle, PuzzleFault, Rules};
use std::alloc::{AllocError, Global};

/// The puzzle of what was cut up and these clues, by the rules of the plan.
pub(crate) fn puzzle_of(
    alloc: Global,
    plan: &Plan,
    cut: &Cut,
    clues: &[Clue],
) -> Result<Puzzle, Refusal>
    requires { length clues.now ≤ MOST_CELLS }
    ensures planned { IfOk result (IsAsPlanned plan.now) }
    ensures searched { result ≢ Err Refusal.TooMany }
{
    let border = border_of(alloc, &plan.outside, &cut.outer_sides)?;
    let rules = Rules {
        turns: plan.turns,
        border: &border,
        mates: &plan.mates,
        clues,
    };
    let puzzle = puzzle_by(alloc, plan, &rules, cut)?;
    if is_as_planned(plan, &puzzle) {
        Ok(puzzle)
    } else {
        Err(Refusal::Flaw(Flaw::NotAsDrawn))
    }
}

// The puzzle by these rules, in the plan's version.
fn puzzle_by(
    alloc: Global,
    plan: &Plan,
    rules: &Rules<'_>,
    cut: &Cut,
) -> Result<Puzzle, PuzzleFault>
    requires border { IsShortRule (rule_of rules.now.border.now) }
    requires mates { length rules.now.mates.now < 2 ^ 32 }
    requires clues { length rules.now.clues.now < 2 ^ 32 }
    ensures board { IfOk result (λ p. p.board ≡ plan.now.board) }
    ensures turns { IfOk result (λ p. p.turns ≡ rules.now.turns) }
    ensures border { IfOk result (λ p. p.border ≡ rule_of rules.now.border.now) }
{
    let Rules {
        turns,
        border,
        mates,
        ..
    } = *rules;
    match plan.version {
        3 => Puzzle::with_clues(alloc, plan.board, rules, &cut.tiles),
        2 => Puzzle::with_mates(alloc, plan.board, turns, border, mates, &cut.tiles),
        _ => Puzzle::new(alloc, plan.board, turns, border, &cut.tiles),
    }
}

// What the border asks for.
fn border_of(alloc: Global, outside: &Outside, outer_sides: &[u8]) -> Result<Border, Refusal>
    requires { length outer_sides.now ≤ MOST_RULES }
    ensures asks { IfOk result (λ border. AsksAsPlanned outside.now (rule_of border)) }
    ensures short { IfOk result (λ border. IsShortRule (rule_of border)) }
    ensures searched { result ≢ Err Refusal.TooMany }
{
    match outside {
        Outside::Asked(border) => {
            if !is_short(border) {
                return Err(Refusal::Flaw(Flaw::NotAsDrawn));
            }
            Ok(border.copy(alloc)?)
        }
        Outside::Drawn => {
            let rules = rules_of(alloc, outer_sides)?;
            Ok(Border::Each(BorderRules::new(rules)))
        }
    }
}

// Rules that ask for these colours.
fn rules_of(alloc: Global, colours: &[u8]) -> Result<Vec<Option<u8>>, AllocError>
    ensures { IfOk result (λ v. v.items ≡ map Some colours.now) }
{
    let mut rules = Vec::new(alloc);
    for colour in colours {
        rules.push(Some(*colour))?;
    }
    Ok(rules)
}

// Whether the version, the mates, the number of tiles and their colours are those of the plan.
fn is_as_planned(plan: &Plan, puzzle: &Puzzle) -> bool
    requires board { puzzle.now.board ≡ plan.now.board }
    requires turns { puzzle.now.turns ≡ plan.now.turns }
    requires border { AsksAsPlanned plan.now.outside puzzle.now.border }
    ensures { IsTrue result → IsAsPlanned plan.now puzzle.now }
{
    if puzzle.version() != plan.version || puzzle.tile_count() != plan.tiles() {
        return false;
    }
    if puzzle.mates() != plan.mates.as_slice() {
        return false;
    }
    shows_colours_below(puzzle, plan.draft.colours)
}

// Whether tiles show no colours but these.
fn shows_colours_below(puzzle: &Puzzle, colours: u8) -> bool
    ensures { IsTrue result → ShowColoursBelow colours puzzle.now }
{
    for tile in 0..puzzle.tile_count() {
        if colours_on(puzzle, tile) > colours {
            return false;
        }
    }
    true
}

// One more than the greatest colour on the tile.
fn colours_on(puzzle: &Puzzle, tile: u16) -> u8
    requires { tile < length puzzle.now.words }
    ensures { (colour : ℕ) → Contains (word_of puzzle.now tile) colour → colour < result }
{
    puzzle.tiles()[usize::from(tile)].colour_count()
}
