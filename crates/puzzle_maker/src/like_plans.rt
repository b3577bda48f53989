//! Plans of puzzles that are like a model.

ghost use Rattle.std.specs.Prelude.{◌≡◌, ◌<◌, ◌≤◌, ◌+◌, ◌↔◌, ℕ, Some, IfOk, MatchBool, MatchOption};
ghost use Rattle.match_board.specs.Mates.{mate_in as mate_by};
ghost use Rattle.puzzle_maker.specs.Like.{FitsLike, HasFewColours, IsFirstMisfitLike, IsFrameOf, IsPlanLike, MayHave};
ghost use Rattle.puzzle_maker.specs.Like.{version_on};

use crate::board_turns::turns_of;
use crate::frames::{has_inner, inner_colours};
use crate::outsides::Outside;
use crate::plans::Plan;
use match_board::{Figure, mate_in};
use match_limits::{MOST_COLOURS, MOST_TILES};
use match_puzzle::Puzzle;
use puzzle_drafts::{Draft, Misfit};
use std::alloc::{AllocError, Global};

/// The first reason why no puzzle can be like the model as is asked, if there is one.
pub(crate) fn misfit_of(model: &Puzzle, draft: &Draft, frame: Option<u8>) -> Option<Misfit>
    requires { (colour : ℕ) → (frame ≡ Some colour) ↔ IsFrameOf model.now colour }
    ensures { MatchOption result (FitsLike model.now draft.now) (IsFirstMisfitLike model.now draft.now) }
{
    let cells = model.board().cells();
    if has_few_colours(model, frame, draft.colours) {
        return Some(Misfit::FewColours);
    }
    if draft.colours > MOST_COLOURS {
        return Some(Misfit::ManyColours);
    }
    if has_lone_mate(model.mates(), draft.colours) {
        return Some(Misfit::LoneMate);
    }
    if draft.spare > MOST_TILES - cells {
        return Some(Misfit::ManyTiles);
    }
    if draft.clues > cells {
        return Some(Misfit::ManyClues);
    }
    None
}

// Whether there is no colour for inner sides, or the border asks for a colour that there isn't.
fn has_few_colours(model: &Puzzle, frame: Option<u8>, colours: u8) -> bool
    requires { (colour : ℕ) → (frame ≡ Some colour) ↔ IsFrameOf model.now colour }
    ensures { MatchBool result (HasFewColours model.now colours) (HasFewColours model.now colours → ⊥) }
{
    let _board = model.board();
    if !has_inner(model.mates(), frame, colours) {
        return true;
    }
    if colours < model.border().colour_count() {
        return true;
    }
    false
}

// Whether the mate of one of so many colours is none of them.
fn has_lone_mate(mates: &[u8], colours: u8) -> bool
    ensures { MatchBool result
        ((colour : ℕ) × (colour < colours) × (colours ≤ mate_by mates.now colour))
        (((colour : ℕ) × (colour < colours) × (colours ≤ mate_by mates.now colour)) → ⊥) }
{
    for colour in 0..colours {
        if mate_in(mates, colour) >= colours {
            return true;
        }
    }
    false
}

/// The plan of a puzzle that is like the model.
pub(crate) fn plan_like(
    alloc: Global,
    model: &Puzzle,
    draft: &Draft,
    frame: Option<u8>,
) -> Result<Plan, AllocError>
    requires frame { (colour : ℕ) → (frame ≡ Some colour) ↔ IsFrameOf model.now colour }
    requires fits { FitsLike model.now draft.now }
    ensures { IfOk result (IsPlanLike model.now draft.now) }
{
    let board = *model.board();
    let most = most_of(alloc, model, draft)?;
    let outside = Outside::Asked(model.border().copy(alloc)?);
    let asked = outside.asked(alloc, &board)?;
    let inner = inner_colours(alloc, model.mates(), frame, draft.colours)?;
    let mates = model.mates().to_vec(alloc)?;
    Ok(Plan {
        draft: *draft,
        board,
        turns: model.turns(),
        outside,
        asked,
        frame,
        inner,
        mates,
        version: version_of(model, draft),
        most,
    })
}

// The version of the puzzle.
fn version_of(model: &Puzzle, draft: &Draft) -> u8
    ensures { result ≡ version_on model.now.board model.now.mating.mates (draft.now.spare + draft.now.clues) }
{
    if draft.spare > 0 || draft.clues > 0 {
        return 3;
    }
    match model.board().figure() {
        Figure::Shape { .. } => 2,
        Figure::Rectangle { .. } | Figure::Triangle { .. } | Figure::Hexagon { .. } => {
            if model.mates().is_empty() { 1 } else { 2 }
        }
    }
}

// How many arrangements there may be, where they are to be few.
fn most_of(alloc: Global, model: &Puzzle, draft: &Draft) -> Result<u8, AllocError>
    ensures { IfOk result (MayHave model.now draft.now) }
{
    if !draft.is_unique || draft.clues > 0 || !model.turns() {
        return Ok(1);
    }
    turns_of(alloc, model)
}
