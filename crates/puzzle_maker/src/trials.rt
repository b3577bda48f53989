//! Checks what was made.

ghost use Rattle.std.specs.Prelude.{◌≡◌, ◌≢◌, ◌<◌, ℕ, true, Some, IfOk, IsErrOf, IsFalse, IsTrue, OnOk, length};
ghost use Rattle.match_board.specs.Board.{cell_count, side_count};
ghost use Rattle.match_board.specs.Turns.{IsPeriod};
ghost use Rattle.match_puzzle.specs.Arrangement.{IsArrangement};
ghost use Rattle.match_puzzle.specs.EqualTiles.{AreEqualTiles};
ghost use Rattle.match_puzzle.specs.Puzzle.{word_of};
ghost use Rattle.puzzle_symmetry.specs.Motion.{AreOfPuzzle};
ghost use Rattle.xcc_form.specs.Options.{HasTooManyEntries};
ghost use Rattle.puzzle_drafts.specs.declared.misfits.Misfit.{Misfit};
ghost use Rattle.puzzle_maker.specs.Made.{AreAllDifferent, AskForAllShown, AskForAllShownAt, AskForShownAt, HasAtMost};
ghost use Rattle.puzzle_maker.specs.Made.{IsNoneItsOwnTurn, IsPlanted, ShowsNoneInside, ShowsNoneInsideAt};
ghost use Rattle.puzzle_maker.specs.Plans.{IsAsPlanned, IsMadeAsPlanned};

use crate::faults::{Flaw, MakeFault, Refusal};
use crate::plans::Plan;
use count_search::{CensusWatch, Count, count_arrangements, split, work_of};
use match_board::first_side;
use match_puzzle::{Placement, Puzzle};
use match_symmetry::{Symmetry, SymmetryFault, suggest};
use std::alloc::{AllocError, Global};
use xcc_form::{CompileFault, compile};

// The least number of branches of a split, if the search has as many: enough for symmetries to merge them.
const BRANCHES: u32 = 256;

/// Whether the puzzle, whose tiles were put together so when they were cut, is all that is planned.
///
/// An `Err` says what is wrong with it; or that its options are too many, where its arrangements are to be counted; or
/// that memory was refused.
pub(crate) fn judge<W: CensusWatch>(
    alloc: Global,
    plan: &Plan,
    puzzle: &Puzzle,
    planted: &[Placement],
    watch: &W,
) -> Result<(), Refusal>
    requires { IsAsPlanned plan.now puzzle.now }
    ensures made { OnOk result (IsMadeAsPlanned plan.now puzzle.now) }
    ensures too_many { IsErrOf result Refusal.TooMany
        → (plan.now.draft.is_unique ≡ true) × HasTooManyEntries puzzle.now }
{
    let draft = &plan.draft;
    if !has_clues(puzzle, draft.clues) || !is_planted(plan.frame, puzzle, planted) {
        return Err(Refusal::Flaw(Flaw::NotAsDrawn));
    }
    if draft.is_different && !(are_all_different(puzzle) && is_none_its_own_turn(puzzle)) {
        return Err(Refusal::Flaw(Flaw::EqualTiles));
    }
    if draft.is_unique && !has_at_most(alloc, puzzle, plan.most, watch)? {
        return Err(Refusal::Flaw(Flaw::ManyArrangements(plan.most)));
    }
    Ok(())
}

// Whether there are as many clues.
fn has_clues(puzzle: &Puzzle, clues: u16) -> bool
    ensures { IsTrue result → length puzzle.now.clues ≡ clues }
{
    puzzle.clues().len() == usize::from(clues)
}

// Whether the tiles make an arrangement so, with the frame's colour outside alone, and clues ask for all that it shows.
fn is_planted(frame: Option<u8>, puzzle: &Puzzle, planted: &[Placement]) -> bool
    ensures { IsTrue result → IsPlanted (λ colour. frame ≡ Some colour) puzzle.now planted.now }
{
    if puzzle.arrangement_fault(planted).is_some() {
        return false;
    }
    if !ask_for_all_shown(puzzle, planted) {
        return false;
    }
    match frame {
        Some(colour) => shows_none_inside(puzzle, planted, colour),
        None => true,
    }
}

// Whether clues ask for all that the arrangement shows at their cells.
fn ask_for_all_shown(puzzle: &Puzzle, planted: &[Placement]) -> bool
    requires { IsArrangement puzzle.now planted.now }
    ensures { IsTrue result → AskForAllShown puzzle.now planted.now }
{
    let cells = puzzle.board().cells();
    let clues = puzzle.clues();
    for clue in clues {
        let cell = clue.cell();
        if cell >= cells || !ask_for_all_shown_at(puzzle, planted, cell) {
            return false;
        }
    }
    true
}

// Whether clues ask each side of the cell for what the arrangement shows there.
fn ask_for_all_shown_at(puzzle: &Puzzle, planted: &[Placement], cell: u16) -> bool
    requires cell { cell < cell_count puzzle.now.board }
    requires is { IsArrangement puzzle.now planted.now }
    ensures { IsTrue result → AskForAllShownAt puzzle.now planted.now cell }
{
    for side in 0..puzzle.board().sides() {
        if !ask_for_shown(puzzle, planted, cell, side) {
            return false;
        }
    }
    true
}

// Whether clues ask the side for what the arrangement shows there.
fn ask_for_shown(puzzle: &Puzzle, planted: &[Placement], cell: u16, side: u8) -> bool
    requires cell { cell < cell_count puzzle.now.board }
    requires side { side < side_count puzzle.now.board }
    requires is { IsArrangement puzzle.now planted.now }
    ensures { IsTrue result → AskForShownAt puzzle.now planted.now cell side }
{
    let shown = puzzle.colour(planted[usize::from(cell)], side);
    match puzzle.clue_colour(cell, side) {
        None => false,
        Some(asked) => asked == shown,
    }
}

// Whether no side that meets another shows the colour.
fn shows_none_inside(puzzle: &Puzzle, planted: &[Placement], colour: u8) -> bool
    requires { IsArrangement puzzle.now planted.now }
    ensures { IsTrue result → ShowsNoneInside colour puzzle.now planted.now }
{
    let found = first_side(
        puzzle.board(),
        |cell: u16, side: u8| -> bool
            requires cell { cell < cell_count puzzle.now.board }
            requires side { side < side_count puzzle.now.board }
            requires is { IsArrangement puzzle.now planted.now }
            ensures { IsFalse result → ShowsNoneInsideAt colour puzzle.entry.now planted.entry.now cell side }
        { shows_inside(puzzle, planted, colour, cell, side) },
    );
    match found {
        None => true,
        Some(_) => false,
    }
}

// Whether the side meets another and shows the colour.
fn shows_inside(puzzle: &Puzzle, planted: &[Placement], colour: u8, cell: u16, side: u8) -> bool
    requires cell { cell < cell_count puzzle.now.board }
    requires side { side < side_count puzzle.now.board }
    requires is { IsArrangement puzzle.now planted.now }
    ensures { IsFalse result → ShowsNoneInsideAt colour puzzle.now planted.now cell side }
{
    match puzzle.meets(cell, side) {
        None => false,
        Some(_) => puzzle.colour(planted[usize::from(cell)], side) == colour,
    }
}

// Whether no two tiles are equal.
fn are_all_different(puzzle: &Puzzle) -> bool
    ensures { IsTrue result → AreAllDifferent puzzle.now }
{
    for tile in 0..puzzle.tile_count() {
        if equals_an_earlier(puzzle, tile) {
            return false;
        }
    }
    true
}

// Whether a tile before this one equals it.
fn equals_an_earlier(puzzle: &Puzzle, tile: u16) -> bool
    ensures { IsFalse result → (earlier : ℕ) → earlier < tile → AreEqualTiles puzzle.now earlier tile → ⊥ }
{
    for earlier in 0..tile {
        if puzzle.are_equal_tiles(earlier, tile) {
            return true;
        }
    }
    false
}

// Whether no tile shows the same after fewer turns than it has sides.
fn is_none_its_own_turn(puzzle: &Puzzle) -> bool
    ensures { IsTrue result → IsNoneItsOwnTurn puzzle.now }
{
    let sides = puzzle.board().sides();
    for tile in 0..puzzle.tile_count() {
        if period(puzzle, tile) != sides {
            return false;
        }
    }
    true
}

// How many turns it takes until the tile shows the same again.
fn period(puzzle: &Puzzle, tile: u16) -> u8
    requires { tile < length puzzle.now.words }
    ensures { IsPeriod (word_of puzzle.now tile) result }
{
    puzzle.tiles()[usize::from(tile)].period()
}

// Whether the puzzle has at most so many arrangements.
fn has_at_most<W: CensusWatch>(
    alloc: Global,
    puzzle: &Puzzle,
    most: u8,
    watch: &W,
) -> Result<bool, CompileFault>
    ensures few { IfOk result (λ few. IsTrue few → HasAtMost most puzzle.now) }
    ensures too_many { IsErrOf result CompileFault.TooMany → HasTooManyEntries puzzle.now }
{
    let xcc = compile(alloc, puzzle)?;
    let symmetries = symmetries_of(alloc, puzzle)?;
    let branches = split(alloc, &xcc, &symmetries, BRANCHES)?;
    watch.begins(branches.len());
    let count = Count {
        xcc: &xcc,
        branches,
        watch,
    };
    let counted = count_arrangements(alloc, count, u64::from(most))?;
    Ok(counted.is_some())
}

/// A guess of how many nodes a search for all arrangements has.
pub(crate) fn work(alloc: Global, puzzle: &Puzzle) -> Result<u64, MakeFault>
    ensures fits { (misfit : Misfit) → result ≢ Err (MakeFault.Misfit misfit) }
    ensures too_many { IsErrOf result MakeFault.TooMany → HasTooManyEntries puzzle.now }
{
    let xcc = compile(alloc, puzzle)?;
    let work = work_of(alloc, &xcc)?;
    Ok(work)
}

// Symmetries of the puzzle, by which branches are merged.
fn symmetries_of<'a>(alloc: Global, puzzle: &'a Puzzle) -> Result<Vec<Symmetry<'a>>, AllocError>
    ensures { IfOk result (λ v. AreOfPuzzle puzzle.now v.items) }
{
    let lines = suggest(alloc, puzzle)?;
    let mut symmetries = Vec::new(alloc);
    for line in &lines {
        match Symmetry::new(alloc, puzzle, line) {
            Ok(symmetry) => symmetries.push(symmetry)?,
            Err(SymmetryFault::Memory) => return Err(AllocError),
            Err(_) => continue,
        }
    }
    Ok(symmetries)
}
