//! Symmetries that are found of a puzzle.

ghost use Rattle.std.specs.Prelude.{All, IfOk, map};
ghost use Rattle.match_symmetry.specs.Suggestions.{IsAskedFor};
ghost use Rattle.puzzle_symmetry.specs.Motion.{AreOfPuzzle, line_of};
ghost use Rattle.puzzle_symmetry.specs.Symmetry.{IsSymmetry};

use match_puzzle::Puzzle;
use match_symmetry::{Suggested, Symmetry, SymmetryFault, suggest_of};
use std::alloc::{AllocError, Global};

// Symmetries of the puzzle that are asked for, as many as are found.
pub(crate) fn suggested_symmetries<'a>(
    alloc: Global,
    puzzle: &'a Puzzle,
    asked: Suggested,
) -> Result<Vec<Symmetry<'a>>, AllocError>
    ensures puzzle { IfOk result (λ v. AreOfPuzzle puzzle.now v.items) }
    ensures asked { IfOk result (λ v. All (λ g. IsSymmetry puzzle.now g × IsAskedFor asked g) (map line_of v.items)) }
{
    let lines = suggest_of(alloc, puzzle, asked)?;
    let mut symmetries = Vec::new(alloc);
    for line in &lines {
        match Symmetry::new(alloc, puzzle, line) {
            Ok(symmetry) => symmetries.push(symmetry)?,
            Err(SymmetryFault::Memory) => return Err(AllocError),
            Err(_) => continue,
        }
    }
    Ok(symmetries)
}
