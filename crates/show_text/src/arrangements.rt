//! Draws arrangements as text.

ghost use Rattle.std.specs.Prelude.{◌≡◌, IfOk};
ghost use Rattle.match_puzzle.specs.Arrangement.{IsArrangement};
ghost use Rattle.show_text.specs.Arrangement.{HasJust, IsDrawnArrangement};

use crate::drawings::write_drawing;
use match_puzzle::{Partial, Placement, Puzzle};
use std::alloc::{AllocError, Global};

/// The board with an arrangement on it, drawn as [`write_drawing`] does, with no cell marked.
pub fn write_arrangement(
    alloc: Global,
    puzzle: &Puzzle,
    arrangement: &[Placement],
) -> Result<Vec<u8>, AllocError>
    requires { IsArrangement puzzle.now arrangement.now }
    ensures { IfOk result (λ text. IsDrawnArrangement puzzle.now arrangement.now text.items) }
{
    let partial = laid_out(alloc, puzzle, arrangement)?;
    write_drawing(alloc, &partial, None)
}

// The arrangement as it lies on the board.
fn laid_out<'a>(
    alloc: Global,
    puzzle: &'a Puzzle,
    arrangement: &[Placement],
) -> Result<Partial<'a>, AllocError>
    requires { IsArrangement puzzle.now arrangement.now }
    ensures puzzle { IfOk result (λ partial. partial.puzzle ≡ puzzle.now) }
    ensures placed { IfOk result (λ partial. HasJust arrangement.now partial.placed) }
{
    let mut partial = Partial::new(alloc, puzzle)?;
    for cell in 0..puzzle.board().cells() {
        partial.place(cell, arrangement[usize::from(cell)]);
    }
    Ok(partial)
}
