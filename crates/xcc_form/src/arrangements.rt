//! Converts between arrangements of a puzzle and solutions of its exact cover.

ghost use Rattle.std.specs.Prelude.{◌≡◌, ℕ, List, IfOk, IsErrOf};
ghost use Rattle.match_puzzle.specs.Arrangement.{IsArrangement};
ghost use Rattle.match_puzzle.specs.declared.placements.Placement.{Placement as Placed};
ghost use Rattle.xcc_form.specs.ExactCover.{IsSolution};
ghost use Rattle.xcc_form.specs.Options.{cover_of};
ghost use Rattle.xcc_form.specs.Correspondence.{AreByCell, HaveSameOptions, IsSolutionOf};

use crate::faults::FormFault;
use crate::xccs::Xcc;
use match_limits::MOST_CELLS;
use match_puzzle::{Arrangement, Placement};
use std::alloc::Global;

impl<'a> Xcc<'a> {
    /// Returns the solution that belongs to an arrangement: the numbers of its options, in the order of their cells, so
    /// rising.
    ///
    /// `NotASolution` comes where the placements are no arrangement of the puzzle, and `Memory` where they are one and
    /// the list cannot grow. It goes over the options once.
    pub fn options_of(&self, alloc: Global, placements: &[Placement]) -> Result<Vec<u32>, FormFault>
        ensures solution { IfOk result (λ v. IsSolutionOf self.now placements.now v.items) }
        ensures by_cell { IfOk result (λ v. AreByCell self.now placements.now v.items) }
        ensures undone { IfOk result (λ v. (a : List Placed) → IsSolutionOf self.now a v.items → a ≡ placements.now) }
        ensures refused { IsErrOf result FormFault.NotASolution → IsArrangement self.now.puzzle placements.now → ⊥ }
        ensures memory { IsErrOf result FormFault.Memory → IsArrangement self.now.puzzle placements.now }
    {
        if self.puzzle().arrangement_fault(placements).is_some() {
            return Err(FormFault::NotASolution);
        }
        let mut options = Vec::with_capacity(alloc, placements.len())?;
        for option in 0..self.options() {
            let pair = self.pair(option);
            if placements[usize::from(pair.cell)] == pair.placement {
                options.push(option)?;
            }
        }
        Ok(options)
    }

    /// Returns the arrangement that belongs to a solution. The options may come in any order.
    ///
    /// `NotASolution` comes where the numbers are no solution, also where one is repeated or out of range, and `Memory`
    /// where they are a solution and the list cannot grow.
    pub fn arrangement_of(&self, alloc: Global, options: &[u32]) -> Result<Arrangement, FormFault>
        ensures solution { IfOk result (λ a. IsSolutionOf self.now a options.now) }
        ensures undone { IfOk result
            (λ a. (other : List ℕ) → IsSolutionOf self.now a other → HaveSameOptions other options.now) }
        ensures refused { IsErrOf result FormFault.NotASolution → IsSolution (cover_of self.now) options.now → ⊥ }
        ensures memory { IsErrOf result FormFault.Memory → IsSolution (cover_of self.now) options.now }
    {
        let puzzle = self.puzzle();
        // a tile out of range, where nothing is placed yet
        let nothing = Placement {
            tile: puzzle.tile_count(),
            turn: 0,
        };
        let mut placements = [nothing; MOST_CELLS as usize];
        for option in options {
            if *option >= self.options() {
                return Err(FormFault::NotASolution);
            }
            let pair = self.pair(*option);
            let cell = usize::from(pair.cell);
            if placements[cell] != nothing {
                return Err(FormFault::NotASolution);
            }
            placements[cell] = pair.placement;
        }
        let placements = &placements[..usize::from(self.cells())];
        if puzzle.arrangement_fault(placements).is_some() {
            return Err(FormFault::NotASolution);
        }
        Ok(Arrangement::new(placements.to_vec(alloc)?))
    }
}
