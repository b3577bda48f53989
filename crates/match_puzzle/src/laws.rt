//! What follows for every puzzle.

ghost use Rattle.std.specs.Prelude.{◌≡◌, ◌↔◌, ℕ, List, []};
ghost use Rattle.match_puzzle.specs.Puzzle.{Task, IsPuzzle, GoTogether, second_form_of};
ghost use Rattle.match_puzzle.specs.Arrangement.{IsArrangement, AllTilesArePlaced};
ghost use Rattle.match_puzzle.specs.Prefix.{Prefix};
ghost use Rattle.match_puzzle.specs.Fitting.{Fits};
ghost use Rattle.match_puzzle.specs.declared.placements.Placement.{Placement};

/// Does nothing. Its promises are laws:
/// - Where there are as many tiles as cells, an arrangement uses each tile.
/// - In a puzzle, whether two colours go together doesn't depend on which is named first. Without mates, a colour goes
///   with itself.
/// - The second form of a puzzle (a shape in place of a rectangle) is a puzzle. It has the same arrangements, and what
///   fits a prefix is the same.
pub fn puzzle_laws()
    ensures placed { AllTilesArePlaced }
    ensures turned { (p : Task) (colour other : ℕ) → IsPuzzle p → GoTogether p colour other → GoTogether p other colour }
    ensures alike { (p : Task) (colour other : ℕ) → p.mating.mates ≡ [] → GoTogether p colour other ↔ (colour ≡ other) }
    ensures puzzle { (p : Task) → IsPuzzle p → IsPuzzle (second_form_of p) }
    ensures arrangements { (p : Task) (a : List Placement) → IsArrangement p a ↔ IsArrangement (second_form_of p) a }
    ensures fits { (p : Task) (q : Prefix) (cell : ℕ) (x : Placement)
        → Fits p q cell x ↔ Fits (second_form_of p) q cell x }
{}
