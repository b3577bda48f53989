//! A law of sums of counted parts. The function does nothing: its contract says what holds.

ghost use Rattle.std.specs.Prelude.{ℕ, List};
ghost use Rattle.match_puzzle.specs.Arrangement.{HasArrangements};
ghost use Rattle.xcc_form.specs.Options.{Compiled};
ghost use Rattle.count_search.specs.Branches.{IsSplit, WeightedBranch};
ghost use Rattle.count_totals.specs.Totals.{HaveTotal};
ghost use Rattle.count_totals.specs.declared.lines.Line.{Line};
ghost use Rattle.command_runs.specs.Totals.{AreTrueOf};

/// A law; the call does nothing. If each line of counted parts says how many arrangements that part has, of one split
/// of a puzzle's search, then their total is how many arrangements the puzzle has.
pub fn totals_count_all()
    ensures { (x : Compiled) (branches : List WeightedBranch) (told : List Line) (total : ℕ) → IsSplit x branches
        → AreTrueOf x branches told → HaveTotal told total → HasArrangements x.puzzle total }
{}
