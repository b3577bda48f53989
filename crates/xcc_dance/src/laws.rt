//! Laws that hold for every selection of options. The functions do nothing: their contracts say what holds.

ghost use Rattle.std.specs.Prelude.{ℕ, List};
ghost use Rattle.match_puzzle.specs.declared.placements.Pair.{Pair};
ghost use Rattle.xcc_form.specs.ExactCover.{IsSolution};
ghost use Rattle.xcc_form.specs.Options.{Compiled, IsCompiled, cover_of};
ghost use Rattle.xcc_form.specs.Chosen.{IsSelection, AreAllCovered};
ghost use Rattle.xcc_dance.specs.Placing.{ArePairsOf};
ghost use Rattle.xcc_dance.specs.FittingOptions.{AreOpenWhereFitting, AreOpenWhereSettling, AreOpenWhereListed};
ghost use Rattle.xcc_dance.specs.FittingOptions.{AreOpenInOrder, AreFittingInOrder, AreAsManyAsFitting};
ghost use Rattle.xcc_dance.specs.FittingOptions.{AreUncoveredWhereOpen, AreBranchedOnWhereFewest, StandAsPairs};

/// A law; the call does nothing. Chosen options, no two of which clash and which cover all primary items, are a
/// solution of the exact cover.
pub fn whole_selections_are_solutions()
    ensures { (x : Compiled) (chosen : List ℕ) → IsSelection x chosen → AreAllCovered (cover_of x) chosen
        → IsSolution (cover_of x) chosen }
{}

/// A law; the call does nothing. An option goes with the chosen ones exactly where its pair (a cell and a placement)
/// fits beside theirs.
pub fn open_options_are_those_that_fit()
    ensures { (x : Compiled) (chosen : List ℕ) (pairs : List Pair) → IsSelection x chosen → ArePairsOf x chosen pairs
        → AreOpenWhereFitting x chosen pairs }
{}

/// A law; the call does nothing. An option of a cell or a tile goes with the chosen ones exactly where its pair is one
/// of those that fit there. The list of all pairs that fit there has the pairs of these options, in the order of the
/// options, and is as long as there are such options.
pub fn open_options_are_listed()
    ensures settling { (x : Compiled) (chosen : List ℕ) (pairs : List Pair) → IsSelection x chosen
        → ArePairsOf x chosen pairs → AreOpenWhereSettling x chosen pairs }
    ensures listed { (x : Compiled) (chosen : List ℕ) (pairs : List Pair) → IsSelection x chosen
        → ArePairsOf x chosen pairs → AreOpenWhereListed x chosen pairs }
    ensures in_order { (x : Compiled) (chosen : List ℕ) (pairs : List Pair) → IsSelection x chosen
        → ArePairsOf x chosen pairs → AreOpenInOrder x chosen pairs }
    ensures all_fitting { (x : Compiled) (chosen : List ℕ) (pairs : List Pair) → IsSelection x chosen
        → ArePairsOf x chosen pairs → AreFittingInOrder x chosen pairs }
    ensures sizes { (x : Compiled) (chosen : List ℕ) (pairs : List Pair) → IsSelection x chosen
        → ArePairsOf x chosen pairs → AreAsManyAsFitting x chosen pairs }
{}

/// A law; the call does nothing. No chosen option has a cell or a tile exactly where the pairs of the chosen options
/// leave it open.
pub fn uncovered_items_are_open()
    ensures { (x : Compiled) (chosen : List ℕ) (pairs : List Pair) → IsSelection x chosen → ArePairsOf x chosen pairs
        → AreUncoveredWhereOpen x chosen pairs }
{}

/// A law; the call does nothing. The cell or tile to branch on is the first of those with the fewest pairs that fit.
pub fn branch_items_have_the_fewest()
    ensures { (x : Compiled) (chosen : List ℕ) (pairs : List Pair) → IsSelection x chosen → ArePairsOf x chosen pairs
        → AreBranchedOnWhereFewest x chosen pairs }
{}

/// A law; the call does nothing. The options of one cell or tile are numbered in the order of the pairs that settle it.
pub fn options_stand_as_pairs()
    ensures { (x : Compiled) → IsCompiled x → StandAsPairs x }
{}
