//! Engines that see that nothing is to be found.

ghost use Rattle.std.specs.Prelude.{List, IsTrue};
ghost use Rattle.match_puzzle.specs.declared.placements.Placement.{Placement};
ghost use Rattle.count_search.specs.Extensions.{IsExtension};

use xcc_dance::OpenSets;
use xcc_form::OpenOptions;

/// An engine that sees of some choices that no arrangement has them all, though each item may have open options.
pub trait RulesOut: OpenOptions {
    /// Returns whether it sees that no arrangement has all chosen options. Where it doesn't, there may still be none.
    fn is_ruled_out(&self) -> bool
        ensures { IsTrue result → (a : List Placement) → IsExtension (Self.selection self.now) a → ⊥ };
}

// It sees nothing but open options.
impl<'a> RulesOut for OpenSets<'a> {
    fn is_ruled_out(&self) -> bool {
        false
    }
}
