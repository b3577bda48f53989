//! What a search needs from its engine, which keeps the chosen options and the open ones.

ghost use Rattle.std.specs.Prelude.{◌≡◌, ◌<◌, [], IfOk, IfSome, OnErr, MatchOption, length};
ghost use Rattle.xcc_form.specs.Options.{cover_of};
ghost use Rattle.xcc_form.specs.Clashes.{IsOpen, IsOpenAt};
ghost use Rattle.xcc_form.specs.Chosen.{Selection, IsSelection, IsUncovered, AreAllCovered, with_option, without_last};
ghost use Rattle.xcc_form.specs.Chosen.{HasSize, IsToBranchOn, IsNextItem, IsLastItem, IsNext, IsLast};

use crate::xccs::Xcc;
use std::alloc::{AllocError, Global};

/// The engine of a search. It keeps chosen options of a compiled puzzle, no two of which clash, and the open options
/// beside them, in whatever form: `OpenSets` counts what fits.
///
/// An option is open where it clashes with no chosen option. An item is covered where a chosen option has it.
pub trait OpenOptions {
    /// The compiled puzzle and the chosen options.
    ghost selection: { Self → Selection };
    /// The engine as it was before the last choice.
    ghost taken_back: { Self → Self };

    /// Returns the compiled puzzle.
    fn xcc(&self) -> &Xcc<'_>
        ensures { result.now ≡ (selection self.now).compiled };

    /// Returns the chosen options, in the order of choosing.
    fn chosen(&self) -> &[u32]
        ensures value { result.now ≡ (selection self.now).chosen }
        ensures right { IsSelection (selection self.now).compiled (selection self.now).chosen };

    /// Returns the item to branch on: the uncovered primary item with the fewest open options. At a tie it is the one
    /// with the least number, so a cell before a tile. `None` where every primary item is covered.
    fn branch_item(&self) -> Option<u32>
        ensures { let s = selection self.now in MatchOption result
            (AreAllCovered (cover_of s.compiled) s.chosen)
            (IsToBranchOn (cover_of s.compiled) s.chosen) };

    /// Returns the uncovered primary item that comes next after `after`, by number, or the first without one.
    fn next_item(&self, after: Option<u32>) -> Option<u32>
        requires { let s = selection self.now in IfSome after (IsUncovered (cover_of s.compiled) s.chosen) }
        ensures { let s = selection self.now in MatchOption result
            (IsLastItem (cover_of s.compiled) s.chosen after)
            (IsNextItem (cover_of s.compiled) s.chosen after) };

    /// Returns how many open options a primary, uncovered item has.
    fn size(&self, item: u32) -> u32
        requires { let s = selection self.now in IsUncovered (cover_of s.compiled) s.chosen item }
        ensures { let s = selection self.now in HasSize (cover_of s.compiled) s.chosen item result };

    /// Returns the open option of an item that comes next after `after`, by number, or the first without one. The item
    /// has to be primary and uncovered.
    fn next_option(&self, item: u32, after: Option<u32>) -> Option<u32>
        requires item { let s = selection self.now in IsUncovered (cover_of s.compiled) s.chosen item }
        requires after { let s = selection self.now in IfSome after (IsOpenAt (cover_of s.compiled) s.chosen item) }
        ensures { let s = selection self.now in MatchOption result
            (IsLast (cover_of s.compiled) s.chosen item after)
            (IsNext (cover_of s.compiled) s.chosen item after) };

    /// Chooses an open option.
    ///
    /// An error comes where memory is refused; then nothing changes.
    fn choose(&mut self, option: u32) -> Result<(), AllocError>
        requires { let s = selection self.old in IsOpen (cover_of s.compiled) s.chosen option }
        ensures chosen { IfOk result (λ _. selection self.new ≡ with_option (selection self.old) option) }
        ensures before { IfOk result (λ _. taken_back self.new ≡ self.old) }
        ensures room { length (selection self.old).chosen < length (selection self.old).compiled.options }
        ensures refused { OnErr result (self.new ≡ self.old) };

    /// Takes back the option that was chosen last. There has to be one.
    fn undo(&mut self)
        requires { 0 < length (selection self.old).chosen }
        ensures { self.new ≡ taken_back self.old };

    /// Before the last choice, all chosen options but the last were chosen.
    ghost all_but_last: { (s : Self) → selection (taken_back s) ≡ without_last (selection s) };
}

/// An engine that is made from a compiled puzzle, which it may borrow.
pub trait FromCompiled<'a>: OpenOptions + Sized {
    /// Makes an engine in which nothing is chosen yet. An error comes where memory is refused.
    fn from_compiled(alloc: Global, xcc: &'a Xcc<'a>) -> Result<Self, AllocError>
        ensures { IfOk result (λ s. Self.selection s ≡ record { compiled = xcc.now; chosen = [] }) };
}

/// Returns how much an open option leaves: 1, plus the fewest open options that an uncovered item has once this option
/// is chosen too.
///
/// An error comes where memory is refused. The engine is left as it was.
pub fn left_by<E: OpenOptions>(engine: &mut E, option: u32) -> Result<u32, AllocError>
    requires { let s = E.selection engine.old in IsOpen (cover_of s.compiled) s.chosen option }
    ensures { engine.new ≡ engine.old }
{
    engine.choose(option)?;
    let fewest = match engine.branch_item() {
        None => 0,
        Some(item) => engine.size(item),
    };
    engine.undo();
    Ok(fewest.saturating_add(1))
}
