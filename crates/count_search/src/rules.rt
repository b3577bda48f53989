//! Rules by which a count chooses the item that it branches on.

ghost use Rattle.std.specs.Prelude.{MatchOption};
ghost use Rattle.xcc_form.specs.Options.{cover_of};
ghost use Rattle.xcc_form.specs.Chosen.{AreAllCovered, IsUncovered};

use xcc_form::OpenOptions;

/// The rule by which a count chooses the item (a cell, or a tile that has to be placed) that it branches on.
#[derive(Clone, Copy)]
pub enum ItemRule {
    /// The item with the fewest open options.
    Fewest,
    /// The first item, so the cells one after the other; or before it an item that has at most one open option.
    InOrder,
}

impl ItemRule {
    /// Returns the item to branch on, or `None` where every primary item is covered.
    pub(crate) fn item_of<E: OpenOptions>(self, engine: &E) -> Option<u32>
        ensures { let s = E.selection engine.now in MatchOption result
            (AreAllCovered (cover_of s.compiled) s.chosen)
            (IsUncovered (cover_of s.compiled) s.chosen) }
    {
        let fewest = engine.branch_item()?;
        match self {
            ItemRule::InOrder if engine.size(fewest) > 1 => Some(first_item(engine, fewest)),
            _ => Some(fewest),
        }
    }
}

// The first uncovered item. `known` is one of the uncovered items.
fn first_item<E: OpenOptions>(engine: &E, known: u32) -> u32
    requires { let s = E.selection engine.now in IsUncovered (cover_of s.compiled) s.chosen known }
    ensures { let s = E.selection engine.now in IsUncovered (cover_of s.compiled) s.chosen result }
{
    engine.next_item(None).unwrap_or(known)
}
