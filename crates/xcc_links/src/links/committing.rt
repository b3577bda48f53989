//! Choosing an option: what it excludes is taken out of the lists.

ghost use Rattle.std.specs.Prelude.{◌≡◌, ◌⊎◌, ◌<◌, ◌≤◌, ◌+◌, ℕ, IfOk, OnErr, length};
ghost use Rattle.xcc_links.specs.ArrayWords.{IsTable, ListTheOpen, CanGoBack, IsHidden};
ghost use Rattle.xcc_links.specs.ArrayWords.{DiffersAt, IsExcludedAt, IsExcludedBy, HasUncoveredItem};
ghost use Rattle.xcc_links.specs.ArrayWords.{HasUncoveredItems, arrays_of};

use crate::links::arrays::LinkArrays;
use crate::links::tables::NodeTable;
use std::alloc::AllocError;

// The colour of no node.
const NO_COLOUR: u8 = 255;

impl LinkArrays {
    // Hides the options that have the item with another colour.
    fn purify(&mut self, table: &NodeTable, item: u32, colour: u8) -> Result<(), AllocError>
        requires table { IsTable table.now }
        requires item { item < table.now.items }
        requires right { ListTheOpen table.now self.old }
        ensures right { ListTheOpen table.now self.new }
        ensures goes { CanGoBack table.now self.old self.new }
        ensures all { IfOk result
            (λ _. (option : ℕ) → DiffersAt table.now item colour option → IsHidden self.new option) }
        ensures only { IfOk result
            (λ _. (option : ℕ) → IsHidden self.new option
            → IsHidden self.old option ⊎ DiffersAt table.now item colour option) }
    {
        let mut node = self.links[item as usize].down;
        while node != item {
            let link = self.links[node as usize];
            let entry = table.entries[node as usize];
            if entry.colour != colour {
                self.hide(table, entry.option)?;
            }
            node = link.down;
        }
        Ok(())
    }

    // Hides what a node of a chosen option excludes: where its item is a cell or a tile, the item and all options that
    // take it, and else the options that have it with another colour.
    fn commit(&mut self, table: &NodeTable, node: u32) -> Result<(), AllocError>
        requires table { IsTable table.now }
        requires from { table.now.items ≤ node }
        requires to { node < length table.now.entries.items }
        requires right { ListTheOpen table.now self.old }
        requires uncovered { HasUncoveredItem table.now self.old node }
        ensures right { ListTheOpen table.now self.new }
        ensures goes { CanGoBack table.now self.old self.new }
        ensures all { IfOk result
            (λ _. (option : ℕ) → IsExcludedAt table.now node option → IsHidden self.new option) }
        ensures only { IfOk result
            (λ _. (option : ℕ) → IsHidden self.new option
            → IsHidden self.old option ⊎ IsExcludedAt table.now node option) }
    {
        let entry = table.entries[node as usize];
        if entry.item >= table.takable {
            return self.purify(table, entry.item, entry.colour);
        }
        self.hide(table, table.options + entry.item)?;
        self.purify(table, entry.item, NO_COLOUR)
    }

    // Hides all that an option excludes, itself too: its nodes in turn, so first its cell, then its tile, then its
    // edges by item. Where the trail cannot grow, what was hidden so far can be put back.
    fn commit_all(&mut self, table: &NodeTable, option: u32) -> Result<(), AllocError>
        requires table { IsTable table.now }
        requires option { option < table.now.options }
        requires right { ListTheOpen table.now self.old }
        requires uncovered { HasUncoveredItems table.now self.old option }
        ensures right { ListTheOpen table.now self.new }
        ensures goes { CanGoBack table.now self.old self.new }
        ensures all { IfOk result
            (λ _. (other : ℕ) → IsExcludedBy table.now option other → IsHidden self.new other) }
        ensures only { IfOk result
            (λ _. (other : ℕ) → IsHidden self.new other
            → IsHidden self.old other ⊎ IsExcludedBy table.now option other) }
    {
        for node in table.starts[option as usize]..table.starts[option as usize + 1] {
            self.commit(table, node)?;
        }
        Ok(())
    }

    /// Hides the option, and all options that it excludes.
    ///
    /// An `Err` comes where the trail can't grow. Then nothing changes.
    pub(crate) fn hide_excluded(&mut self, table: &NodeTable, option: u32) -> Result<(), AllocError>
        requires table { IsTable table.now }
        requires option { option < table.now.options }
        requires right { ListTheOpen table.now self.old }
        requires uncovered { HasUncoveredItems table.now self.old option }
        ensures right { IfOk result (λ _. ListTheOpen table.now self.new) }
        ensures goes { IfOk result (λ _. CanGoBack table.now self.old self.new) }
        ensures all { IfOk result
            (λ _. (other : ℕ) → IsExcludedBy table.now option other → IsHidden self.new other) }
        ensures only { IfOk result
            (λ _. (other : ℕ) → IsHidden self.new other
            → IsHidden self.old other ⊎ IsExcludedBy table.now option other) }
        ensures arrays { OnErr result (arrays_of self.new ≡ arrays_of self.old) }
        ensures trail { OnErr result (self.new.trail.items ≡ self.old.trail.items) }
    {
        let mark = self.trail.len();
        if self.commit_all(table, option).is_err() {
            self.show_back(table, mark);
            return Err(AllocError);
        }
        Ok(())
    }
}
