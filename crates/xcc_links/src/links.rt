//! Chosen options, and arrays of links that keep which options still go with them.

ghost use Rattle.std.specs.Prelude.{◌≡◌, ◌<◌, ◌++◌, ◌∷◌, [], IfOk, IfSome, OnErr, MatchOption, length};
ghost use Rattle.xcc_form.specs.Options.{cover_of};
ghost use Rattle.xcc_form.specs.Clashes.{IsOpen, IsOpenAt};
ghost use Rattle.xcc_form.specs.Chosen.{IsSelection, IsUncovered, AreAllCovered, with_option};
ghost use Rattle.xcc_form.specs.Chosen.{HasSize, IsToBranchOn, IsNextItem, IsLastItem, IsNext, IsLast};
ghost use Rattle.xcc_links.specs.LinkStates.{selection_of, taken_back};

mod arrays;
mod committing;
mod tables;

use arrays::LinkArrays;
use std::alloc::{AllocError, Global};
use std::marker::Model;
use tables::NodeTable;
use xcc_form::{FromCompiled, OpenOptions, Xcc};

/// Chosen options of a compiled puzzle, no two of which clash: they share no cell and no tile, and give no secondary
/// item two colours. The other options are in linked lists, one for each item: dancing links with colours (Knuth,
/// TAOCP 4B, 7.2.2.1, Algorithm C), in arrays of numbered nodes. It borrows the compiled puzzle.
///
/// An option is open where it clashes with no chosen option. An item is covered where a chosen option has it. The list
/// of an item has its open options, so the next one and their number are read off. A choice takes all options that
/// clash with it out of all lists. Taking the choice back puts them in again, the last one first: each link and each
/// size is then as it was.
#[derive(Drop)]
pub struct Links<'a> {
    xcc: &'a Xcc<'a>,
    table: NodeTable,
    arrays: LinkArrays,
    marks: Vec<usize>,
    chosen: Vec<u32>,
}

impl<'a> Model for Links<'a> {
    ghost use Rattle.xcc_links.specs.LinkStates.{LinkState, AreLinksOf, link_state};

    ghost Value = { LinkState };

    ghost view = { λ s. link_state s.xcc.now s.table s.arrays s.marks.items s.chosen.items };

    ghost invariant = { λ s. AreLinksOf s.xcc.now s.table s.arrays s.marks.items s.chosen.items };
}

impl<'a> Links<'a> {
    /// Starts with nothing chosen.
    ///
    /// An error comes where memory is refused, for a node for each item of each option, or for as many options as there
    /// are cells.
    pub fn new(alloc: Global, xcc: &'a Xcc<'a>) -> Result<Links<'a>, AllocError>
        ensures { IfOk result (λ s. selection_of s ≡ record { compiled = xcc.now; chosen = [] }) }
    {
        // what is proved of the puzzle holds for each compiled one
        let puzzle = xcc.puzzle();
        let cells = usize::from(puzzle.board().cells());
        let table = NodeTable::new(alloc, xcc)?;
        let arrays = LinkArrays::new(alloc, &table)?;
        let marks = Vec::with_capacity(alloc, cells)?;
        let chosen = Vec::with_capacity(alloc, cells)?;
        Ok(Links {
            xcc,
            table,
            arrays,
            marks,
            chosen,
        })
    }

    /// Returns the compiled puzzle.
    pub fn xcc(&self) -> &'a Xcc<'a>
        ensures { result.now ≡ self.now.compiled }
    {
        self.xcc
    }

    /// Returns the chosen options, in the order of choosing.
    pub fn chosen(&self) -> &[u32]
        ensures value { result.now ≡ self.now.chosen }
        ensures right { IsSelection self.now.compiled self.now.chosen }
    {
        &self.chosen
    }

    /// Returns the item to branch on: the uncovered primary item with the fewest open options. At a tie it is the one
    /// with the least number, so a cell before a tile. `None` where every primary item is covered.
    pub fn branch_item(&self) -> Option<u32>
        ensures { MatchOption result
            (AreAllCovered (cover_of self.now.compiled) self.now.chosen)
            (IsToBranchOn (cover_of self.now.compiled) self.now.chosen) }
    {
        let root = self.table.items - 1;
        let first = self.table.starts[self.table.options as usize];
        let end = first + self.table.primaries;
        let mut best = None;
        let mut fewest = 0;
        let mut node = self.arrays.links[root as usize].down;
        // the list rises by item, and its first items are the primary ones
        while node != root && node < end {
            let item = node - first;
            let size = self.arrays.sizes[item as usize];
            if best.is_none() || size < fewest {
                best = Some(item);
                fewest = size;
            }
            node = self.arrays.links[node as usize].down;
        }
        best
    }

    /// Returns the uncovered primary item that comes next after `after`, by number, or the first without one.
    pub fn next_item(&self, after: Option<u32>) -> Option<u32>
        requires { IfSome after (IsUncovered (cover_of self.now.compiled) self.now.chosen) }
        ensures { MatchOption result
            (IsLastItem (cover_of self.now.compiled) self.now.chosen after)
            (IsNextItem (cover_of self.now.compiled) self.now.chosen after) }
    {
        let root = self.table.items - 1;
        let first = self.table.starts[self.table.options as usize];
        let end = first + self.table.primaries;
        let node = match after {
            None => root,
            Some(item) => first + item,
        };
        let next = self.arrays.links[node as usize].down;
        if next == root || next >= end {
            None
        } else {
            Some(next - first)
        }
    }

    /// Returns how many open options a primary, uncovered item has.
    pub fn size(&self, item: u32) -> u32
        requires { IsUncovered (cover_of self.now.compiled) self.now.chosen item }
        ensures { HasSize (cover_of self.now.compiled) self.now.chosen item result }
    {
        self.arrays.sizes[item as usize]
    }

    /// Returns the open option of an item that comes next after `after`, by number, or the first without one. The item
    /// has to be primary and uncovered.
    pub fn next_option(&self, item: u32, after: Option<u32>) -> Option<u32>
        requires item { IsUncovered (cover_of self.now.compiled) self.now.chosen item }
        requires after { IfSome after (IsOpenAt (cover_of self.now.compiled) self.now.chosen item) }
        ensures { MatchOption result
            (IsLast (cover_of self.now.compiled) self.now.chosen item after)
            (IsNext (cover_of self.now.compiled) self.now.chosen item after) }
    {
        let node = match after {
            None => item,
            Some(option) => self.table.node_at(option, item),
        };
        let next = self.arrays.links[node as usize].down;
        if next == item {
            None
        } else {
            Some(self.table.entries[next as usize].option)
        }
    }

    /// Chooses an open option.
    ///
    /// An error comes where the list of chosen options, or that of hidden ones, cannot grow; then nothing changes.
    pub fn choose(&mut self, option: u32) -> Result<(), AllocError>
        requires { IsOpen (cover_of self.old.compiled) self.old.chosen option }
        ensures chosen { IfOk result (λ _. selection_of self.new ≡ with_option (selection_of self.old) option) }
        ensures before { IfOk result (λ _. taken_back self.new ≡ self.old) }
        ensures room { length self.old.chosen < length self.old.compiled.options }
        ensures refused { OnErr result (self.new ≡ self.old) }
    {
        let mark = self.arrays.trail.len();
        note_choice(&mut self.marks, mark, &mut self.chosen, option)?;
        if self.arrays.hide_excluded(&self.table, option).is_err() {
            self.marks.pop();
            self.chosen.pop();
            return Err(AllocError);
        }
        Ok(())
    }

    /// Takes back the option that was chosen last. There has to be one.
    pub fn undo(&mut self)
        requires { 0 < length self.old.chosen }
        ensures { self.new ≡ taken_back self.old }
    {
        self.chosen.pop();
        if let Some(mark) = self.marks.pop() {
            self.arrays.show_back(&self.table, mark);
        }
    }
}

impl<'a> OpenOptions for Links<'a> {
    ghost use Rattle.std.specs.Prelude.{refl};
    ghost use Rattle.xcc_links.specs.LinkStates.{selection_of, taken_back as links_taken_back};

    ghost selection = { selection_of };

    ghost taken_back = { links_taken_back };

    ghost all_but_last = { λ s. refl };

    fn xcc(&self) -> &Xcc<'_> {
        self.xcc()
    }

    fn chosen(&self) -> &[u32] {
        self.chosen()
    }

    fn branch_item(&self) -> Option<u32> {
        self.branch_item()
    }

    fn next_item(&self, after: Option<u32>) -> Option<u32> {
        self.next_item(after)
    }

    fn size(&self, item: u32) -> u32 {
        self.size(item)
    }

    fn next_option(&self, item: u32, after: Option<u32>) -> Option<u32> {
        self.next_option(item, after)
    }

    fn choose(&mut self, option: u32) -> Result<(), AllocError> {
        self.choose(option)
    }

    fn undo(&mut self) {
        self.undo();
    }
}

impl<'a> FromCompiled<'a> for Links<'a> {
    fn from_compiled(alloc: Global, xcc: &'a Xcc<'a>) -> Result<Links<'a>, AllocError> {
        Links::new(alloc, xcc)
    }
}

// Notes how many options were hidden, and which one is chosen then.
//
// An error comes where a list cannot grow; then neither gets longer.
fn note_choice(
    marks: &mut Vec<usize>,
    mark: usize,
    chosen: &mut Vec<u32>,
    option: u32,
) -> Result<(), AllocError>
    ensures marks { IfOk result (λ _. marks.new.items ≡ marks.old.items ++ mark ∷ []) }
    ensures chosen { IfOk result (λ _. chosen.new.items ≡ chosen.old.items ++ option ∷ []) }
    ensures no_mark { OnErr result (marks.new.items ≡ marks.old.items) }
    ensures none_chosen { OnErr result (chosen.new.items ≡ chosen.old.items) }
{
    marks.push(mark)?;
    if chosen.push(option).is_err() {
        marks.pop();
        return Err(AllocError);
    }
    Ok(())
}

/// A law; the call does nothing. Links of one compiled puzzle with nothing chosen are the same, in each link and each
/// size. So links whose choices were all taken back are like new ones.
pub fn links_with_nothing_chosen_are_one(first: &Links<'_>, second: &Links<'_>)
    requires compiled { second.now.compiled ≡ first.now.compiled }
    requires first { first.now.chosen ≡ [] }
    requires second { second.now.chosen ≡ [] }
    ensures { second.now ≡ first.now }
{
    // what is proved of the fields holds for all links
    let _first = &first.chosen;
    let _second = &second.chosen;
}
