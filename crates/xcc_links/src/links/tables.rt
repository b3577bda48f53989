//! The nodes of a compiled puzzle, and what each stands for.

ghost use Rattle.std.specs.Prelude.{◌≡◌, ◌<◌, ◌+◌, ◌^◌, ◌++◌, [], ℕ, IfOk, map, drop, length};
ghost use Rattle.xcc_form.specs.ExactCover.{HasPrimary, entry_count};
ghost use Rattle.xcc_form.specs.Options.{Compiled, IsCompiled, cover_of};
ghost use Rattle.xcc_links.specs.TableLayout.{IsLaidOutTo, IsTableOf, IsNodeAt, edge_entry};

use std::alloc::{AllocError, Global};
use xcc_form::{Edge, Xcc};

/// What a node stands for: an option's item, with the colour that it has there. A cell or a tile has colour 0.
#[derive(Clone, Copy)]
pub(crate) struct Entry {
    pub(crate) item: u32,
    pub(crate) option: u32,
    pub(crate) colour: u8,
}

/// All nodes, by number:
///
/// - a node for each item, the head of the list of its options, and one for the root, which counts as the last item;
/// - the nodes of the options, one option after another: of its cell, of its tile, of its edges;
/// - a node for each cell and each tile, in the list of the root. Each of these counts as an option of its own, so the
///   list of items is one more list of options.
///
/// Items that options take are `takable`: the cells, then the tiles. The first of them are the `primaries`, which have
/// to be taken. `starts` says where the nodes of each option begin, and last where those of the last one end.
#[derive(Drop)]
pub(crate) struct NodeTable {
    pub(crate) primaries: u32,
    pub(crate) takable: u32,
    pub(crate) items: u32,
    pub(crate) options: u32,
    pub(crate) entries: Vec<Entry>,
    pub(crate) starts: Vec<u32>,
}

impl NodeTable {
    /// The nodes of a compiled puzzle.
    pub(crate) fn new(alloc: Global, xcc: &Xcc<'_>) -> Result<NodeTable, AllocError>
        requires { IsCompiled xcc.now }
        ensures { IfOk result (IsTableOf xcc.now) }
    {
        let primaries = xcc.primaries();
        let takable = u32::from(xcc.cells()) + u32::from(xcc.puzzle().tile_count());
        let items = takable + xcc.secondaries() + 1;
        let options = xcc.options();
        let nodes = items + xcc.entries() + takable;
        let mut entries = Vec::with_capacity(alloc, nodes as usize)?;
        let mut starts = Vec::with_capacity(alloc, (options + takable + 1) as usize)?;
        add_items(&mut entries, &mut starts, items)?;
        for option in 0..options {
            add_option(&mut entries, &mut starts, xcc, option)?;
        }
        add_roots(&mut entries, &mut starts, items, options, takable)?;
        Ok(NodeTable {
            primaries,
            takable,
            items,
            options,
            entries,
            starts,
        })
    }

    /// The node of the option for the cell or the tile that it takes. It is one of the option's first two nodes.
    pub(crate) fn node_at(&self, option: u32, item: u32) -> u32
        requires { (x : Compiled) × IsCompiled x × IsTableOf x self.now × HasPrimary (cover_of x) option item }
        ensures { IsNodeAt self.now option item result }
    {
        let start = self.starts[option as usize];
        if self.entries[start as usize].item == item {
            start
        } else {
            start + 1
        }
    }
}

// Lays out the items' own nodes.
fn add_items(entries: &mut Vec<Entry>, starts: &mut Vec<u32>, items: u32) -> Result<(), AllocError>
    requires entries { entries.old.items ≡ [] }
    requires starts { starts.old.items ≡ [] }
    ensures { IfOk result (λ _. (x : Compiled) → IsLaidOutTo x items 0 0 entries.new.items starts.new.items) }
{
    for item in 0..items {
        entries.push(Entry {
            item,
            option: 0,
            colour: 0,
        })?;
    }
    starts.push(items)?;
    Ok(())
}

// Lays out the nodes of the next option.
fn add_option(
    entries: &mut Vec<Entry>,
    starts: &mut Vec<u32>,
    xcc: &Xcc<'_>,
    option: u32,
) -> Result<(), AllocError>
    requires option { option < length xcc.now.options }
    requires few { length entries.old.items + entry_count (drop option (cover_of xcc.now).options) < 2 ^ 32 }
    ensures { IfOk result (λ _. (items : ℕ)
        → IsLaidOutTo xcc.now items option 0 entries.old.items starts.old.items
        → IsLaidOutTo xcc.now items (option + 1) 0 entries.new.items starts.new.items) }
{
    let pair = xcc.pair(option);
    entries.push(Entry {
        item: u32::from(pair.cell),
        option,
        colour: 0,
    })?;
    entries.push(Entry {
        item: u32::from(xcc.cells()) + u32::from(pair.placement.tile),
        option,
        colour: 0,
    })?;
    add_edges(entries, xcc.edges(option), option)?;
    starts.push(entries.len() as u32)?;
    Ok(())
}

// Lays out the nodes of an option's edges.
fn add_edges(entries: &mut Vec<Entry>, edges: &[Edge], option: u32) -> Result<(), AllocError>
    ensures { IfOk result (λ _. entries.new.items ≡ entries.old.items ++ map (edge_entry option) edges.now) }
{
    for edge in edges {
        entries.push(Entry {
            item: edge.item,
            option,
            colour: edge.colour,
        })?;
    }
    Ok(())
}

// Lays out the nodes of the root's list: one for each item that options take, which is an option of its own.
fn add_roots(
    entries: &mut Vec<Entry>,
    starts: &mut Vec<u32>,
    items: u32,
    options: u32,
    takable: u32,
) -> Result<(), AllocError>
    requires items { 0 < items }
    requires options { options + takable < 2 ^ 32 }
    requires few { length entries.old.items + takable < 2 ^ 32 }
    ensures { IfOk result (λ _. (x : Compiled)
        → IsLaidOutTo x items options 0 entries.old.items starts.old.items
        → IsLaidOutTo x items options takable entries.new.items starts.new.items) }
{
    for item in 0..takable {
        entries.push(Entry {
            item: items - 1,
            option: options + item,
            colour: 0,
        })?;
        starts.push(entries.len() as u32)?;
    }
    Ok(())
}
