//! Link arrays: the open options in the lists of their items, and the options that were taken out.

ghost use Rattle.std.specs.Prelude.{◌≡◌, ◌<◌, ◌≤◌, ◌++◌, ◌∷◌, [], false, IfOk, length};
ghost use Rattle.std.specs.Prelude.{replicate, slice_index_or, take, drop};
ghost use Rattle.xcc_links.specs.ArrayWords.{IsTable, HasOption, FitTable, ListTheOpen, CanGoBack};
ghost use Rattle.xcc_links.specs.ArrayWords.{arrays_of, item_at, with_back};
ghost use Rattle.xcc_links.specs.NodeTables.{AreOptions, has};
ghost use Rattle.xcc_links.specs.Rings.{AreAlone, Inside, unlinked, relinked, fewer_at, more_at};
ghost use Rattle.xcc_links.specs.Trails.{back};

use crate::links::tables::NodeTable;
use std::alloc::{AllocError, Global};

/// The neighbours of a node in the list of its item, which is a ring. A node that is taken out keeps its neighbours, so
/// it can be put back between them.
#[derive(Clone, Copy)]
pub(crate) struct Link {
    pub(crate) up: u32,
    pub(crate) down: u32,
}

/// Links by node, the lengths of the lists by item, and the options that were taken out of all lists, in that order.
#[derive(Drop)]
pub(crate) struct LinkArrays {
    pub(crate) links: Vec<Link>,
    pub(crate) sizes: Vec<u32>,
    pub(crate) trail: Vec<u32>,
}

// `nodes` nodes, each of which is its own neighbour.
fn links_alone(alloc: Global, nodes: u32) -> Result<Vec<Link>, AllocError>
    ensures { IfOk result (λ links. AreAlone links.items nodes) }
{
    let mut links = Vec::with_capacity(alloc, nodes as usize)?;
    for node in 0..nodes {
        links.push(Link {
            up: node,
            down: node,
        })?;
    }
    Ok(links)
}

impl LinkArrays {
    /// Nothing is hidden: the nodes of all options are in their lists.
    ///
    /// An `Err` comes where memory is refused. The trail has room for each option once.
    pub(crate) fn new(alloc: Global, table: &NodeTable) -> Result<LinkArrays, AllocError>
        requires table { IsTable table.now }
        ensures trail { IfOk result (λ t. t.trail.items ≡ []) }
        ensures right { IfOk result (ListTheOpen table.now) }
    {
        let nodes = table.entries.len() as u32;
        let links = links_alone(alloc, nodes)?;
        let sizes = vec![in alloc; 0; table.items as usize]?;
        let trail = Vec::with_capacity(alloc, table.starts.len())?;
        let mut arrays = LinkArrays {
            links,
            sizes,
            trail,
        };
        arrays.link_all(table);
        Ok(arrays)
    }

    // Puts the nodes of all options into the lists of their items, each behind the last. All stand alone.
    fn link_all(&mut self, table: &NodeTable)
        requires table { IsTable table.now }
        requires alone { AreAlone self.old.links.items (length table.now.entries.items) }
        requires sizes { self.old.sizes.items ≡ replicate table.now.items 0 }
        requires trail { self.old.trail.items ≡ [] }
        ensures trail { self.new.trail.items ≡ [] }
        ensures right { ListTheOpen table.now self.new }
    {
        let nodes = table.entries.len() as u32;
        for node in table.items..nodes {
            let item = table.entries[node as usize].item;
            let last = self.links[item as usize].up;
            self.links[node as usize] = Link {
                up: last,
                down: item,
            };
            self.relink(table, node);
        }
    }

    // Takes a node out of its item's list.
    fn unlink(&mut self, table: &NodeTable, node: u32)
        requires node { node < length self.old.links.items }
        requires entry { node < length table.now.entries.items }
        requires inside { Inside self.old.links.items }
        requires item { item_at table.now node < length self.old.sizes.items }
        requires some { 0 < slice_index_or self.old.sizes.items (item_at table.now node) 0 }
        ensures links { self.new.links.items ≡ unlinked self.old.links.items node }
        ensures sizes { self.new.sizes.items ≡ fewer_at self.old.sizes.items (item_at table.now node) }
        ensures trail { self.new.trail.items ≡ self.old.trail.items }
    {
        let link = self.links[node as usize];
        let above = self.links[link.up as usize];
        self.links[link.up as usize] = Link {
            down: link.down,
            ..above
        };
        let below = self.links[link.down as usize];
        self.links[link.down as usize] = Link {
            up: link.up,
            ..below
        };
        let item = table.entries[node as usize].item as usize;
        self.sizes[item] -= 1;
    }

    // Puts a node back between its neighbours.
    fn relink(&mut self, table: &NodeTable, node: u32)
        requires node { node < length self.old.links.items }
        requires entry { node < length table.now.entries.items }
        requires inside { Inside self.old.links.items }
        requires item { item_at table.now node < length self.old.sizes.items }
        ensures links { self.new.links.items ≡ relinked self.old.links.items node }
        ensures sizes { self.new.sizes.items ≡ more_at self.old.sizes.items (item_at table.now node) }
        ensures trail { self.new.trail.items ≡ self.old.trail.items }
    {
        let link = self.links[node as usize];
        let above = self.links[link.up as usize];
        self.links[link.up as usize] = Link {
            down: node,
            ..above
        };
        let below = self.links[link.down as usize];
        self.links[link.down as usize] = Link { up: node, ..below };
        let item = table.entries[node as usize].item as usize;
        self.sizes[item] = self.sizes[item].wrapping_add(1);
    }

    /// Takes the nodes of an option out of the lists of their items.
    ///
    /// An `Err` comes where the trail can't grow. Then nothing changes.
    pub(crate) fn hide(&mut self, table: &NodeTable, option: u32) -> Result<(), AllocError>
        requires table { IsTable table.now }
        requires option { HasOption table.now option }
        requires right { ListTheOpen table.now self.old }
        requires free { has self.old.trail.items option ≡ false }
        ensures right { ListTheOpen table.now self.new }
        ensures goes { CanGoBack table.now self.old self.new }
        ensures hidden { IfOk result (λ _. self.new.trail.items ≡ self.old.trail.items ++ option ∷ []) }
    {
        self.trail.push(option)?;
        for node in table.starts[option as usize]..table.starts[option as usize + 1] {
            self.unlink(table, node);
        }
        Ok(())
    }

    // Puts the nodes of an option back, the last first.
    fn show(&mut self, table: &NodeTable, option: u32)
        requires table { IsTable table.now }
        requires option { HasOption table.now option }
        requires fits { FitTable table.now self.old }
        ensures fits { FitTable table.now self.new }
        ensures back { arrays_of self.new ≡ with_back table.now option (arrays_of self.old) }
        ensures trail { self.new.trail.items ≡ self.old.trail.items }
    {
        let start = table.starts[option as usize];
        let mut node = table.starts[option as usize + 1];
        while node > start {
            node -= 1;
            self.relink(table, node);
        }
    }

    /// Puts back the options that were hidden after the trail had this length, the last one first.
    pub(crate) fn show_back(&mut self, table: &NodeTable, mark: usize)
        requires table { IsTable table.now }
        requires mark { mark ≤ length self.old.trail.items }
        requires fits { FitTable table.now self.old }
        requires options { AreOptions table.now.starts.items self.old.trail.items }
        ensures back { arrays_of self.new
            ≡ back (with_back table.now) (drop mark self.old.trail.items) (arrays_of self.old) }
        ensures trail { self.new.trail.items ≡ take mark self.old.trail.items }
    {
        while self.trail.len() > mark {
            if let Some(option) = self.trail.pop() {
                self.show(table, option);
            }
        }
    }
}
