//! Heads: nodes without their children.

use match_puzzle::Item;

/// A node without its children. The head of a branch says how many there are.
///
/// In preorder the children of a node follow it, one after the other, each with everything below it. So heads in this
/// order say, without anything else, which trees they belong to. A head takes 8 bytes.
///
/// The numbers may be any. Those that were read from a text are in these ranges:
///
/// - cells and tiles: within the range of the text's version
/// - children of a branch: at least one, within the range of the text's version
/// - arrangements and lemmas: below 1,000,000
/// - symmetries: below 1,024
#[derive(Clone, Copy, PartialEq, Eq)]
pub enum Head {
    /// A branch on the cell, with this number of children.
    Cell { cell: u16, children: u32 },
    /// A branch on the tile, with this number of children.
    Tile { tile: u16, children: u32 },
    /// Nothing fits at this cell.
    DeadCell(u16),
    /// This tile fits nowhere.
    DeadTile(u16),
    /// The placed pairs are the listed arrangement with this number.
    Found(u32),
    /// The placed pairs include the prefix of the lemma with this number.
    Same(u32),
    /// The placed pairs include the image of this lemma's prefix under the symmetry with this number.
    // Fields lie in memory in the order written here: with the shorter number first a head takes 8 bytes.
    Image { symmetry: u16, lemma: u32 },
}

const _: () = prove!(size_of::<Head>() == 8);

impl Head {
    ghost use Rattle.std.specs.Prelude.{◌≡◌};
    ghost use Rattle.cert_tree.specs.Heads.{arity, branch_head, dead_head};

    /// Returns a branch on the item (a cell or a tile), with this number of children.
    pub fn branch(item: Item, children: u32) -> Head
        ensures { result ≡ branch_head item children }
    {
        match item {
            Item::Cell(cell) => Head::Cell { cell, children },
            Item::Tile(tile) => Head::Tile { tile, children },
        }
    }

    /// Returns a dead end at the item: the cell where nothing fits, or the tile that fits nowhere.
    pub fn dead(item: Item) -> Head
        ensures { result ≡ dead_head item }
    {
        match item {
            Item::Cell(cell) => Head::DeadCell(cell),
            Item::Tile(tile) => Head::DeadTile(tile),
        }
    }

    /// Returns how many children the node has.
    pub fn children(self) -> u32
        ensures { result ≡ arity self }
    {
        match self {
            Head::Cell { children, .. } | Head::Tile { children, .. } => children,
            Head::DeadCell(_)
            | Head::DeadTile(_)
            | Head::Found(_)
            | Head::Same(_)
            | Head::Image { .. } => 0,
        }
    }
}
