//! Trees whose nodes own their children.

/// A node of a tree of cases, which covers all arrangements that extend the placed pairs.
#[cycle(tree)]
#[derive(Drop)]
pub enum Node {
    /// A branch on the cell: a child for each placement that fits there, in the order of tiles, then turns.
    Cell { cell: u16, children: Children },
    /// A branch on the tile: a child for each cell and turn at which it fits, in the order of cells, then turns.
    Tile { tile: u16, children: Children },
    /// Nothing fits at this cell.
    DeadCell(u16),
    /// This tile fits nowhere.
    DeadTile(u16),
    /// The placed pairs are the listed arrangement with this number.
    Found(u32),
    /// The placed pairs include the prefix of the lemma with this number.
    Same(u32),
    /// The placed pairs include the image of this lemma's prefix under the symmetry with this number.
    Image { lemma: u32, symmetry: u16 },
}

/// The children of a branch, in order.
#[cycle(tree)]
#[derive(Drop)]
pub struct Children {
    nodes: Vec<Node>,
}

impl Children {
    ghost use Rattle.std.specs.Prelude.{◌≡◌};

    /// Keeps these nodes, in order.
    pub fn new(nodes: Vec<Node>) -> Children
        ensures { result.nodes.items ≡ nodes.items }
    {
        Children { nodes }
    }

    /// Returns the children, in order.
    pub fn as_slice(&self) -> &[Node]
        ensures { result.now ≡ self.now.nodes.items }
    {
        &self.nodes
    }
}
