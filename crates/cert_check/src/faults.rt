//! What may be wrong with a list or its certificate.

use match_puzzle::{ArrangementFault, PrefixFault};
use puzzle_symmetry::SymmetryFault;
use std::alloc::{AllocError, Global};
use std::marker::Model;

/// What may be wrong with a node of a tree, given the pairs that are placed there.
#[derive(Clone, Copy, PartialEq, Eq, Debug)]
pub enum NodeFault {
    /// A branch or a dead end names a cell that the board does not have.
    CellRange,
    /// A branch or a dead end names a cell that is filled.
    CellTaken,
    /// A branch or a dead end names a tile, where there are more tiles than cells, so that none has to be placed.
    TileSpare,
    /// A branch or a dead end names a tile that the puzzle does not have.
    TileRange,
    /// A branch or a dead end names a tile that is placed.
    TileTaken,
    /// A branch has no children, or not as many as pairs fit.
    WrongCount { fits: u32, children: u32 },
    /// This many pairs fit at a dead end, where none should.
    NotDead { fits: u32 },
    /// The node names a listed arrangement, but a cell is empty.
    NotWhole,
    /// The node names a listed arrangement, and the list has no such number.
    ListRange,
    /// The node names a listed arrangement, and the list has another one at that number.
    NotListed,
    /// The node cites a lemma that does not come before the lemma of the tree.
    NotEarlier,
    /// The node cites the image of a lemma under a symmetry that the certificate does not have.
    SymmetryRange,
    /// The node cites a lemma whose prefix, or the image of it, is not part of what is placed.
    NotWithin,
}

/// The way from the top of a tree to a node: at each step the number of a child, from 0.
#[derive(Debug, Drop)]
pub struct Path {
    steps: Vec<u16>,
}

impl Model for Path {
    ghost use Rattle.std.specs.Prelude.{ℕ, List};

    ghost Value = { List ℕ };

    ghost view = { λ p. p.steps.items };
}

impl Path {
    ghost use Rattle.std.specs.Prelude.{◌≡◌, ◌∷◌, IfOk};

    /// Makes the path with these steps.
    pub fn new(steps: Vec<u16>) -> Path
        ensures { result ≡ steps.items }
    {
        Path { steps }
    }

    /// Returns the child numbers, from the top.
    pub fn steps(&self) -> &[u16]
        ensures { result.now ≡ self.now }
    {
        &self.steps
    }

    // The path with one more step before it.
    fn below(mut self, step: u16) -> Result<Path, AllocError>
        ensures { IfOk result (λ path. path ≡ step ∷ self) }
    {
        self.steps.insert(0, step)?;
        Ok(self)
    }
}

/// The first fault of a tree, in preorder, and the path to its node.
#[derive(Debug, Drop)]
pub struct TreeFault {
    pub path: Path,
    pub fault: NodeFault,
}

impl TreeFault {
    ghost use Rattle.std.specs.Prelude.{◌≡◌, [], ◌∷◌, IfOk};

    // A fault of the first node.
    pub(crate) fn at_top(alloc: Global, fault: NodeFault) -> TreeFault
        ensures { result ≡ record { path = []; fault = fault } }
    {
        let path = Path::new(Vec::new(alloc));
        TreeFault { path, fault }
    }

    // The fault of a tree whose child with this number has this fault.
    pub(crate) fn below(self, number: u16) -> Result<TreeFault, AllocError>
        ensures path { IfOk result (λ r. r.path ≡ number ∷ self.path) }
        ensures fault { IfOk result (λ r. r.fault ≡ self.fault) }
    {
        let TreeFault { path, fault } = self;
        let path = path.below(number)?;
        Ok(TreeFault { path, fault })
    }
}

/// What is wrong with a list or its certificate: the first of these kinds that occurs, at its least number, from 0.
#[derive(Debug, Drop)]
pub enum Fault {
    /// The listed entry with this number is no arrangement of the puzzle.
    List(u32, ArrangementFault),
    /// The listed arrangement with this number equals an earlier one.
    Repeated(u32),
    /// The symmetry line with this number is no symmetry of the puzzle. `Memory` does not come here.
    Symmetry(u32, SymmetryFault),
    /// The lemma with this number does not begin with a prefix: legal placements of different tiles at rising cells.
    Prefix(u32, PrefixFault),
    /// There is no lemma, or the last one does not begin with nothing placed.
    Root,
    /// The tree of the lemma with this number has a fault.
    Tree(u32, TreeFault),
}

/// The checker's answer about a list and a certificate.
#[derive(Debug, Drop)]
pub enum Answer {
    /// The list has different arrangements of the puzzle, and the certificate's symmetries reach all others from them.
    Complete,
    /// The certificate does not show that, for this reason.
    Refused(Fault),
}
