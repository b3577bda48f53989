//! Tiles in their places, and lemmas that begin with none.

ghost use Rattle.std.specs.Prelude.{◌≡◌, []};

use cert_tree::{Lemma, Node, Pairs};
use match_puzzle::{Pair, Placement};
use std::alloc::Global;

/// The tile, turned so.
pub fn turned(tile: u16, turn: u8) -> Placement
    ensures { result ≡ record { tile = tile; turn = turn } }
{
    Placement { tile, turn }
}

/// The tile at the cell, turned so.
pub fn pair(cell: u16, tile: u16, turn: u8) -> Pair
    ensures { result ≡ record { cell = cell; placement = record { tile = tile; turn = turn } } }
{
    Pair {
        cell,
        placement: turned(tile, turn),
    }
}

/// The lemma with this number and tree that has no prefix.
pub fn lemma_without_prefix(alloc: Global, number: u32, tree: Node) -> Lemma
    ensures { result ≡ record { number = number; prefix = []; tree = tree } }
{
    Lemma {
        number,
        prefix: Pairs::new(Vec::new(alloc)),
        tree,
    }
}
