//! Boards, their borders, tiles, mates of colours, clues, and where a symmetry takes all of these.
#![tactic(auto)]

mod boards;
mod borders;
mod classes;
mod clues;
mod figures;
mod first_sides;
mod hexagons;
mod laws;
mod mates;
mod rectangles;
mod shapes;
mod symmetry_lines;
mod tiles;
mod triangles;

pub use boards::{Board, BoardFault};
pub use borders::{Border, BorderRules};
pub use classes::{TilesFault, all_tiles};
pub use clues::Clue;
pub use figures::Figure;
pub use first_sides::first_side;
pub use laws::{second_form_is_alike, shapes_are_known_by_their_cells};
pub use mates::{broken_mate, mate_in};
pub use symmetry_lines::{Images, SymmetryLine};
pub use tiles::{Tile, TileFault};
