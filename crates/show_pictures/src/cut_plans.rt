//! How tiles are printed to be cut out.

use match_limits::Within;

/// How long a tile's side is on paper, in millimetres.
pub type TileSize = Within<10, 100>;

/// How the tiles of a puzzle are printed to be cut out.
#[derive(Clone, Copy)]
pub struct CutPlan {
    /// How long a tile's side is on paper, in millimetres.
    pub size: TileSize,
    /// Whether each tile has its number, from 0.
    pub numbers: bool,
}
