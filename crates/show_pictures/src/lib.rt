//! Puzzles and their arrangements as pictures: documents of Scalable Vector Graphics (SVG 1.1, W3C 2011). And pages with
//! a puzzle's tiles to cut out: documents of HTML that have such pictures.
#![tactic(auto)]

mod arrows;
mod bands;
mod canvases;
mod cells;
mod clued_cells;
mod clues;
mod corners;
mod cut_documents;
mod cut_layouts;
mod cut_pages;
mod cut_plans;
mod descriptions;
mod documents;
mod edges;
mod elements;
mod forms;
mod laws;
mod listed;
mod measures;
mod numbers;
mod palette;
mod parts;
mod pictures;
mod plans;
mod sheets;
mod signed_bands;
mod sites;
mod tiles;
mod trays;

pub use cut_documents::{write_cut_pages, write_cut_pages_with};
pub use cut_plans::{CutPlan, TileSize};
pub use laws::picture_laws;
pub use listed::write_listed_picture;
pub use pictures::{write_arrangement_picture, write_puzzle_picture};
pub use plans::{NotDrawn, PicturePlan};
pub use sheets::{Numbering, write_sheet};
