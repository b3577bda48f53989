//! What tests of several crates make: puzzles that were worked out by hand, each with a list and a certificate of it;
//! what texts say, and how it is written again; tiles in their places.
#![tactic(auto)]

mod places;
mod readings;
mod samples;
mod writings;

pub use places::{lemma_without_prefix, pair, turned};
pub use readings::{certificate_of, lemma_of, list_of, puzzle_of};
pub use samples::{
    ALL_OF_TURNING_TRIANGLE, SQUARE_OF_FOUR, SQUARE_OF_FOUR_CERTIFICATE, SQUARE_OF_FOUR_LIST,
    TURNING_TRIANGLE, TURNING_TRIANGLE_ARRANGEMENT, TURNING_TRIANGLE_CERTIFICATE,
    TURNING_TRIANGLE_LIST, TWIN_TILES, TWIN_TILES_AFTER_FIVE, TWIN_TILES_CERTIFICATE,
    TWIN_TILES_FROM_THE_ROOT, TWIN_TILES_LIST, exchange_of_twins, images_of, turning_triangle,
    turning_triangle_list,
};
pub use writings::{certificate_again, is_lemma_line, list_again, puzzle_again};
