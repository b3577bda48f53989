//! Runs of the program's orders, from bytes to bytes: checks, explanations, expansions, counts, solves, puzzles that are
//! made, boards, pictures, tiles to cut out, symmetries and lists of tiles. And the texts that tell of faults.
#![tactic(auto)]

mod advice;
mod census_runs;
mod check_runs;
mod cut_runs;
mod description_runs;
mod faults;
mod find_runs;
mod generate_runs;
mod hints;
mod laws;
mod listed_runs;
mod page_runs;
mod picture_runs;
mod printing_runs;
mod questions;
mod readings;
mod running;
mod solve_runs;
mod suggested;
mod tile_runs;
mod total_runs;
mod watches;

pub use byte_streams::{
    Document, Documents, Failed, FileSystem, Sink, Source, cut_joined, write_whole,
};
pub use census_runs::{CensusPlan, run_census};
pub use check_runs::{CheckPlan, run_check, run_check_watched, run_joined};
pub use cut_runs::{run_cut, run_cut_listed};
pub use description_runs::{Description, run_description};
pub use faults::{RunFault, fault_text};
pub use find_runs::{FindPlan, run_find};
pub use generate_runs::{run_generate, run_generate_like};
pub use hints::HintedFault;
pub use laws::totals_count_all;
pub use listed_runs::run_listed;
pub use match_report::Status;
pub use page_runs::{PagePlan, run_page};
pub use picture_runs::run_picture;
pub use printing_runs::{Printing, PrintingPlan, run_expand, run_printing};
pub use readings::read_whole;
pub use show_pictures::{CutPlan, PicturePlan, TileSize};
pub use solve_runs::{SolvePlan, run_solve, run_solve_watched};
pub use solver::SearchPlan;
pub use symmetry_orbits::RandomFold;
pub use tile_runs::{run_tile_lines, run_tiles};
pub use total_runs::run_total;
pub use watches::{CheckSize, CheckWatch, SolveWatch, Watched};
