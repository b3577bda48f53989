//! The program without its `main`: how words are run as orders, over which files, how the program ends, and what it
//! says while it runs.
#![tactic(auto)]

mod exits;
mod files;
mod generate_runs;
mod given_inputs;
mod laws;
mod made_files;
mod order_runs;
mod part_files;
mod place_runs;
mod progress;
mod streams;
mod system_limits;
mod word_runs;
mod workers;

pub use command_runs::{HintedFault, RunFault};
pub use exits::Exit;
pub use files::{have_different_names, open};
pub use laws::nothing_is_lost;
pub use order_runs::run_order;
pub use progress::{CheckProgress, SolveProgress};
pub use streams::Streams;
pub use system_limits::SystemLimits;
pub use word_runs::{run_words, stopped};
