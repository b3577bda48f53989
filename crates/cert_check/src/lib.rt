//! The checker of certificates: whether a certificate (numbered lemmas, each with a tree of cases) shows that a list of
//! arrangements of a puzzle is complete.
#![tactic(auto)]

mod checks;
mod crew_checks;
mod faults;
mod fitting;
mod forks;
mod gates;
mod jobs;
mod laws;
mod list_faults;
mod node_faults;
mod pairs_left;
mod prefixes;
mod prepared;
mod questions;
mod repeats;
mod scenes;
mod settings;
mod symmetries;
mod walks;

pub use checks::{check, tree_fault};
pub use crew_checks::{check_question, check_with};
pub use faults::{Answer, Fault, NodeFault, Path, TreeFault};
pub use forks::forked_tree_fault;
pub use gates::{Gate, Open};
pub use laws::{one_answer, second_form_has_the_same_answers};
pub use prepared::Prepared;
pub use questions::Question;
pub use repeats::first_repeated;
pub use scenes::Scene;
pub use symmetries::{SymmetriesFault, make_symmetries};
