//! Why a list and its certificate are refused.
#![tactic(auto)]

mod certificate_sentences;
mod cited_pairs;
mod differences;
mod explanations;
mod findings;
mod laws;
mod list_sentences;
mod node_explanations;
mod node_sentences;
mod places;
mod sides;

pub use explanations::write_explanation;
pub use findings::Finding;
pub use laws::missing_laws;
