//! Certificates, which prove that a list of arrangements of a puzzle is complete: numbered claims (lemmas), each with a
//! tree of cases that shows it, and how they are put together from pieces.
#![tactic(auto)]

mod assemblies;
mod certificates;
mod conversions;
mod copies;
mod faults;
mod flat_lemmas;
mod flat_trees;
mod heads;
mod laws;
mod nodes;
mod numbered;
mod packed_lemmas;
mod packed_trees;
mod slots;
mod strangers;
mod within_limits;

pub use assemblies::{assemble, assemble_flat};
pub use certificates::{Certificate, Lemma, Pairs};
pub use faults::AssembleFault;
pub use flat_lemmas::{FlatLemma, LemmaSpan, Lemmas};
pub use flat_trees::{FlatTree, Trees};
pub use heads::Head;
pub use laws::{assembly_laws, head_laws};
pub use nodes::{Children, Node};
pub use numbered::assembled;
pub use packed_lemmas::PackedLemma;
pub use packed_trees::PackedTree;
