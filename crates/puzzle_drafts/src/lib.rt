//! What is asked of a puzzle that is to be made, and why that can't be had.
#![tactic(auto)]

mod drafts;
mod misfits;

pub use drafts::{BorderKind, Choice, Draft, PlainBoard, PlainRules};
pub use misfits::Misfit;
