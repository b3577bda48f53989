//! The files of the system, and its readers and writers as sources and sinks.
#![tactic(auto)]

mod files;
mod places;
mod streams;
mod targets;

pub use files::{System, SystemFile};
pub use streams::{Input, Output};
