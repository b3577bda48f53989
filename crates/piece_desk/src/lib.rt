//! Desks: finished lemmas (numbered claims of a certificate) that threads share without a lock.
#![tactic(auto)]

mod desks;
mod flat_desks;
mod turned_assemblies;
mod turnings;

pub use desks::{Desk, Receipt, Shown};
pub use flat_desks::{FlatDesk, FlatReceipt};
