//! Why a puzzle has no arrangement, as far as that is seen without a search.
#![tactic(auto)]

mod colours;
mod finding;
mod laws;
mod reasons;
mod sentences;

pub use finding::reasons_of;
pub use laws::reason_laws;
pub use reasons::Reason;
pub use sentences::write_reasons;
