//! The crew machine: what a crew of workers with queues may do, step by step, and what holds in every run.
#![tactic(auto)]

mod calls;
mod events;
mod laws;
mod states;
mod steps;

pub use events::Event;
pub use laws::every_run_is_sound;
pub use states::State;
pub use steps::StepFault;
