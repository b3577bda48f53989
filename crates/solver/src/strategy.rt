//! Which item a solve takes at the root, which lemmas it plans, and which of them a search cites: by guesses of the
//! work that each leaves. No contract depends on this: change it and measure.

pub mod choices;
mod dives;
mod guesses;
pub mod images;
pub mod items;
mod orbits;
pub mod plans;
pub mod roots;
