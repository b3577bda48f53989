//! Partial arrangements that keep counts of what still fits.
#![tactic(auto)]

mod behind;
mod fit_counts;
mod fit_rows;
mod fit_sizes;
mod placing;

pub use fit_counts::FitCounts;
