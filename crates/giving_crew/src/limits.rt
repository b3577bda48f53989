//! What bounds a job.

/// The most jobs that one job gives away.
pub const MOST_GIVEN: usize = 64;
