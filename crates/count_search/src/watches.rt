//! Watching a count while it runs.

/// Is told of a count while it runs, by any of the workers. No answer depends on it.
pub trait CensusWatch {
    /// Is called before the first count, by the caller of the counts, with the number of branches that all counts have.
    fn begins(&self, branches: usize);

    /// Is called when one more branch is counted, with how many arrangements it has, times its weight.
    fn counted(&self, arrangements: u64);
}
