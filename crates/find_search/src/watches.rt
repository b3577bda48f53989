//! Watching a search for some arrangements while it runs.

/// Is told of a search while it runs, by any of the workers. No answer depends on it.
pub trait FindWatch {
    /// Is called when a worker begins a pass, with how many nodes it may visit before it finds an arrangement; `None`
    /// where the pass has no bound.
    fn begins(&self, fuel: Option<u64>);

    /// Is called from time to time while a pass goes on: each 1,024 nodes.
    fn goes_on(&self);

    /// Is called when a worker has found one more arrangement, with how many it has found in this pass.
    fn found(&self, arrangements: usize);
}
