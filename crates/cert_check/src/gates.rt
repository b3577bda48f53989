//! Watching a check while it runs.

/// Is told, by the thread that walks, what it will walk next. No answer depends on it.
pub trait Gate {
    /// Is called for each lemma, before its tree is walked.
    fn enter(&self, lemma: u32);

    /// Is called for each half of a branch's children that is walked beside the other half, with the lemma and the
    /// half's first child, from 0. Does nothing by default.
    fn enter_half(&self, _lemma: u32, _first: u32) {}
}

/// A gate that does nothing.
#[derive(Drop)]
pub struct Open;

impl Gate for Open {
    fn enter(&self, _lemma: u32) {}
}
