//! Watching a check or a solve while it runs.

use cert_check::{Gate, Open};
use solver::{Unwatched, Watch};

/// What is to be done, who watches it, and whether a hint is wanted beside the fault of a text.
#[derive(Drop)]
pub struct Watched<'a, P, W> {
    pub plan: P,
    pub watch: &'a W,
    pub hints: bool,
}

/// How much a check has to look at: listed arrangements, and the symmetries and lemmas of the certificate.
#[derive(Clone, Copy)]
pub struct CheckSize {
    pub listed: usize,
    pub symmetries: usize,
    pub lemmas: usize,
}

/// Is told of a check while it runs. No answer depends on it.
pub trait CheckWatch: Gate {
    /// Is called when a list and a certificate of this size were read, and their check begins.
    fn begins(&self, size: CheckSize);
}

impl CheckWatch for Open {
    fn begins(&self, _size: CheckSize) {}
}

/// Is told of a solve while it runs. No result depends on it.
pub trait SolveWatch: Watch {
    /// Is called before the search, where hints are wanted and more arrangements may be expected than a list can have.
    /// The advice is what may help.
    fn expects_many(&self, advice: &str);

    /// Is called before what was found is checked.
    fn checks(&self);

    /// Is called where the check refuses what was found, with the line of its answer.
    fn refuses(&self, answer: &[u8]);

    /// Is called when a list and a certificate with this many bytes are going to be written.
    fn made(&self, list: usize, certificate: usize);
}

impl SolveWatch for Unwatched {
    fn expects_many(&self, _advice: &str) {}

    fn checks(&self) {}

    fn refuses(&self, _answer: &[u8]) {}

    fn made(&self, _list: usize, _certificate: usize) {}
}
