//! A certificate's lemmas in parts, each of which is a job of a crew.

ghost use Rattle.std.specs.Prelude.{◌≡◌, ◌≤◌, IfOk, length};
ghost use Rattle.match_limits.specs.declared.TheConstants.{MOST_LEMMAS};
ghost use Rattle.cert_text.specs.LemmaParts.{AreCut, AreStarts, IsPart, part_start};

use cert_tree::Lemmas;
use std::alloc::{AllocError, Global};

// More parts than workers, so that no worker is left alone with a large one.
const PARTS_FOR_EACH: usize = 16;

// No more parts than the most workers take.
const MOST_PARTS: usize = 1_024;

// One thread goes through lemmas with fewer nodes: it is done before others would have started.
const LEAST_NODES: usize = 1 << 17;

// How many nodes all lemmas have together.
fn nodes_of(lemmas: &Lemmas) -> usize {
    let mut nodes: usize = 0;
    for number in 0..lemmas.len() {
        nodes = nodes.saturating_add(lemmas.at(number).tree.nodes());
    }
    nodes
}

// Where the parts begin, followed by the number of lemmas. Each part but the last has at least `nodes` nodes, and less
// without its last lemma.
fn starts_of(alloc: Global, lemmas: &Lemmas, nodes: usize) -> Result<Vec<usize>, AllocError>
    ensures { IfOk result (λ starts. AreStarts (length lemmas.now) starts.items) }
{
    let mut starts = Vec::new(alloc);
    starts.push(0)?;
    let mut in_part: usize = 0;
    for number in 0..lemmas.len() {
        in_part = in_part.saturating_add(lemmas.at(number).tree.nodes());
        if in_part >= nodes && starts.len() < MOST_PARTS {
            starts.push(number + 1)?;
            in_part = 0;
        }
    }
    starts.push(lemmas.len())?;
    Ok(starts)
}

/// Lemmas, cut into parts.
#[derive(Drop)]
pub struct LemmaParts<'a> {
    pub lemmas: &'a Lemmas,
    /// Where each part begins, and where the last one ends.
    pub starts: Vec<usize>,
}

impl<'a> LemmaParts<'a> {
    ghost use Rattle.std.specs.Prelude.{◌≡◌, ◌<◌, ◌≤◌, ◌+◌, ℕ, IfOk, IfSome, length};
    ghost use Rattle.match_limits.specs.declared.TheConstants.{MOST_LEMMAS};
    ghost use Rattle.cert_text.specs.LemmaParts.{AreCut, IsPart, part_start};

    /// Cuts the lemmas into parts with about as many nodes each, for this many workers. `None` where one worker is soon
    /// through with them. An error comes where memory is refused.
    pub fn cut(
        alloc: Global,
        lemmas: &'a Lemmas,
        workers: u8,
    ) -> Result<Option<LemmaParts<'a>>, AllocError>
        ensures lemmas { IfOk result (λ o. IfSome o (λ parts. parts.lemmas.now ≡ lemmas.now)) }
        ensures cut { IfOk result (λ o. IfSome o (λ parts. AreCut parts.lemmas.now parts.starts.items)) }
    {
        let nodes = nodes_of(lemmas);
        if workers <= 1 || nodes < LEAST_NODES {
            return Ok(None);
        }
        let each = (nodes / (usize::from(workers) * PARTS_FOR_EACH)).max(1);
        let starts = starts_of(alloc, lemmas, each)?;
        Ok(Some(LemmaParts { lemmas, starts }))
    }

    /// Returns how many parts there are.
    pub fn count(&self) -> u32
        requires { AreCut self.now.lemmas.now self.now.starts.items }
        ensures few { result ≤ MOST_LEMMAS }
        ensures parts { (number : ℕ) → number < result → IsPart self.now.lemmas.now self.now.starts.items number }
        ensures all { length self.now.starts.items ≡ result + 1 }
    {
        (self.starts.len() - 1) as u32
    }

    /// Returns the number of the part's first lemma, and the number after that of its last.
    pub fn bounds(&self, number: u32) -> (usize, usize)
        requires { IsPart self.now.lemmas.now self.now.starts.items number }
        ensures first { result.0 ≡ part_start self.now.starts.items number }
        ensures last { result.1 ≡ part_start self.now.starts.items (number + 1) }
        ensures within { (result.0 ≤ result.1) × (result.1 ≤ length self.now.lemmas.now) }
    {
        let place = number as usize;
        (self.starts[place], self.starts[place + 1])
    }
}
