//! Copies lemmas.

ghost use Rattle.std.specs.Prelude.{◌≡◌, IfOk};
ghost use Rattle.cert_tree.specs.Certificate.{piece_of};
ghost use Rattle.cert_tree.specs.Limits.{IsLemmaWithin};

use crate::certificates::Lemma;
use crate::conversions::flat_lemmas;
use match_limits::MOST_CELLS;
use std::alloc::{AllocError, Global};
use std::slice::from_ref;

impl Lemma {
    /// Makes an equal lemma. The recursion is as deep as the tree.
    pub fn copy(&self, alloc: Global) -> Result<Lemma, AllocError>
        requires { IsLemmaWithin MOST_CELLS (piece_of self.now) }
        ensures { IfOk result (λ copy. piece_of copy ≡ piece_of self.now) }
    {
        let flat = flat_lemmas(alloc, from_ref(self))?;
        flat.at(0).to_lemma(alloc)
    }
}
