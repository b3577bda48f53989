//! What is wrong with the prefixes of lemmas (the pairs that they begin with).

ghost use Rattle.std.specs.Prelude.{◌<◌, ◌^◌, MatchBool, length};
ghost use Rattle.cert_check.specs.Lines.{TellsOfPrefixes};
ghost use Rattle.cert_check.specs.Derivation.{HasRoot};

use cert_tree::Lemmas;
use match_puzzle::{PrefixFault, Puzzle};

// The first lemma that does not begin with a prefix, and what is wrong with it.
pub(crate) fn prefixes_fault(puzzle: &Puzzle, lemmas: &Lemmas) -> Option<(u32, PrefixFault)>
    requires { length lemmas.now < 2 ^ 32 }
    ensures { TellsOfPrefixes puzzle.now lemmas.now result }
{
    for number in 0..lemmas.len() {
        if let Some(fault) = puzzle.prefix_fault(lemmas.at(number).prefix) {
            return Some((number as u32, fault));
        }
    }
    None
}

// Whether there is a last lemma, and it begins with nothing placed.
pub(crate) fn ends_at_a_root(lemmas: &Lemmas) -> bool
    ensures { MatchBool result (HasRoot lemmas.now) (HasRoot lemmas.now → ⊥) }
{
    let count = lemmas.len();
    if count == 0 {
        return false;
    }
    lemmas.at(count - 1).prefix.is_empty()
}
