//! What the board at a node says of the list.

ghost use Rattle.std.specs.Prelude.{◌≡◌, List, Some, Contains, IfOk, MatchBool, MatchOption, map};
ghost use Rattle.match_puzzle.specs.Arrangement.{IsArrangement};
ghost use Rattle.match_puzzle.specs.ArrangementFaults.{IsArrangementFault};
ghost use Rattle.match_puzzle.specs.Puzzle.{IsPuzzle};
ghost use Rattle.match_puzzle.specs.declared.faults.ArrangementFault.{ArrangementFault as Fault};
ghost use Rattle.match_puzzle.specs.declared.placements.Placement.{Placement as PlacementOf};
ghost use Rattle.puzzle_symmetry.specs.Complete.{AreSymmetries};
ghost use Rattle.cert_check.specs.Setting.{motions_of};
ghost use Rattle.show_refusals.specs.Findings.{AreFaultless, IsFinding, IsUnlisted, closing_of};

use cert_check::{Question, SymmetriesFault, make_symmetries};
use indexmap::IndexSet;
use match_puzzle::{Arrangement, Partial, Placement};
use puzzle_symmetry::Symmetry;
use std::alloc::{AllocError, Global};
use std::hash::BuildHasher;
use std::slice;
use symmetry_orbits::{ExpandFault, expand, orbit_laws};

/// What a board says of a list.
#[derive(Clone, Copy)]
pub enum Finding {
    /// Nothing: it has no arrangement, or a listed one.
    Nothing,
    /// Its arrangement is neither listed nor an image of a listed one.
    Missing,
    /// Its arrangement isn't listed, and is an image of a listed one.
    Image,
    /// Its arrangement isn't listed, and has more than 1,000,000 images.
    TooMany,
}

impl Finding {
    // How an explanation ends.
    pub(crate) fn closing(self) -> &'static [u8]
        ensures { result.now ≡ closing_of self }
    {
        match self {
            Finding::Nothing => b"This does not say that the list is incomplete.\n",
            Finding::Missing => {
                b"The board is an arrangement of the puzzle. It is not listed, nor is it an image of a listed one: the list is incomplete.\n"
            }
            Finding::Image => {
                b"The board is an arrangement of the puzzle. It is not listed, but it is an image of a listed one.\nThis does not say that the list is incomplete.\n"
            }
            Finding::TooMany => {
                b"The board is an arrangement of the puzzle. It is not listed, and it has too many images to look for a listed one.\nThis does not say that the list is incomplete.\n"
            }
        }
    }
}

// What the board says of the question's list, by an orbit that is made with this hash.
pub(crate) fn finding_of<S: BuildHasher + Drop>(
    alloc: Global,
    question: &Question<'_>,
    partial: &Partial<'_>,
    hasher: S,
) -> Result<Finding, AllocError>
    requires board { partial.now.puzzle ≡ question.now.puzzle }
    requires faultless { AreFaultless question.now }
    ensures { IfOk result (IsFinding question.now partial.now.placed) }
{
    if is_listed(question.listed(), partial) {
        return Ok(Finding::Nothing);
    }
    let Some(arrangement) = arrangement_on(alloc, partial)? else {
        return Ok(Finding::Nothing);
    };
    // It says that there is such a puzzle.
    let _ = partial.puzzle();
    unlisted_finding(alloc, question, &arrangement, hasher)
}

// Whether what is placed is a listed one.
fn is_listed(listed: &[Arrangement], partial: &Partial<'_>) -> bool
    ensures { MatchBool result
        ((a : List PlacementOf) × Contains listed.now a × (partial.now.placed ≡ map Some a))
        ((a : List PlacementOf) → Contains listed.now a → partial.now.placed ≡ map Some a → ⊥) }
{
    for arrangement in listed {
        if partial.equals(arrangement.placements()) {
            return true;
        }
    }
    false
}

// The arrangement on the board, if it is one.
fn arrangement_on(alloc: Global, partial: &Partial<'_>) -> Result<Option<Arrangement>, AllocError>
    ensures { IfOk result (λ found. MatchOption found
        ((a : List PlacementOf) → partial.now.placed ≡ map Some a
        → (fault : Fault) × IsArrangementFault partial.now.puzzle a fault)
        (λ a. (partial.now.placed ≡ map Some a) × IsArrangement partial.now.puzzle a)) }
{
    let Some(placements) = placements_on(alloc, partial)? else {
        return Ok(None);
    };
    match partial.puzzle().arrangement_fault(&placements) {
        Some(_) => Ok(None),
        None => Ok(Some(Arrangement::new(placements))),
    }
}

// What is placed at the cells in order, where none is empty.
fn placements_on(alloc: Global, partial: &Partial<'_>) -> Result<Option<Vec<Placement>>, AllocError>
    ensures { IfOk result (λ found. MatchOption found
        ((a : List PlacementOf) → partial.now.placed ≡ map Some a → ⊥)
        (λ placements. partial.now.placed ≡ map Some placements.items)) }
{
    let mut placements = Vec::new(alloc);
    for cell in 0..partial.puzzle().board().cells() {
        let Some(placement) = partial.at(cell) else {
            return Ok(None);
        };
        placements.push(placement)?;
    }
    Ok(Some(placements))
}

// Whether an arrangement that isn't listed is an image of a listed one.
fn unlisted_finding<S: BuildHasher + Drop>(
    alloc: Global,
    question: &Question<'_>,
    arrangement: &Arrangement,
    hasher: S,
) -> Result<Finding, AllocError>
    requires puzzle { IsPuzzle question.now.puzzle }
    requires faultless { AreFaultless question.now }
    requires unlisted { IsUnlisted question.now (map Some arrangement.now) arrangement.now }
    ensures { IfOk result (IsFinding question.now (map Some arrangement.now)) }
{
    let None = question.list_fault() else {
        unreachable!();
    };
    let symmetries = symmetries_of(alloc, question)?;
    let orbit = match expand(alloc, slice::from_ref(arrangement), &symmetries, hasher) {
        Ok(orbit) => orbit,
        Err(ExpandFault::TooMany) => return Ok(Finding::TooMany),
        Err(ExpandFault::Memory) => return Err(AllocError),
    };
    orbit_laws();
    if has_some(&orbit, question.listed()) {
        Ok(Finding::Image)
    } else {
        Ok(Finding::Missing)
    }
}

// The symmetries of the certificate's lines.
fn symmetries_of<'a>(
    alloc: Global,
    question: &Question<'a>,
) -> Result<Vec<Symmetry<'a>>, AllocError>
    requires { AreFaultless question.now }
    ensures made { IfOk result (λ made. made.items ≡ motions_of question.now) }
    ensures are { IfOk result (λ made. AreSymmetries question.now.puzzle question.now.symmetries) }
{
    match make_symmetries(
        alloc,
        question.puzzle(),
        question.certificate().symmetries(),
    ) {
        Ok(symmetries) => Ok(symmetries),
        Err(SymmetriesFault::Memory) => Err(AllocError),
        Err(SymmetriesFault::Line(..)) => unreachable!(),
    }
}

// Whether one of these is in the set.
fn has_some<S: BuildHasher>(set: &IndexSet<Arrangement, S>, arrangements: &[Arrangement]) -> bool
    ensures { MatchBool result
        ((a : List PlacementOf) × Contains arrangements.now a × Contains set.now.keys a)
        ((a : List PlacementOf) → Contains arrangements.now a → Contains set.now.keys a → ⊥) }
{
    for arrangement in arrangements {
        if set.contains(arrangement) {
            return true;
        }
    }
    false
}
