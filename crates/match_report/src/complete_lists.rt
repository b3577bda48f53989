//! What is printed of a complete list: all arrangements of the puzzle, one of each orbit, or how many there are.

ghost use Rattle.std.specs.Prelude.{◌≡◌, List, IfOk, IsErrOf, length};
ghost use Rattle.match_limits.specs.declared.TheConstants.{MOST_ARRANGEMENTS};
ghost use Rattle.match_puzzle.specs.declared.placements.Placement.{Placement};
ghost use Rattle.match_limits.specs.declared.ranges.TheConstants.{SECOND};
ghost use Rattle.match_text.specs.ListSpelling.{IsListText, IsListWithin};
ghost use Rattle.puzzle_symmetry.specs.Complete.{IsCompleteList};
ghost use Rattle.symmetry_orbits.specs.Expansion.{AreMoreReached};
ghost use Rattle.symmetry_orbits.specs.Orbits.{AreMoreListedOrInOrbit};
ghost use Rattle.match_report.specs.CompleteLists.{AreAllInOrder, AreFirstsOf, IsCountOf, count_text};

use cert_check::Prepared;
use indexmap::IndexSet;
use match_puzzle::Arrangement;
use match_text::write_list;
use std::alloc::{AllocError, Global};
use std::hash::BuildHasher;
use symmetry_orbits::{
    Count, ExpandFault, count, counting_laws, distinct_symmetries, expand, first_of_each_orbit,
};
use text_words::put_number_line;

/// Returns all arrangements of the puzzle, from a complete list, each once: the listed ones and then their images, in
/// the order in which the symmetries reach them.
///
/// `TooMany` comes only where there are over 1,000,000, and `Memory` where memory is refused.
pub fn expand_complete<S: BuildHasher + Drop>(
    alloc: Global,
    prepared: Prepared<'_>,
    hasher: S,
) -> Result<IndexSet<Arrangement, S>, ExpandFault>
    requires { IsCompleteList prepared.puzzle prepared.symmetries prepared.listed }
    ensures all { IfOk result (λ all. AreAllInOrder prepared.entry all.keys) }
    ensures within { IfOk result (λ all. IsListWithin SECOND all.keys) }
    ensures too_many { IsErrOf result ExpandFault.TooMany
        → AreMoreReached MOST_ARRANGEMENTS prepared.entry.puzzle prepared.entry.symmetries prepared.entry.listed }
{
    let question = prepared.question();
    let listed = question.listed();
    let lines = question.certificate().symmetries();
    let symmetries = distinct_symmetries(prepared.into_symmetries(), lines);
    let all = expand(alloc, listed, &symmetries, hasher)?;
    Ok(all)
}

/// Writes the list of all arrangements of the puzzle, from a complete list: the listed ones and then their images, in
/// the order in which the symmetries reach them.
///
/// `TooMany` comes only where there are over 1,000,000, and `Memory` where memory is refused.
pub fn write_all<S: BuildHasher + Drop>(
    alloc: Global,
    prepared: Prepared<'_>,
    hasher: S,
) -> Result<Vec<u8>, ExpandFault>
    requires { IsCompleteList prepared.puzzle prepared.symmetries prepared.listed }
    ensures all { IfOk result (λ text. (all : List (List Placement)) × AreAllInOrder prepared.entry all
        × IsListText all text.items) }
    ensures too_many { IsErrOf result ExpandFault.TooMany
        → AreMoreReached MOST_ARRANGEMENTS prepared.entry.puzzle prepared.entry.symmetries prepared.entry.listed }
{
    let all = expand_complete(alloc, prepared, hasher)?;
    let text = write_list(alloc, all.as_slice())?;
    Ok(text)
}

/// Writes the list of one arrangement of each orbit (arrangements that symmetries take into each other), from a
/// complete list: the first listed one of each orbit, in the order of the list.
///
/// `TooMany` comes only where over 1,000,000 are listed, or are in one orbit, and `Memory` where memory is refused.
pub fn write_orbits<S: BuildHasher + Copy + Drop>(
    alloc: Global,
    prepared: &Prepared<'_>,
    hasher: S,
) -> Result<Vec<u8>, ExpandFault>
    requires { IsCompleteList prepared.now.puzzle prepared.now.symmetries prepared.now.listed }
    ensures firsts { IfOk result (λ text. (firsts : List (List Placement)) × AreFirstsOf prepared.now firsts
        × IsListText firsts text.items) }
    ensures too_many { IsErrOf result ExpandFault.TooMany
        → AreMoreListedOrInOrbit MOST_ARRANGEMENTS prepared.now.puzzle prepared.now.symmetries prepared.now.listed }
{
    let question = prepared.question();
    let listed = question.listed();
    let symmetries = prepared.symmetries();
    let firsts = first_of_each_orbit(alloc, listed, symmetries, hasher)?;
    let text = write_list(alloc, &firsts)?;
    Ok(text)
}

/// Counts, by a complete list, how many arrangements, pictures and orbits the puzzle has. Arrangements that look the same
/// at each cell are one picture, and those that symmetries take into each other are one orbit.
///
/// `TooMany` comes only where over 1,000,000 are listed, or are in one orbit, and `Memory` where memory is refused.
pub fn count_complete<S: BuildHasher + Copy + Drop>(
    alloc: Global,
    prepared: &Prepared<'_>,
    hasher: S,
) -> Result<Count, ExpandFault>
    requires { IsCompleteList prepared.now.puzzle prepared.now.symmetries prepared.now.listed }
    ensures count { IfOk result (IsCountOf prepared.now) }
    ensures too_many { IsErrOf result ExpandFault.TooMany
        → AreMoreListedOrInOrbit MOST_ARRANGEMENTS prepared.now.puzzle prepared.now.symmetries prepared.now.listed }
{
    let question = prepared.question();
    let puzzle = question.puzzle();
    let listed = question.listed();
    let symmetries = prepared.symmetries();
    let counted = count(alloc, puzzle, listed, symmetries, hasher)?;
    counting_laws();
    Ok(counted)
}

/// Writes, from a complete list, how many arrangements, pictures and orbits the puzzle has, and how many symmetries the
/// certificate names: a line for each. Arrangements that look the same at each cell are one picture, and those that
/// symmetries take into each other are one orbit.
///
/// `TooMany` comes only where over 1,000,000 are listed, or are in one orbit, and `Memory` where memory is refused.
pub fn write_counts<S: BuildHasher + Copy + Drop>(
    alloc: Global,
    prepared: &Prepared<'_>,
    hasher: S,
) -> Result<Vec<u8>, ExpandFault>
    requires { IsCompleteList prepared.now.puzzle prepared.now.symmetries prepared.now.listed }
    ensures count { IfOk result (λ text.
        (n : Count) × IsCountOf prepared.now n × (text.items ≡ count_text n (length prepared.now.symmetries))) }
    ensures too_many { IsErrOf result ExpandFault.TooMany
        → AreMoreListedOrInOrbit MOST_ARRANGEMENTS prepared.now.puzzle prepared.now.symmetries prepared.now.listed }
{
    let counted = count_complete(alloc, prepared, hasher)?;
    let named = prepared.question().certificate().symmetries();
    let text = count_lines(alloc, counted, named.len() as u64)?;
    Ok(text)
}

// The numbers, a line for each.
fn count_lines(alloc: Global, counted: Count, symmetries: u64) -> Result<Vec<u8>, AllocError>
    ensures { IfOk result (λ text. text.items ≡ count_text counted symmetries) }
{
    let mut text = Vec::new(alloc);
    put_number_line(&mut text, b"arrangements", counted.arrangements)?;
    put_number_line(&mut text, b"pictures", counted.pictures)?;
    put_number_line(&mut text, b"orbits", counted.orbits)?;
    put_number_line(&mut text, b"symmetries", symmetries)?;
    Ok(text)
}
