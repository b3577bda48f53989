//! Which symmetries, lemmas and certificates have a spelling.

ghost use Rattle.std.specs.Prelude.{◌≡◌, ◌≢◌, ◌<◌, ◌≤◌, ℕ, List, Ok, MatchBool, length};
ghost use Rattle.std.specs.List.{AllByRecursion};
ghost use Rattle.match_limits.specs.Ranges.{IsVersion, ranges_of};
ghost use Rattle.cert_tree.specs.Certificate.{piece_of};
ghost use Rattle.cert_tree.specs.Limits.{IsLemmaWithin};
ghost use Rattle.cert_text.specs.CertificateText.{lemma_of, certificate_of};
ghost use Rattle.cert_text.specs.CertificateSpelling.{AreImagesWithin, AreColourImagesWithin, IsSymmetryWithin};
ghost use Rattle.cert_text.specs.CertificateSpelling.{AreSymmetriesWithin, AreWithinBetween, IsCertificateWithin};
ghost use Rattle.cert_text.specs.Writing.{said_by};

use cert_tree::{Certificate, Lemma, Lemmas};
use match_board::SymmetryLine;
use match_limits::{LAST_SIDE, MOST_CELLS, MOST_COLOURS, MOST_SYMMETRIES, Ranges, ranges_of};

fn are_numbers_within(last: u16, numbers: &[u16]) -> bool
    ensures { MatchBool result (AllByRecursion (λ n. n ≤ last) numbers.now)
        (AllByRecursion (λ n. n ≤ last) numbers.now → ⊥) }
{
    numbers.iter().all(|number| *number <= last)
}

fn are_colours_within(colours: &[u8]) -> bool
    ensures { MatchBool result (AllByRecursion (λ n. n < MOST_COLOURS) colours.now)
        (AllByRecursion (λ n. n < MOST_COLOURS) colours.now → ⊥) }
{
    colours.iter().all(|colour| *colour < MOST_COLOURS)
}

fn are_images_within(ranges: &Ranges, images: &[u16]) -> bool
    ensures { MatchBool result (AreImagesWithin ranges.now images.now)
        (AreImagesWithin ranges.now images.now → ⊥) }
{
    images.len() <= usize::from(ranges.most_cells) && are_numbers_within(ranges.last_cell, images)
}

fn are_colour_images_within(images: &[u8]) -> bool
    ensures { MatchBool result (AreColourImagesWithin images.now) (AreColourImagesWithin images.now → ⊥) }
{
    images.len() <= usize::from(MOST_COLOURS) && are_colours_within(images)
}

fn is_symmetry_within(ranges: &Ranges, line: &SymmetryLine) -> bool
    ensures { MatchBool result (IsSymmetryWithin ranges.now line.now) (IsSymmetryWithin ranges.now line.now → ⊥) }
{
    line.shift <= LAST_SIDE
        && (are_images_within(ranges, line.cells.as_slice())
            && (are_colour_images_within(line.colours.as_slice())
                && are_images_within(ranges, line.tiles.as_slice())))
}

fn are_symmetries_within(ranges: &Ranges, lines: &[SymmetryLine]) -> bool
    ensures { MatchBool result (AllByRecursion (IsSymmetryWithin ranges.now) lines.now)
        (AllByRecursion (IsSymmetryWithin ranges.now) lines.now → ⊥) }
{
    for line in lines {
        if !is_symmetry_within(ranges, line) {
            return false;
        }
    }
    true
}

/// Whether there are at most 1,024 symmetries, and each has a spelling in the version (1 or 2).
pub fn are_symmetries_within_limits(version: u8, lines: &[SymmetryLine]) -> bool
    requires { IsVersion version }
    ensures { MatchBool result (AreSymmetriesWithin (ranges_of version) lines.now)
        (AreSymmetriesWithin (ranges_of version) lines.now → ⊥) }
{
    lines.len() <= usize::from(MOST_SYMMETRIES) && are_symmetries_within(&ranges_of(version), lines)
}

fn are_lemmas_within(ranges: &Ranges, lemmas: &Lemmas, first: usize, last: usize) -> bool
    requires { (first ≤ last) × (last ≤ length lemmas.now) }
    ensures { MatchBool result (AreWithinBetween ranges.now lemmas.now first last)
        (AreWithinBetween ranges.now lemmas.now first last → ⊥) }
{
    for number in first..last {
        if !lemmas.at(number).is_within(ranges.most_cells) {
            return false;
        }
    }
    true
}

/// Whether each lemma from number `first` to before `last` has a spelling in the version (1 or 2).
pub fn are_lemmas_within_limits(version: u8, lemmas: &Lemmas, first: usize, last: usize) -> bool
    requires version { IsVersion version }
    requires numbers { (first ≤ last) × (last ≤ length lemmas.now) }
    ensures { MatchBool result (AreWithinBetween (ranges_of version) lemmas.now first last)
        (AreWithinBetween (ranges_of version) lemmas.now first last → ⊥) }
{
    are_lemmas_within(&ranges_of(version), lemmas, first, last)
}

// Looks at the short things first: the symmetries, and the prefix of each lemma.
fn is_certificate_within(version: u8, certificate: &Certificate) -> bool
    requires { IsVersion version }
    ensures { MatchBool result (IsCertificateWithin (said_by version certificate.now))
        (IsCertificateWithin (said_by version certificate.now) → ⊥) }
{
    let lemmas = certificate.lemmas();
    are_symmetries_within_limits(version, certificate.symmetries())
        && are_lemmas_within_limits(version, lemmas, 0, lemmas.len())
}

/// Returns the first version (1 or 2) in which the certificate has a spelling, by one walk over it. It has to have one
/// in version 2.
pub fn first_version(certificate: &Certificate) -> u8
    requires { IsCertificateWithin (said_by 2 certificate.now) }
    ensures within { IsCertificateWithin (said_by result certificate.now) }
    ensures first { IsCertificateWithin (said_by 1 certificate.now) → result ≡ 1 }
    ensures second { (IsCertificateWithin (said_by 1 certificate.now) → ⊥) → result ≡ 2 }
{
    if is_certificate_within(1, certificate) {
        1
    } else {
        2
    }
}

/// A value that may be past the limits of its text.
pub trait WithinLimits {
    ghost fits: { Self → Type 0 };

    /// Whether the value is within the limits, so that it has a spelling.
    fn within_limits(&self) -> bool
        ensures { MatchBool result (fits self.now) (fits self.now → ⊥) };
}

impl WithinLimits for Lemma {
    ghost use Rattle.match_limits.specs.declared.TheConstants.{MOST_CELLS};

    ghost fits = { λ lemma. IsLemmaWithin MOST_CELLS (piece_of lemma) };

    /// Whether the lemma has a spelling:
    ///
    /// - its number, and the numbers of lemmas and of listed arrangements, are below 1,000,000
    /// - numbers of symmetries are below 1,024, and turns below 4
    /// - cells, tiles, pairs, children and levels are within the ranges of version 2
    ///
    /// It looks no deeper into the tree than that, and takes no memory.
    fn within_limits(&self) -> bool
        ensures within { MatchBool result (IsLemmaWithin MOST_CELLS (piece_of self.now))
            (IsLemmaWithin MOST_CELLS (piece_of self.now) → ⊥) }
        ensures spelled { MatchBool result ((text : List ℕ) × (lemma_of text ≡ Ok (piece_of self.now)))
            ((text : List ℕ) → lemma_of text ≢ Ok (piece_of self.now)) }
    {
        self.is_within(MOST_CELLS)
    }
}

impl WithinLimits for Certificate {
    ghost fits = { λ certificate. IsCertificateWithin (said_by 2 certificate) };

    /// Whether the certificate has a spelling:
    ///
    /// - it has up to 1,024 symmetries, with shifts below 4, up to 36 colours below 36, and cells and tiles within the
    ///   ranges of version 2
    /// - each of its lemmas has a spelling
    ///
    /// It takes no memory.
    fn within_limits(&self) -> bool
        ensures within { MatchBool result (IsCertificateWithin (said_by 2 self.now))
            (IsCertificateWithin (said_by 2 self.now) → ⊥) }
        ensures spelled { MatchBool result
            ((version : ℕ) × (text : List ℕ) × (certificate_of text ≡ Ok (said_by version self.now)))
            ((version : ℕ) (text : List ℕ) → certificate_of text ≢ Ok (said_by version self.now)) }
    {
        is_certificate_within(2, self)
    }
}
