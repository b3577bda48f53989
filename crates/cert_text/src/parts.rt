//! Cuts the lemma lines of a certificate's text into parts, each of which can be read by itself.

ghost use Rattle.std.specs.Prelude.{◌≡◌, ◌+◌, ◌<◌, ◌≤◌, ◌^◌, ℕ, List, Ok, IfOk, MatchResult, length};
ghost use Rattle.match_limits.specs.Ranges.{ranges_of};
ghost use Rattle.text_words.specs.Place.{Place, Fails, Says, skip_lines, times};
ghost use Rattle.cert_text.specs.CertificateText.{CertificateGives, certificate_of, lemma_line};
ghost use Rattle.cert_text.specs.Lines.{said_of};
ghost use Rattle.cert_text.specs.Parts.{AreJoined, AreRead, IsCutOf, cut_says, left_at, part_says, parts_say};

use crate::faults::CertTextFault;
use crate::readers::{Beginning, CertificateLines, made, read_beginning, read_lemmas};
use cert_tree::{Certificate, Lemmas};
use match_limits::{MOST_LEMMAS, ranges_of};
use std::alloc::{AllocError, Global};
use text_words::{ReadFault, Scan};

/// Some lemma lines of a certificate's text, one after the other.
#[derive(Drop)]
pub struct LemmaPart<'a> {
    pub(crate) version: u8,
    // before the first of them
    pub(crate) scan: Scan<'a>,
    pub(crate) count: u32,
}

impl<'a> LemmaPart<'a> {
    /// Returns the lemmas, or the first fault of their lines, with the number of the line in the whole text. `Memory`
    /// comes only where memory is refused. The part stays as it is.
    pub fn read(&self, alloc: Global) -> Result<Lemmas, ReadFault>
        ensures { Says (λ lemmas. lemmas) result (part_says self.now) }
    {
        let mut scan = self.scan.copy();
        read_lemmas(alloc, &mut scan, &ranges_of(self.version), self.count)
    }
}

/// A certificate's text whose lemma lines are cut into parts, so that they can be read in any order, or at the same
/// time.
#[derive(Drop)]
pub struct CutCertificate<'a> {
    pub(crate) beginning: Beginning,
    pub(crate) parts: Vec<LemmaPart<'a>>,
    // after the last of them
    pub(crate) end: Scan<'a>,
}

// Passes at least one line, and further ones until they have `size` bytes, at most `most` lines. Returns how many it
// passed: all, where the text has fewer.
fn skip_part(scan: &mut Scan, most: u32, size: usize) -> u32
    requires { 0 < most }
    ensures some { 0 < result }
    ensures few { result ≤ most }
    ensures place { (place : Place) → skip_lines result scan.old ≡ Ok (tt, place) → place ≡ scan.new }
{
    let enough = scan.bytes_ahead().saturating_sub(size);
    let mut lines = 0;
    while lines < most {
        if scan.skip_line().is_err() {
            return most;
        }
        lines += 1;
        if scan.bytes_ahead() <= enough {
            break;
        }
    }
    lines
}

// Passes the lines of `count` lemmas, and returns them in parts of at least `size` bytes each, except for the last one.
fn cut_lines<'a>(
    alloc: Global,
    scan: &mut Scan<'a>,
    version: u8,
    count: u32,
    size: usize,
) -> Result<Vec<LemmaPart<'a>>, AllocError>
    ensures says { IfOk result (λ parts.
        left_at scan.new (parts_say parts.items) ≡ times count (lemma_line (ranges_of version)) scan.old) }
    ensures few { IfOk result (λ parts. length parts.items ≤ count) }
{
    let mut parts = Vec::new(alloc);
    let mut left = count;
    while left > 0 {
        let begin = scan.copy();
        let lines = skip_part(scan, left, size);
        parts.push(LemmaPart {
            version,
            scan: begin,
            count: lines,
        })?;
        left -= lines;
    }
    Ok(parts)
}

/// Reads a certificate's text up to its lemmas, and cuts the lemma lines into parts of at least `size` bytes each,
/// except for the last one. It passes these lines by looking for their ends alone.
///
/// An `Err` is the first fault of the text, where it comes before the lemmas. `Memory` comes only where memory is
/// refused.
pub fn cut_certificate(
    alloc: Global,
    text: &[u8],
    size: usize,
) -> Result<CutCertificate<'_>, ReadFault>
    requires { length text.now + 1 < 2 ^ 32 }
    ensures cut { MatchResult result (IsCutOf text.now) (λ fault. Fails fault (certificate_of text.now)) }
    ensures few { IfOk result (λ cut. length cut.parts.items ≤ MOST_LEMMAS) }
{
    let mut scan = Scan::new(text);
    let beginning = read_beginning(alloc, &mut scan)?;
    let parts = cut_lines(alloc, &mut scan, beginning.version, beginning.count, size)?;
    Ok(CutCertificate {
        beginning,
        parts,
        end: scan,
    })
}

// All lemmas in the order of the parts, or the first fault. What was read of a part stays where it lies.
fn joined(alloc: Global, read: Vec<Result<Lemmas, ReadFault>>) -> Result<Lemmas, ReadFault>
    ensures { AreJoined read.items result }
{
    let mut all = Lemmas::none(alloc);
    for one in read {
        all = all.with(one?)?;
    }
    Ok(all)
}

impl<'a> CutCertificate<'a> {
    /// Returns the parts, in the order of the text. There are at most as many as lemmas.
    pub fn parts(&self) -> &[LemmaPart<'a>]
        ensures { result.now ≡ self.now.parts.items }
    {
        &self.parts
    }

    // What the text says, given what was read of the parts.
    fn lines(
        self,
        alloc: Global,
        read: Vec<Result<Lemmas, ReadFault>>,
    ) -> Result<CertificateLines, ReadFault>
        requires { AreRead self.parts.items read.items }
        ensures { Says said_of result (cut_says self.entry) }
    {
        let CutCertificate {
            beginning,
            mut end,
            ..
        } = self;
        let lemmas = joined(alloc, read)?;
        end.closing()?;
        Ok(CertificateLines {
            version: beginning.version,
            symmetries: beginning.symmetries,
            lemmas,
        })
    }

    /// Makes the certificate from what was read of the parts, in their order.
    ///
    /// An `Err` is the first fault of the text, or else the first fault of its lemmas, as
    /// [`read_certificate`](crate::read_certificate) returns it. `Memory` comes where memory is refused here, or was
    /// refused to a part.
    pub fn join(
        self,
        alloc: Global,
        read: Vec<Result<Lemmas, ReadFault>>,
    ) -> Result<Certificate, CertTextFault>
        requires cut { (text : List ℕ) × IsCutOf text self }
        requires read { AreRead self.parts.items read.items }
        ensures { CertificateGives result (cut_says self.entry) }
    {
        let lines = self.lines(alloc, read)?;
        made(alloc, lines)
    }
}
