//! Whether a certificate is within the limits of its text, found by a crew of workers (threads).

ghost use Rattle.std.specs.Prelude.{◌≤◌, ◌↔◌, All, IfOk, IsTrue, MatchBool, length};
ghost use Rattle.match_limits.specs.declared.TheConstants.{MOST_WORKERS};
ghost use Rattle.match_limits.specs.Ranges.{IsVersion};
ghost use Rattle.cert_text.specs.CertificateSpelling.{IsCertificateWithin};
ghost use Rattle.cert_text.specs.Writing.{said_by};
ghost use Rattle.cert_text.specs.LemmaParts.{AreCut, TellsOfLimits};

use crate::lemma_parts::LemmaParts;
use crate::limits::{are_lemmas_within_limits, are_symmetries_within_limits};
use cert_tree::{Certificate, Lemmas};
use std::alloc::{AllocError, Global};
use std::thread::Threads;
use steal_crew::{Work, run_from_last};

// Whether lemmas have spellings in the version: a job for each part.
#[derive(Drop)]
struct Limits<'a, 'p> {
    version: u8,
    parts: &'p LemmaParts<'a>,
}

impl<'a, 'p> Work for Limits<'a, 'p> {
    ghost use Rattle.std.specs.Prelude.{◌+◌};
    ghost use Rattle.match_limits.specs.Ranges.{IsVersion};
    ghost use Rattle.cert_text.specs.LemmaParts.{TellsOfLimits, IsPart, part_start};

    type R = bool;

    ghost accepts = { λ w n. IsVersion w.version × IsPart w.parts.now.lemmas.now w.parts.now.starts.items n };

    ghost gives = { λ w n told. TellsOfLimits w.version w.parts.now.lemmas.now
        (part_start w.parts.now.starts.items n) (part_start w.parts.now.starts.items (n + 1)) told };

    fn one(&self, number: u32) -> Result<bool, AllocError> {
        let (first, last) = self.parts.bounds(number);
        Ok(are_lemmas_within_limits(self.version, self.parts.lemmas, first, last))
    }
}

// Whether each lemma of the parts has a spelling in the version.
fn are_parts_within<R: Threads + Sync>(
    rt: &R,
    alloc: Global,
    version: u8,
    parts: &LemmaParts<'_>,
    workers: u8,
) -> Result<bool, AllocError>
    requires version { IsVersion version }
    requires cut { AreCut parts.now.lemmas.now parts.now.starts.items }
    requires workers { (1 ≤ workers) × (workers ≤ MOST_WORKERS) }
    ensures { IfOk result (TellsOfLimits version parts.now.lemmas.now 0 (length parts.now.lemmas.now)) }
{
    let limits = Limits { version, parts };
    let told = run_from_last(rt, alloc, &limits, parts.count(), workers)?;
    Ok(are_all(&told))
}

// Whether all of these are true.
fn are_all(told: &[bool]) -> bool
    ensures { IsTrue result ↔ All (λ one. IsTrue one) told.now }
{
    for number in 0..told.len() {
        if !told[number] {
            return false;
        }
    }
    true
}

// Whether each lemma has a spelling in the version.
fn are_lemmas_within<R: Threads + Sync>(
    rt: &R,
    alloc: Global,
    version: u8,
    lemmas: &Lemmas,
    workers: u8,
) -> Result<bool, AllocError>
    requires version { IsVersion version }
    requires workers { (1 ≤ workers) × (workers ≤ MOST_WORKERS) }
    ensures { IfOk result (TellsOfLimits version lemmas.now 0 (length lemmas.now)) }
{
    match LemmaParts::cut(alloc, lemmas, workers)? {
        Some(parts) => are_parts_within(rt, alloc, version, &parts, workers),
        None => Ok(are_lemmas_within_limits(version, lemmas, 0, lemmas.len())),
    }
}

/// Whether the certificate has a spelling in this version (1 or 2), found by 1 to 64 workers, whose number doesn't
/// change the result. The lemmas are cut into parts with about as many nodes each, and each part is a job of a crew. An
/// `Err` comes where memory is refused.
///
/// It joins threads, one for each worker but the caller. With one worker, or with fewer than 131,072 nodes, it goes
/// through the lemmas on the caller's thread, and takes no memory.
pub fn within_limits_with<R: Threads + Sync>(
    rt: &R,
    alloc: Global,
    version: u8,
    certificate: &Certificate,
    workers: u8,
) -> Result<bool, AllocError>
    requires version { IsVersion version }
    requires workers { (1 ≤ workers) × (workers ≤ MOST_WORKERS) }
    ensures { IfOk result (λ told. MatchBool told (IsCertificateWithin (said_by version certificate.now))
        (IsCertificateWithin (said_by version certificate.now) → ⊥)) }
{
    if !are_symmetries_within_limits(version, certificate.symmetries()) {
        return Ok(false);
    }
    let lemmas = are_lemmas_within(rt, alloc, version, certificate.lemmas(), workers)?;
    Ok(lemmas)
}
