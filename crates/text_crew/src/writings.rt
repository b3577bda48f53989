//! A certificate's text, written by a crew.

ghost use Rattle.std.specs.Prelude.{◌≡◌, ◌≤◌, ℕ, Ok, IfOk};
ghost use Rattle.std.specs.List.{flat_map};
ghost use Rattle.match_limits.specs.declared.TheConstants.{MOST_WORKERS};
ghost use Rattle.cert_text.specs.CertificateSpelling.{IsCertificateWithin};
ghost use Rattle.cert_text.specs.CertificateText.{Makes, certificate_of};
ghost use Rattle.cert_text.specs.Writing.{said_by};
ghost use Rattle.cert_text.specs.LemmaParts.{AreCut, AreLines, AreOfParts};
ghost use Rattle.text_crew.specs.Texts.{IsCertificateText, IsFirstVersion};

use crate::parts::{alone, between};
use cert_text::{
    LemmaParts, certificate_front, within_limits_with, write_certificate, write_lemma_lines,
};
use cert_tree::Certificate;
use std::alloc::{AllocError, Global};
use std::thread::Threads;
use steal_crew::{Work, run_from_last};

// The lines of lemmas: a job for each part.
#[derive(Drop)]
struct Lines<'a, 'p> {
    alloc: Global,
    parts: &'p LemmaParts<'a>,
}

impl<'a, 'p> Work for Lines<'a, 'p> {
    ghost use Rattle.std.specs.Prelude.{◌+◌};
    ghost use Rattle.cert_text.specs.LemmaParts.{AreLines, IsPart, part_start};

    type R = Vec<u8>;

    ghost accepts = { λ w n. IsPart w.parts.now.lemmas.now w.parts.now.starts.items n };

    ghost gives = { λ w n text. AreLines w.parts.now.lemmas.now (part_start w.parts.now.starts.items n)
        (part_start w.parts.now.starts.items (n + 1)) text };

    fn one(&self, number: u32) -> Result<Vec<u8>, AllocError> {
        let (first, last) = self.parts.bounds(number);
        write_lemma_lines(self.alloc, self.parts.lemmas, first, last)
    }
}

// The lines of each part.
fn write_parts<R: Threads + Sync>(
    rt: &R,
    alloc: Global,
    parts: &LemmaParts<'_>,
    workers: u8,
) -> Result<Vec<Vec<u8>>, AllocError>
    requires cut { AreCut parts.now.lemmas.now parts.now.starts.items }
    requires workers { (1 ≤ workers) × (workers ≤ MOST_WORKERS) }
    ensures { IfOk result (λ lines.
        AreOfParts (AreLines parts.now.lemmas.now) parts.now.starts.items lines.items) }
{
    let lines = Lines { alloc, parts };
    run_from_last(rt, alloc, &lines, parts.count(), workers)
}

// The first version that has the numbers for the certificate, found by `workers` workers.
fn first_version_with<R: Threads + Sync>(
    rt: &R,
    alloc: Global,
    certificate: &Certificate,
    workers: u8,
) -> Result<u8, AllocError>
    requires { (1 ≤ workers) × (workers ≤ MOST_WORKERS) }
    ensures { IfOk result (λ version. IsFirstVersion version certificate.now) }
{
    let is_first = within_limits_with(rt, alloc, 1, certificate, workers)?;
    Ok(if is_first { 1 } else { 2 })
}

/// Writes what [`write_certificate`] writes, in parts, with 1 to 64 workers, whose number doesn't change the text.
///
/// The lemmas are cut into parts with about as many nodes each. The lines of each part are written by a job of a crew,
/// and the parts are not put together. A certificate with fewer than 131,072 nodes is written on the caller's thread,
/// as one part, and so is any certificate with one worker. It joins threads, one for each worker but the caller.
pub fn write_certificate_with<R: Threads + Sync>(
    rt: &R,
    alloc: Global,
    certificate: &Certificate,
    workers: u8,
) -> Result<Vec<Vec<u8>>, AllocError>
    requires within { IsCertificateWithin (said_by 2 certificate.now) }
    requires workers { (1 ≤ workers) × (workers ≤ MOST_WORKERS) }
    ensures text { IfOk result (λ parts. IsCertificateText certificate.now (flat_map (λ part. part.items) parts.items)) }
    // It reads back as an equal certificate.
    ensures reads { IfOk result (λ parts. (version : ℕ)
        × (certificate_of (flat_map (λ part. part.items) parts.items) ≡ Ok (said_by version certificate.now))
        × Makes (said_by version certificate.now) (Ok certificate.now)) }
{
    let Some(parts) = LemmaParts::cut(alloc, certificate.lemmas(), workers)? else {
        let text = write_certificate(alloc, certificate)?;
        return alone(alloc, text);
    };
    let version = first_version_with(rt, alloc, certificate, workers)?;
    let front = certificate_front(alloc, version, certificate)?;
    let lines = write_parts(rt, alloc, &parts, workers)?;
    between(alloc, front, lines)
}
