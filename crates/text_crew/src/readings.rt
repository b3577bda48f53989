//! A certificate's text, read by a crew.

ghost use Rattle.std.specs.Prelude.{◌≡◌, ◌+◌, ◌<◌, ◌≤◌, ◌^◌, ℕ, Ok, IfOk, length, take};
ghost use Rattle.match_limits.specs.declared.TheConstants.{MOST_LEMMAS, MOST_WORKERS};
ghost use Rattle.text_words.specs.Bytes.{line_ends};
ghost use Rattle.text_words.specs.Place.{fail};
ghost use Rattle.text_words.specs.declared.faults.TextKind.TheVariants as kinds;
ghost use Rattle.cert_text.specs.CertificateSpelling.{certificate_spelling, IsCertificateWithin};
ghost use Rattle.cert_text.specs.CertificateText.{CertificateGives, Makes, Said, certificate_of};
ghost use Rattle.cert_text.specs.Parts.{AreRead, IsReadAt};
ghost use Rattle.cert_text.specs.Writing.{said_by};

use cert_text::{CertTextFault, LemmaPart, cut_certificate, read_certificate};
use cert_tree::{Certificate, Lemmas};
use std::alloc::{AllocError, Global};
use std::thread::Threads;
use steal_crew::{Work, run_from_last};
use text_words::ReadFault;

// One thread reads a text with fewer bytes: it is done before others would have started.
const LEAST_SHARED: usize = 1 << 20;

// More parts than workers, so that a worker that began late takes fewer.
const PARTS_FOR_EACH: usize = 8;

// The least number of bytes of each part but the last.
const LEAST_PART: usize = 1 << 16;

// The parts of a certificate, each read by a job.
#[derive(Drop)]
struct Parts<'a, 't> {
    alloc: Global,
    parts: &'a [LemmaPart<'t>],
}

impl<'a, 't> Work for Parts<'a, 't> {
    type R = Result<Lemmas, ReadFault>;

    ghost accepts = { λ w n. n < length w.parts.now };

    ghost gives = { λ w n r. IsReadAt w.parts.now n r };

    fn one(&self, number: u32) -> Result<Result<Lemmas, ReadFault>, AllocError> {
        Ok(self.parts[number as usize].read(self.alloc))
    }
}

// How many bytes a part has, where `workers` workers read a text of `bytes` bytes.
fn part_size(bytes: usize, workers: u8) -> usize
    requires { 1 ≤ workers }
{
    (bytes / (usize::from(workers) * PARTS_FOR_EACH)).max(LEAST_PART)
}

// What is read of each part.
fn read_parts<R: Threads + Sync>(
    rt: &R,
    alloc: Global,
    parts: &[LemmaPart<'_>],
    workers: u8,
) -> Result<Vec<Result<Lemmas, ReadFault>>, AllocError>
    requires few { length parts.now ≤ MOST_LEMMAS }
    requires workers { (1 ≤ workers) × (workers ≤ MOST_WORKERS) }
    ensures { IfOk result (λ read. AreRead parts.now read.items) }
{
    let work = Parts { alloc, parts };
    run_from_last(rt, alloc, &work, parts.len() as u32, workers)
}

// The certificate of a text, each part of which is a job of a crew.
fn read_by_parts<R: Threads + Sync>(
    rt: &R,
    alloc: Global,
    text: &[u8],
    workers: u8,
) -> Result<Certificate, CertTextFault>
    requires text { length text.now + 1 < 2 ^ 32 }
    requires workers { (1 ≤ workers) × (workers ≤ MOST_WORKERS) }
    ensures { CertificateGives result (certificate_of text.now) }
{
    let cut = cut_certificate(alloc, text, part_size(text.len(), workers))?;
    let read = read_parts(rt, alloc, cut.parts(), workers)?;
    cut.join(alloc, read)
}

/// Reads what [`read_certificate`] reads, with 1 to 64 workers, whose number doesn't change the result.
///
/// The lemma lines are cut into parts with about the same length, each of which is a job of a crew. All parts are read,
/// and the first of those with a fault counts. A text of less than a MiB is read on the caller's thread, and so is any
/// text with one worker. It joins threads, one for each worker but the caller.
pub fn read_certificate_with<R: Threads + Sync>(
    rt: &R,
    alloc: Global,
    text: &[u8],
    workers: u8,
) -> Result<Certificate, CertTextFault>
    requires text { length text.now + 1 < 2 ^ 32 }
    requires workers { (1 ≤ workers) × (workers ≤ MOST_WORKERS) }
    // Which certificate is read, and which fault.
    ensures exact { CertificateGives result (certificate_of text.now) }
    // What is read is spelled this way, and put together from what the text says.
    ensures found { IfOk result (λ certificate. (said : Said) × IsCertificateWithin said
        × (text.now ≡ certificate_spelling said) × Makes said (Ok certificate)) }
    // What is read can be written.
    ensures within { IfOk result (λ certificate. IsCertificateWithin (said_by 2 certificate)) }
    // What is spelled this way is read and put together.
    ensures only { (said : Said) → IsCertificateWithin said → text.now ≡ certificate_spelling said
        → CertificateGives result (Ok said) }
    // A spelling that is cut short ends at its last line.
    ensures cut { (said : Said) (k : ℕ) → IsCertificateWithin said → k < length (certificate_spelling said)
        → text.now ≡ take k (certificate_spelling said)
        → CertificateGives result (fail (line_ends text.now + 1) kinds.Ends) }
{
    if workers == 1 || text.len() < LEAST_SHARED {
        return read_certificate(alloc, text);
    }
    read_by_parts(rt, alloc, text, workers)
}
