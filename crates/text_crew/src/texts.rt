//! Reads and writes the texts of a list and of a certificate.

ghost use Rattle.std.specs.Prelude.{◌≡◌, ◌+◌, ◌<◌, ◌≤◌, ◌^◌, Ok, IfOk, length};
ghost use Rattle.std.specs.List.{flat_map};
ghost use Rattle.std.specs.Thread.{IsSync};
ghost use Rattle.match_limits.specs.declared.TheConstants.{MOST_WORKERS};
ghost use Rattle.match_text.specs.ListSpelling.{IsListText, IsListWithin};
ghost use Rattle.match_text.specs.Lists.{list_of};
ghost use Rattle.match_limits.specs.declared.ranges.TheConstants.{SECOND};
ghost use Rattle.cert_text.specs.CertificateSpelling.{IsCertificateWithin};
ghost use Rattle.cert_text.specs.CertificateText.{CertificateGives, certificate_of};
ghost use Rattle.cert_text.specs.Writing.{said_by};
ghost use Rattle.text_crew.specs.Texts.{IsCertificateText, IsListRead, ReadsBack};

use crate::list_writings::write_list_with;
use crate::parts::alone;
use crate::readings::read_certificate_with;
use crate::writings::write_certificate_with;
use cert_text::CertTextFault;
use cert_tree::Certificate;
use match_puzzle::Arrangement;
use match_text::{ListTextFault, read_list, write_list};
use std::alloc::{AllocError, Global};
use std::thread::Threads;
use steal_crew::both;

// A list with fewer bytes is read before another thread would have started.
const LEAST_BYTES: usize = 1 << 16;

// A list with fewer arrangements is written before another thread would have started.
const LEAST_LISTED: usize = 1_024;

/// What was read from the texts of a list and of a certificate.
#[derive(Drop)]
pub struct ReadTexts {
    pub listed: Result<Vec<Arrangement>, ListTextFault>,
    pub certificate: Result<Certificate, CertTextFault>,
}

/// The texts of a list and of a certificate, each in the parts in which it was written: one after the other they are
/// the text.
#[derive(Drop)]
pub struct WrittenTexts {
    pub list: Vec<Vec<u8>>,
    pub certificate: Vec<Vec<u8>>,
}

// Both texts, each read on a thread of its own, the certificate by `workers` workers.
fn read_at_once<R: Threads + Sync>(
    rt: &R,
    alloc: Global,
    list: &[u8],
    certificate: &[u8],
    workers: u8,
) -> Result<ReadTexts, AllocError>
    requires list { length list.now + 1 < 2 ^ 32 }
    requires certificate { length certificate.now + 1 < 2 ^ 32 }
    requires workers { (1 ≤ workers) × (workers ≤ MOST_WORKERS) }
    ensures list { IfOk result (λ read. IsListRead list.now read.listed) }
    ensures certificate { IfOk result (λ read. CertificateGives read.certificate (certificate_of certificate.now)) }
{
    let (certificate, listed) = both(
        rt,
        || -> Result<Result<Certificate, CertTextFault>, AllocError>
            requires { IsSync R.row × (length certificate.now + 1 < 2 ^ 32) × (1 ≤ workers) × (workers ≤ MOST_WORKERS) }
            ensures { IfOk result (λ read. CertificateGives read (certificate_of certificate.entry.now)) }
        { Ok(read_certificate_with(rt, alloc, certificate, workers)) },
        // On the caller's thread, where memory for many small pieces takes the fewest calls of the system.
        || -> Result<Result<Vec<Arrangement>, ListTextFault>, AllocError>
            requires { length list.now + 1 < 2 ^ 32 }
            ensures { IfOk result (IsListRead list.entry.now) }
        { Ok(read_list(alloc, list)) },
    )?;
    Ok(ReadTexts {
        listed,
        certificate,
    })
}

/// Reads a list as [`read_list`] does, and a certificate as [`read_certificate_with`] does, at the same time.
///
/// Each text has its own result, with its own fault, `Memory` too. The caller has to look at that of the list first.
/// The list is read on the caller's thread: with one worker, or where it has less than 64 KiB, before the certificate;
/// otherwise while workers on other threads read the certificate.
pub fn read_texts_with<R: Threads + Sync>(
    rt: &R,
    alloc: Global,
    list: &[u8],
    certificate: &[u8],
    workers: u8,
) -> Result<ReadTexts, AllocError>
    requires list { length list.now + 1 < 2 ^ 32 }
    requires certificate { length certificate.now + 1 < 2 ^ 32 }
    requires workers { (1 ≤ workers) × (workers ≤ MOST_WORKERS) }
    ensures list { IfOk result (λ read. IsListRead list.now read.listed) }
    ensures certificate { IfOk result (λ read. CertificateGives read.certificate (certificate_of certificate.now)) }
{
    if workers > 1 && list.len() >= LEAST_BYTES {
        return read_at_once(rt, alloc, list, certificate, workers);
    }
    let listed = read_list(alloc, list);
    let certificate = read_certificate_with(rt, alloc, certificate, workers);
    Ok(ReadTexts {
        listed,
        certificate,
    })
}

// The text of the list, written by `workers` workers.
fn write_listed<R: Threads + Sync>(
    rt: &R,
    alloc: Global,
    listed: &[Arrangement],
    workers: u8,
) -> Result<Vec<Vec<u8>>, AllocError>
    requires list { IsListWithin SECOND listed.now }
    requires workers { (1 ≤ workers) × (workers ≤ MOST_WORKERS) }
    ensures { IfOk result (λ parts. IsListText listed.now (flat_map (λ part. part.items) parts.items)) }
{
    if workers > 1 && listed.len() >= LEAST_LISTED {
        return write_list_with(rt, alloc, listed, workers);
    }
    let text = write_list(alloc, listed)?;
    alone(alloc, text)
}

/// Writes the list as [`write_list`] does, and then the certificate as [`write_certificate_with`] does.
///
/// With one worker, or fewer than 1,024 arrangements, the list's text is written on the caller's thread, as one part.
/// Otherwise a crew writes its lines, in eight parts for each worker, which are not put together.
pub fn write_texts_with<R: Threads + Sync>(
    rt: &R,
    alloc: Global,
    listed: &[Arrangement],
    certificate: &Certificate,
    workers: u8,
) -> Result<WrittenTexts, AllocError>
    requires list { IsListWithin SECOND listed.now }
    requires certificate { IsCertificateWithin (said_by 2 certificate.now) }
    requires workers { (1 ≤ workers) × (workers ≤ MOST_WORKERS) }
    ensures list { IfOk result (λ texts. IsListText listed.now (flat_map (λ part. part.items) texts.list.items)) }
    ensures certificate { IfOk result (λ texts.
        IsCertificateText certificate.now (flat_map (λ part. part.items) texts.certificate.items)) }
    // Both read back as what was written.
    ensures list_reads { IfOk result (λ texts.
        list_of (flat_map (λ part. part.items) texts.list.items) ≡ Ok listed.now) }
    ensures certificate_reads { IfOk result (λ texts.
        ReadsBack (flat_map (λ part. part.items) texts.certificate.items) certificate.now) }
{
    let list = write_listed(rt, alloc, listed, workers)?;
    let certificate = write_certificate_with(rt, alloc, certificate, workers)?;
    Ok(WrittenTexts { list, certificate })
}
