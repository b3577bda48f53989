ghost use Rattle.std.specs.Prelude.{◌<◌, All, IfOk};
ghost use Rattle.match_limits.specs.declared.TheConstants.{MOST_CELLS};
ghost use Rattle.cert_tree.specs.Certificate.{piece_of};
ghost use Rattle.cert_tree.specs.Limits.{IsLemmaWithin};
ghost use Rattle.piece_desk.specs.Desks.{IsOf};

use cert_text::{WithinLimits, write_certificate};
use cert_tree::{AssembleFault, Certificate, Lemma, Node};
use piece_desk::{Desk, Receipt};
use std::alloc::{AllocError, Global};
use std::process::Abort;
use std::sync::Wait;
use std::test::Fail;
use std::thread;
use std::thread::Threads;
use test_samples::{
    TWIN_TILES_AFTER_FIVE, TWIN_TILES_CERTIFICATE, TWIN_TILES_FROM_THE_ROOT, exchange_of_twins,
    is_lemma_line, lemma_of, lemma_without_prefix,
};

// Four lemmas, which cite each other, a lemma at their count and one past it.
const ZERO: &[u8] = b"lemma 0 prefix tree c 0 3 s 1 i 2 0 s 3\n";

const ONE: &[u8] = b"lemma 1 prefix 0:0.0 tree c 1 2 f 0 s 3\n";

const TWO: &[u8] = b"lemma 2 prefix 0:1.0 tree c 1 1 s 4\n";

const THREE: &[u8] = b"lemma 3 prefix 0:2.0 tree t 1 2 f 3 i 9 0\n";

const FOUR_LEMMAS: [&[u8]; 4] = [ZERO, ONE, TWO, THREE];

const FOUR_TURNED: &[u8] =
    b"certificate 1\nsymmetries 1\nsymmetry 0 + cells 0 1 colours 0 1 tiles 1 0\nlemmas 4\nlemma 0 prefix 0:2.0 tree t 1 2 f 4 i 9 0\nlemma 1 prefix 0:1.0 tree c 1 1 s 4\nlemma 2 prefix 0:0.0 tree c 1 2 f 5 s 0\nlemma 3 prefix tree c 0 3 s 2 i 1 0 s 0\nend\n";

// Posts a lemma. Where it comes back for want of memory, it is to be the same, and is posted again.
fn post_at_last<R: Wait>(
    rt: &R,
    alloc: Global,
    desk: &Desk,
    lemma: Lemma,
    text: &[u8],
) -> Result<Receipt, Fail>
    requires { IsLemmaWithin MOST_CELLS (piece_of lemma) }
    ensures { IfOk result (IsOf desk.now) }
{
    let same = match desk.post(rt, lemma) {
        Ok(receipt) => return Ok(receipt),
        Err(same) => same,
    };
    if !is_lemma_line(alloc, &same, text)? {
        return Err(Fail::new("another lemma comes back"));
    }
    match desk.post(rt, same) {
        Ok(receipt) => Ok(receipt),
        Err(_) => Err(AllocError.into()),
    }
}

// A copy of the lemma that the text says.
fn copied(alloc: Global, text: &[u8]) -> Result<Lemma, Fail>
    ensures { IfOk result (λ lemma. IsLemmaWithin MOST_CELLS (piece_of lemma)) }
{
    Ok(lemma_of(alloc, text)?.copy(alloc)?)
}

// Posts such a copy, which is to be read back as the same text.
fn post_text<R: Wait>(rt: &R, alloc: Global, desk: &Desk, text: &[u8]) -> Result<Receipt, Fail>
    ensures { IfOk result (IsOf desk.now) }
{
    let receipt = post_at_last(rt, alloc, desk, copied(alloc, text)?, text)?;
    if !is_lemma_line(alloc, desk.read(&receipt), text)? {
        return Err(Fail::new("another lemma is read back"));
    }
    Ok(receipt)
}

// Posts the lemmas of these texts by turns, from the first turn up to the other.
fn post_by_turns<R: Wait>(
    rt: &R,
    alloc: Global,
    desk: &Desk,
    texts: &[&[u8]],
    turns: (usize, usize),
) -> Result<Vec<Receipt>, Fail>
    ensures { IfOk result (λ receipts. All (IsOf desk.now) receipts.items) }
{
    if texts.is_empty() {
        return Err(Fail::new("no text"));
    }
    let mut receipts = Vec::new(alloc);
    for turn in turns.0..turns.1 {
        receipts.push(post_text(rt, alloc, desk, texts[turn % texts.len()])?)?;
    }
    Ok(receipts)
}

// What is gathered of these receipts, where `listed` says how many arrangements are listed before those of each lemma.
fn gathered(
    alloc: Global,
    desk: &Desk,
    receipts: &[Receipt],
    listed: &[u8],
) -> Result<Result<Certificate, AssembleFault>, AllocError>
    requires { All (IsOf desk.now) receipts.now }
{
    let mut first: Vec<u32> = Vec::new(alloc);
    for number in listed {
        if first.len() < 4 {
            first.push(u32::from(*number))?;
        }
    }
    let symmetries = exchange_of_twins(alloc)?;
    match desk.gather(alloc, receipts, symmetries, first.len() as u32, &first) {
        Err(AssembleFault::Memory) => Err(AllocError),
        gathered => Ok(gathered),
    }
}

// Whether the certificate has a text, and it is this.
fn is_spelled(
    alloc: Global,
    certificate: &Certificate,
    text: Option<&[u8]>,
) -> Result<bool, AllocError> {
    if !certificate.within_limits() {
        return Ok(false);
    }
    Ok(Some(write_certificate(alloc, certificate)?.as_slice()) == text)
}

// Whether that is a certificate with this text, or this fault.
fn is_gathered(
    alloc: Global,
    desk: &Desk,
    receipts: &[Receipt],
    listed: &[u8],
    wanted: Result<&[u8], AssembleFault>,
) -> Result<bool, AllocError>
    requires { All (IsOf desk.now) receipts.now }
{
    match gathered(alloc, desk, receipts, listed)? {
        Ok(certificate) => is_spelled(alloc, &certificate, wanted.ok()),
        Err(fault) => Ok(wanted.err() == Some(fault)),
    }
}

// Lemmas, the turns in which they are posted, how many arrangements are listed before those of each, and what is
// gathered: the first fault, where there are several.
type Row = (
    &'static [&'static [u8]],
    (usize, usize),
    &'static [u8],
    Result<&'static [u8], AssembleFault>,
);

// Two lemmas from the root, of which turn 1 is the other.
const TWINS: &[&[u8]] = &TWIN_TILES_FROM_THE_ROOT;

const ROWS: &[Row] = &[
    (TWINS, (0, 2), &[0, 0], Ok(TWIN_TILES_CERTIFICATE)),
    (TWINS, (0, 2), &[0, 5], Ok(TWIN_TILES_AFTER_FIVE)),
    (TWINS, (1, 3), &[0, 0], Ok(TWIN_TILES_CERTIFICATE)),
    (TWINS, (1, 3), &[0, 5], Ok(TWIN_TILES_AFTER_FIVE)),
    (TWINS, (0, 1), &[0, 0], Err(AssembleFault::Missing(1))),
    (
        &[TWO, ZERO, THREE, ONE],
        (0, 4),
        &[0, 5, 2, 1],
        Ok(FOUR_TURNED),
    ),
    (
        &[THREE, ZERO, ZERO, TWO],
        (0, 4),
        &[0, 0],
        Err(AssembleFault::Stranger(2)),
    ),
    (
        &[THREE, ONE],
        (0, 4),
        &[0; 4],
        Err(AssembleFault::Double(1)),
    ),
    (
        &[THREE, ZERO],
        (0, 2),
        &[0; 4],
        Err(AssembleFault::Missing(1)),
    ),
];

// Whether that comes of a row.
fn gathers<R: Wait>(rt: &R, alloc: Global, desk: &Desk, row: &Row) -> Result<bool, Fail> {
    let (texts, turns, listed, wanted) = *row;
    let receipts = post_by_turns(rt, alloc, desk, texts, turns)?;
    Ok(is_gathered(alloc, desk, &receipts, listed, wanted)?)
}

// Asserts it of each row, one after the other at one desk.
fn assert_gathers<R: Wait + Abort>(rt: &R, alloc: Global, desk: &Desk) -> Result<(), Fail> {
    for (place, row) in ROWS.iter().enumerate() {
        assert!(rt; gathers(rt, alloc, desk, row)?, "at {place}");
    }
    Ok(())
}

#[test]
fn gathers_lemmas(rt: HostRuntime) -> Result<(), Fail> {
    assert_gathers(&rt, rt.alloc(), &Desk::new(rt.alloc())?)
}

// Whether these are a hundred receipts, each of which reads what was posted by turns.
fn read_by_turns(alloc: Global, desk: &Desk, receipts: &[Receipt]) -> Result<bool, AllocError>
    requires { All (IsOf desk.now) receipts.now }
{
    for (place, receipt) in receipts.iter().enumerate() {
        if !is_lemma_line(alloc, desk.read(receipt), FOUR_LEMMAS[place % 4])? {
            return Ok(false);
        }
    }
    Ok(receipts.len() == 100)
}

// Whether the four lemmas, posted by turns, are read back.
fn reads_four<R: Wait>(rt: &R, alloc: Global, desk: &Desk) -> Result<bool, Fail> {
    let receipts = post_by_turns(rt, alloc, desk, &FOUR_LEMMAS, (0, 100))?;
    Ok(read_by_turns(alloc, desk, &receipts)?)
}

#[test]
fn desk_after_refusal(rt: HostRuntime) -> Result<(), Fail> {
    let desk = Desk::new(rt.alloc())?;
    assert!(rt; reads_four(&rt, rt.alloc(), &desk)?);
    Ok(())
}

// Posts a lemma whose one node is the arrangement with its number.
fn post_leaf<R: Wait>(
    rt: &R,
    alloc: Global,
    desk: &Desk,
    number: u32,
) -> Result<Receipt, AllocError>
    ensures { IfOk result (IsOf desk.now) }
{
    let lemma = lemma_without_prefix(alloc, number, Node::Found(number));
    if !lemma.within_limits() {
        return Err(AllocError);
    }
    match desk.post(rt, lemma) {
        Ok(receipt) => Ok(receipt),
        Err(_) => Err(AllocError),
    }
}

// Posts the hundred lemmas of a row, and reads each but the last back at once.
fn post_and_read<R: Wait + Abort>(
    rt: &R,
    alloc: Global,
    desk: &Desk,
    row: u8,
) -> Result<Receipt, AllocError>
    ensures { IfOk result (IsOf desk.now) }
{
    let first = 100 * u32::from(row);
    for number in first..first + 99 {
        let receipt = post_leaf(rt, alloc, desk, number)?;
        assert!(rt; desk.read(&receipt).number == number, "at {number}");
    }
    post_leaf(rt, alloc, desk, first + 99)
}

// The numbers that a walk over the desk gives, in order.
fn numbers_shown(alloc: Global, desk: &Desk) -> Result<Vec<u32>, AllocError> {
    let mut numbers = Vec::new(alloc);
    for lemma in desk.shown() {
        numbers.push(lemma.number)?;
    }
    numbers.sort()?;
    Ok(numbers)
}

// Posts the rows below 64, each on a thread of its own. What each gives.
fn post_rows<R: Threads + Wait + Abort + Sync>(
    rt: &R,
    alloc: Global,
    desk: &Desk,
) -> Result<Vec<Result<Receipt, AllocError>>, AllocError>
    ensures { IfOk result (λ posted. All (λ last. IfOk last (IsOf desk.now)) posted.items) }
{
    thread::map_vec(
        rt,
        (0..64u8).collect(alloc)?,
        &|row: u8| -> Result<Receipt, AllocError>
            ensures { IfOk result (IsOf desk.entry.now) }
        { post_and_read(rt, alloc, desk, row) },
    )
}

// Whether a walk gives each number.
fn are_shown(alloc: Global, desk: &Desk) -> Result<bool, AllocError> {
    Ok(numbers_shown(alloc, desk)?.iter().copied().eq(0..6400u32))
}

// Whether each of these is the last lemma of its row, and a walk gives the numbers of all rows.
fn are_last(
    alloc: Global,
    desk: &Desk,
    posted: &[Result<Receipt, AllocError>],
) -> Result<bool, AllocError>
    requires { All (λ last. IfOk last (IsOf desk.now)) posted.now }
{
    for (row, last) in posted.iter().enumerate() {
        let Ok(receipt) = last else {
            return Err(AllocError);
        };
        let number = desk.read(receipt).number;
        if (number as usize / 100, number % 100) != (row, 99) {
            return Ok(false);
        }
    }
    if posted.len() != 64 {
        return Ok(false);
    }
    are_shown(alloc, desk)
}

// The last lemma that each posted is read here.
fn are_read<R: Threads + Wait + Abort + Sync>(
    rt: &R,
    alloc: Global,
    desk: &Desk,
) -> Result<bool, AllocError> {
    let posted = post_rows(rt, alloc, desk)?;
    are_last(alloc, desk, &posted)
}

#[test]
fn sixty_four_threads_post_and_read(rt: HostRuntime) -> Result<(), Fail> {
    let desk = Desk::new(rt.alloc())?;
    assert!(rt; are_read(&rt, rt.alloc(), &desk)?);
    Ok(())
}
