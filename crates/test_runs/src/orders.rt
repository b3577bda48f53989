//! Orders over files whose texts are known.

ghost use Rattle.std.specs.Prelude.{◌≡◌, IfOk};
ghost use Rattle.std.specs.String.{string_bytes};
ghost use Rattle.command_runs.specs.Checking.{SpellCompleteList};

use crate::checks::TWINS;
use crate::files::HeldFiles;
use crate::outcomes::with_memory;
use byte_streams::Fake;
use command_orders::{Exit, HintedFault, Streams, run_order};
use command_runs::RunFault;
use command_words::{CheckOrder, Files, Given, Order, Place, Places, SolveOrder, WantedWorkers};
use match_limits::{Depth, Forks, Fuel, Workers};
use solver::{SolveFault, Suggested};
use std::alloc::{AllocError, Global};
use std::random::RandomSource;
use std::sync::Wait;
use std::test::Fail;
use std::thread::Threads;
use std::time::Clock;

// Both tiles fit the first cell, so that it isn't dead.
const DEAD_TWINS: &[u8] = b"certificate 1\nsymmetries 0\nlemmas 1\nlemma 0 prefix tree d 0\nend\n";

// The names of the files of three documents.
#[derive(Drop)]
struct Names {
    puzzle: String,
    list: String,
    certificate: String,
}

// These names.
fn names_of(alloc: Global, puzzle: &str, list: &str, certificate: &str) -> Result<Names, AllocError>
    ensures puzzle { IfOk result (λ names. string_bytes names.puzzle ≡ puzzle.now) }
    ensures list { IfOk result (λ names. string_bytes names.list ≡ list.now) }
    ensures certificate { IfOk result (λ names. string_bytes names.certificate ≡ certificate.now) }
{
    Ok(Names {
        puzzle: String::from_str(alloc, puzzle)?,
        list: String::from_str(alloc, list)?,
        certificate: String::from_str(alloc, certificate)?,
    })
}

// How a check of three files ends that hold these texts. What `run_order` says of the files is said of the texts here:
// where it is done, they spell a list that is complete.
fn exit_of<R: Threads + Wait + Sync + RandomSource + Clock + Eprint>(
    rt: &R,
    held: &HeldFiles<'_>,
    streams: &mut Streams<'_, '_, '_, Fake<'_>, Fake<'_>, Fake<'_>>,
) -> Result<Exit, HintedFault>
    ensures { IfOk result (λ exit. exit ≡ Exit.Done → SpellCompleteList (record {
      puzzle = held.now.puzzle.now;
      list = held.now.list.now;
      certificate = held.now.certificate.now;
    })) }
{
    let mut system = *held;
    let names = names_of(held.alloc, "p", "l", "c")?;
    let places = Places {
        puzzle: Place::File(names.puzzle),
        list: Place::File(names.list),
        certificate: Place::File(names.certificate),
    };
    let order = Order::Check(CheckOrder {
        given: Given::Apart(places),
        workers: WantedWorkers::Number(Workers::new(2)),
        forks: Forks::new(1),
        progress: false,
        hints: false,
    });
    let exit = run_order(rt, held.alloc, &order, &mut system, streams)?;
    Ok(exit)
}

// How a check of the twins with this certificate ends.
fn exit_with<R: Threads + Wait + Sync + RandomSource + Clock + Eprint>(
    rt: &R,
    alloc: Global,
    certificate: &[u8],
) -> Result<Exit, HintedFault> {
    let held = HeldFiles {
        alloc,
        puzzle: TWINS.puzzle,
        list: TWINS.list,
        certificate,
    };
    let mut input = Fake::new(alloc, b"", 7, usize::MAX);
    let mut output = Fake::new(alloc, b"", 5, usize::MAX);
    let mut errors = Fake::new(alloc, b"", 5, usize::MAX);
    let mut streams = Streams {
        input: &mut input,
        output: &mut output,
        errors: &mut errors,
        terminal: false,
        typed: false,
    };
    exit_of(rt, &held, &mut streams)
}

// How a run ended, without the hint beside a fault.
fn without_hint(ended: Result<Exit, HintedFault>) -> Result<Exit, RunFault> {
    match ended {
        Ok(exit) => Ok(exit),
        Err(HintedFault { fault, hint: _ }) => Err(fault),
    }
}

// Whether a check of the twins with this certificate ends so.
fn ends<R: Threads + Wait + Sync + RandomSource + Clock + Eprint>(
    rt: &R,
    alloc: Global,
    certificate: &[u8],
    exit: Exit,
) -> Result<bool, AllocError> {
    let ended = exit_with(rt, alloc, certificate);
    Ok(with_memory(without_hint(ended))? == Ok(exit))
}

#[test]
fn a_check_that_is_done_is_of_a_complete_list(rt: HostRuntime) -> Result<(), Fail> {
    assert!(rt; ends(&rt, rt.alloc(), TWINS.certificate, Exit::Done)?);
    assert!(rt; ends(&rt, rt.alloc(), DEAD_TWINS, Exit::Refused)?);
    Ok(())
}

// A solve in one lemma of the puzzle on standard input.
fn solve_order(alloc: Global, check: bool) -> Result<Order, AllocError> {
    let files = Files {
        puzzle: Place::Input,
        list: String::from_str(alloc, "l")?,
        certificate: String::from_str(alloc, "c")?,
    };
    Ok(Order::Solve(SolveOrder {
        files,
        depth: Some(Depth::new(0)),
        fuel: Fuel::new(10),
        workers: WantedWorkers::Number(Workers::new(1)),
        symmetries: Suggested::All,
        check,
        progress: false,
        hints: false,
    }))
}

// How an order ends over files that hold nothing.
fn ended<R: Threads + Wait + Sync + RandomSource + Clock + Eprint>(
    rt: &R,
    alloc: Global,
    order: &Order,
    input: &mut Fake<'_>,
    output: &mut Fake<'_>,
) -> Result<Exit, HintedFault> {
    let mut system = HeldFiles {
        alloc,
        puzzle: b"",
        list: b"",
        certificate: b"",
    };
    let mut errors = Fake::new(alloc, b"", 5, usize::MAX);
    let mut streams = Streams {
        input,
        output,
        errors: &mut errors,
        terminal: false,
        typed: false,
    };
    run_order(rt, alloc, order, &mut system, &mut streams)
}

// Whether a solve of the twins on standard input is done, and reports this.
fn reports<R: Threads + Wait + Sync + RandomSource + Clock + Eprint>(
    rt: &R,
    alloc: Global,
    check: bool,
    report: &[u8],
) -> Result<bool, AllocError> {
    let order = solve_order(alloc, check)?;
    let mut input = Fake::new(alloc, TWINS.puzzle, 7, usize::MAX);
    let mut output = Fake::new(alloc, b"", 5, usize::MAX);
    let exit = ended(rt, alloc, &order, &mut input, &mut output);
    Ok(with_memory(without_hint(exit))? == Ok(Exit::Done) && output.written() == report)
}

// Both arrangements of the twins are found, and the check has the last line.
const REPORTS: [(bool, &[u8]); 2] = [
    (
        false,
        b"found 2\nlemmas 1\nworker 0 took 0\n0 0.0 0101\n1 1.0 0101\n",
    ),
    (
        true,
        b"found 2\nlemmas 1\nworker 0 took 0\n0 0.0 0101\n1 1.0 0101\ncomplete 2\n",
    ),
];

#[test]
fn a_solve_reads_its_puzzle_from_standard_input(rt: HostRuntime) -> Result<(), Fail> {
    for (check, report) in REPORTS.iter() {
        assert!(rt; reports(&rt, rt.alloc(), *check, report)?);
    }
    Ok(())
}

const CODES: [(RunFault, u8); 5] = [
    (RunFault::Refused, 1),
    (RunFault::Tiles, 2),
    (RunFault::Write, 2),
    (RunFault::Replaced, 2),
    (RunFault::Solve(SolveFault::GaveUp), 3),
];

#[test]
fn faults_have_codes(rt: HostRuntime) {
    for (fault, code) in CODES.iter() {
        assert!(rt; Exit::of_fault(fault).code() == *code);
    }
}
