//! The lines of faults that no case of the program brings about.

use cert_text::CertTextFault;
use cert_tree::AssembleFault;
use command_runs::{Document, RunFault, fault_text};
use match_puzzle::PuzzleFault;
use match_text::{ListTextFault, PuzzleTextFault};
use solver::SolveFault;
use std::alloc::{AllocError, Global};
use std::test::Fail;
use text_words::{TextFault, TextKind};

const TOO_DEEP: TextFault = TextFault {
    line: 4,
    kind: TextKind::TooDeep,
};

const LINES: [(RunFault, &str); 9] = [
    (RunFault::Read(Document::Input), "cannot read input\n"),
    (RunFault::TooLong(Document::Puzzle), "too long puzzle\n"),
    (RunFault::TooLong(Document::List), "too long list\n"),
    (
        RunFault::TooLong(Document::Certificate),
        "too long certificate\n",
    ),
    (RunFault::TooLong(Document::Input), "too long input\n"),
    (
        RunFault::List(ListTextFault::Text(TOO_DEEP)),
        "list: line 4: too-deep\n",
    ),
    (
        RunFault::Puzzle(PuzzleTextFault::Puzzle(PuzzleFault::BadColour(17))),
        "puzzle: bad-colour 17\n",
    ),
    (
        RunFault::Certificate(CertTextFault::Assemble(AssembleFault::Missing(2))),
        "certificate: missing 2\n",
    ),
    (RunFault::Replaced, "another run wrote there\n"),
];

// Faults that are told as want of memory.
const OF_MEMORY: [RunFault; 7] = [
    RunFault::Puzzle(PuzzleTextFault::Memory),
    RunFault::Puzzle(PuzzleTextFault::Puzzle(PuzzleFault::Memory)),
    RunFault::List(ListTextFault::Memory),
    RunFault::Certificate(CertTextFault::Memory),
    RunFault::Certificate(CertTextFault::Assemble(AssembleFault::Memory)),
    RunFault::Solve(SolveFault::Memory),
    RunFault::Memory,
];

// Whether this is the line of the fault.
fn prints(alloc: Global, fault: &RunFault, line: &str) -> Result<bool, AllocError> {
    Ok(fault_text(alloc, fault)?.as_slice() == line.as_bytes())
}

#[test]
fn prints_each_fault(rt: HostRuntime) -> Result<(), Fail> {
    for (fault, line) in LINES.iter() {
        assert!(rt; prints(rt.alloc(), fault, line)?);
    }
    Ok(())
}

#[test]
fn prints_want_of_memory(rt: HostRuntime) -> Result<(), Fail> {
    for fault in OF_MEMORY.iter() {
        assert!(rt; prints(rt.alloc(), fault, "out of memory\n")?);
    }
    Ok(())
}
