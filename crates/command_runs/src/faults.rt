//! What may go wrong in a run, and how that is printed.

ghost use Rattle.std.specs.Prelude.{◌≡◌, Some, IfOk};
ghost use Rattle.command_runs.specs.FaultText.{run_fault_text, fault_line};
ghost use Rattle.command_runs.specs.declared.faults.RunFault.TheVariants as run_fault;
ghost use Rattle.command_runs.specs.FaultText.{run_of_file, run_of_input, run_of_puzzle, run_of_list, run_of_certificate};
ghost use Rattle.command_runs.specs.FaultText.{run_of_compile, run_of_expand, run_of_find, run_of_make, run_of_parts, run_of_picture, run_of_solve, run_of_tiles};

use byte_streams::{Document, Failed, FileFault, InputFault};
use cert_text::CertTextFault;
use cert_tree::AssembleFault;
use count_totals::PartsFault;
use find_search::FindFault;
use match_board::TilesFault;
use match_puzzle::{ArrangementFault, PuzzleFault};
use match_report::ExpandFault;
use match_text::{ListTextFault, PuzzleTextFault};
use puzzle_maker::MakeFault;
use show_pictures::NotDrawn;
use solver::SolveFault;
use std::alloc::{AllocError, Global};
use std::error::Error;
use std::fmt;
use xcc_form::CompileFault;

/// Why a run stopped.
#[derive(Clone, Copy, PartialEq, Eq, Debug)]
pub enum RunFault {
    /// Reading this document failed.
    Read(Document),
    /// This document has more bytes than are read.
    TooLong(Document),
    Puzzle(PuzzleTextFault),
    List(ListTextFault),
    Certificate(CertTextFault),
    /// The lines of counted parts have no total.
    Parts(PartsFault),
    /// The list has no arrangement with this number.
    NoArrangement(u32),
    /// The listed entry with this number is no arrangement of the puzzle.
    Arrangement(u32, ArrangementFault),
    /// The puzzle was not solved.
    Solve(SolveFault),
    /// No puzzle was made.
    Make(MakeFault),
    /// The list of a solve is refused by the check of it.
    Refused,
    /// The symmetries reach more arrangements than may be listed.
    Expand,
    /// There are more tiles than may be listed.
    Tiles,
    /// Writing failed, or nothing more was taken.
    Write,
    /// Both files of a solve were put under their names, but one of the names leads to another file by now.
    Replaced,
    Memory,
}

#[tactic(auto, unfolding(crate::specs::FaultText::run_fault_text))]
impl fmt::Display for RunFault {
    ghost output = { λ fault. Some (run_fault_text fault) };

    fn fmt<W: fmt::Write>(&self, f: &mut fmt::Formatter<W>) -> fmt::Result {
        match self {
            RunFault::Read(document) => write!(f, "cannot read {document}"),
            RunFault::TooLong(document) => write!(f, "too long {document}"),
            RunFault::Puzzle(PuzzleTextFault::Memory | PuzzleTextFault::Puzzle(PuzzleFault::Memory))
            | RunFault::List(ListTextFault::Memory)
            | RunFault::Certificate(
                CertTextFault::Memory | CertTextFault::Assemble(AssembleFault::Memory),
            )
            | RunFault::Parts(PartsFault::Memory)
            | RunFault::Memory => f.write_str("out of memory"),
            RunFault::Puzzle(fault) => write!(f, "puzzle: {fault}"),
            RunFault::List(fault) => write!(f, "list: {fault}"),
            RunFault::Certificate(fault) => write!(f, "certificate: {fault}"),
            RunFault::Parts(fault) => write!(f, "parts: {fault}"),
            RunFault::NoArrangement(number) => write!(f, "list: no arrangement {number}"),
            RunFault::Arrangement(number, fault) => write!(
                f,
                "list: arrangement {number}: {fault}"
            ),
            RunFault::Solve(fault) => write!(f, "{fault}"),
            RunFault::Make(fault) => write!(f, "{fault}"),
            RunFault::Refused => f.write_str("the check refuses what was found"),
            RunFault::Expand => write!(f, "{}", ExpandFault::TooMany),
            RunFault::Tiles => write!(f, "{}", TilesFault::TooMany),
            RunFault::Write => f.write_str("cannot write"),
            RunFault::Replaced => f.write_str("another run wrote there"),
        }
    }
}

impl Error for RunFault {}

impl From<InputFault> for RunFault {
    ghost from_gives = { λ fault e. e ≡ run_of_input fault };

    fn from(fault: InputFault) -> RunFault {
        match fault {
            InputFault::Read(document) => RunFault::Read(document),
            InputFault::TooLong(document) => RunFault::TooLong(document),
            InputFault::Memory => RunFault::Memory,
        }
    }
}

impl From<Failed> for RunFault {
    ghost from_gives = { λ _ e. e ≡ run_fault.Write };

    fn from(_failed: Failed) -> RunFault {
        RunFault::Write
    }
}

impl From<FileFault> for RunFault {
    ghost from_gives = { λ fault e. e ≡ run_of_file fault };

    fn from(fault: FileFault) -> RunFault {
        match fault {
            FileFault::Refused(_) => RunFault::Write,
            FileFault::Memory => RunFault::Memory,
        }
    }
}

impl From<PuzzleTextFault> for RunFault {
    ghost from_gives = { λ fault e. e ≡ run_of_puzzle fault };

    fn from(fault: PuzzleTextFault) -> RunFault {
        match fault {
            PuzzleTextFault::Memory => RunFault::Memory,
            fault => RunFault::Puzzle(fault),
        }
    }
}

impl From<ListTextFault> for RunFault {
    ghost from_gives = { λ fault e. e ≡ run_of_list fault };

    fn from(fault: ListTextFault) -> RunFault {
        match fault {
            ListTextFault::Memory => RunFault::Memory,
            fault => RunFault::List(fault),
        }
    }
}

impl From<CertTextFault> for RunFault {
    ghost from_gives = { λ fault e. e ≡ run_of_certificate fault };

    fn from(fault: CertTextFault) -> RunFault {
        match fault {
            CertTextFault::Memory => RunFault::Memory,
            fault => RunFault::Certificate(fault),
        }
    }
}

impl From<PartsFault> for RunFault {
    ghost from_gives = { λ fault e. e ≡ run_of_parts fault };

    fn from(fault: PartsFault) -> RunFault {
        match fault {
            PartsFault::Memory => RunFault::Memory,
            fault => RunFault::Parts(fault),
        }
    }
}

impl From<SolveFault> for RunFault {
    ghost from_gives = { λ fault e. e ≡ run_of_solve fault };

    fn from(fault: SolveFault) -> RunFault {
        match fault {
            SolveFault::Memory => RunFault::Memory,
            fault => RunFault::Solve(fault),
        }
    }
}

impl From<MakeFault> for RunFault {
    ghost from_gives = { λ fault e. e ≡ run_of_make fault };

    fn from(fault: MakeFault) -> RunFault {
        match fault {
            MakeFault::Memory => RunFault::Memory,
            fault => RunFault::Make(fault),
        }
    }
}

impl From<CompileFault> for RunFault {
    ghost from_gives = { λ fault e. e ≡ run_of_compile fault };

    fn from(fault: CompileFault) -> RunFault {
        match fault {
            CompileFault::TooMany => RunFault::Solve(SolveFault::TooMany),
            CompileFault::Memory => RunFault::Memory,
        }
    }
}

impl From<ExpandFault> for RunFault {
    ghost from_gives = { λ fault e. e ≡ run_of_expand fault };

    fn from(fault: ExpandFault) -> RunFault {
        match fault {
            ExpandFault::TooMany => RunFault::Expand,
            ExpandFault::Memory => RunFault::Memory,
        }
    }
}

impl From<FindFault> for RunFault {
    ghost from_gives = { λ fault e. e ≡ run_of_find fault };

    fn from(fault: FindFault) -> RunFault {
        match fault {
            FindFault::TooMany => RunFault::Expand,
            FindFault::Memory => RunFault::Memory,
        }
    }
}

impl From<NotDrawn> for RunFault {
    ghost from_gives = { λ fault e. e ≡ run_of_picture fault };

    fn from(fault: NotDrawn) -> RunFault {
        match fault {
            NotDrawn::NoArrangement(number) => RunFault::NoArrangement(number),
            NotDrawn::Arrangement(number, fault) => RunFault::Arrangement(number, fault),
            NotDrawn::Memory => RunFault::Memory,
        }
    }
}

impl From<TilesFault> for RunFault {
    ghost from_gives = { λ fault e. e ≡ run_of_tiles fault };

    fn from(fault: TilesFault) -> RunFault {
        match fault {
            TilesFault::TooMany => RunFault::Tiles,
            TilesFault::Memory => RunFault::Memory,
        }
    }
}

impl From<AllocError> for RunFault {
    ghost from_gives = { λ _ e. e ≡ run_fault.Memory };

    fn from(_error: AllocError) -> RunFault {
        RunFault::Memory
    }
}

/// Returns the line that says why a run stopped. An error comes where memory is refused.
pub fn fault_text(alloc: Global, fault: &RunFault) -> Result<Vec<u8>, AllocError>
    ensures { IfOk result (λ text. text.items ≡ fault_line fault.now) }
{
    let line = format!(in alloc; "{fault}\n")?;
    Ok(line.into_bytes())
}
