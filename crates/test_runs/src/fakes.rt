//! Sources and sinks in memory, three together.

use byte_streams::{
    Documents, Failed, Fake, InputFault, Inputs, Outputs, OwnedDocuments, Products, ThreeSinks,
    ThreeSources,
};
use std::alloc::Global;

/// None of three fails.
pub const NEVER: [usize; 3] = [usize::MAX; 3];

/// The sources of three documents.
#[derive(Drop)]
pub struct FakeSources<'a> {
    pub puzzle: Fake<'a>,
    pub list: Fake<'a>,
    pub certificate: Fake<'a>,
}

impl<'a> FakeSources<'a> {
    /// Sources that move at most `most` bytes a call; each fails after its number of bytes in `fails_after`.
    pub fn new(
        alloc: Global,
        documents: &Documents<'a>,
        most: usize,
        fails_after: [usize; 3],
    ) -> FakeSources<'a> {
        FakeSources {
            puzzle: Fake::new(alloc, documents.puzzle, most, fails_after[0]),
            list: Fake::new(alloc, documents.list, most, fails_after[1]),
            certificate: Fake::new(alloc, documents.certificate, most, fails_after[2]),
        }
    }

    /// Reads all three.
    pub fn read_all(&mut self, alloc: Global) -> Result<OwnedDocuments, InputFault> {
        let mut sources = ThreeSources {
            puzzle: &mut self.puzzle,
            list: &mut self.list,
            certificate: &mut self.certificate,
        };
        sources.read_all(alloc)
    }

    /// How many bytes of each were taken.
    pub fn taken(&self) -> [usize; 3] {
        [
            self.puzzle.taken(),
            self.list.taken(),
            self.certificate.taken(),
        ]
    }
}

fn write_three(
    list: &mut Fake<'_>,
    certificate: &mut Fake<'_>,
    report: &mut Fake<'_>,
    made: &Products,
) -> Result<(), Failed> {
    let mut sinks = ThreeSinks {
        list,
        certificate,
        report,
    };
    sinks.write_all(made)
}

/// The sinks of three texts.
#[derive(Drop)]
pub struct FakeSinks {
    pub list: Fake<'static>,
    pub certificate: Fake<'static>,
    pub report: Fake<'static>,
}

impl FakeSinks {
    /// Sinks that move at most `most` bytes a call; each fails after its number of bytes in `fails_after`.
    pub fn new(alloc: Global, most: usize, fails_after: [usize; 3]) -> FakeSinks {
        FakeSinks {
            list: Fake::new(alloc, b"", most, fails_after[0]),
            certificate: Fake::new(alloc, b"", most, fails_after[1]),
            report: Fake::new(alloc, b"", most, fails_after[2]),
        }
    }

    /// Writes all three.
    pub fn write_all(&mut self, made: &Products) -> Result<(), Failed> {
        write_three(
            &mut self.list,
            &mut self.certificate,
            &mut self.report,
            made,
        )
    }

    /// Whether these are the texts that were written.
    pub fn have(&self, texts: [&[u8]; 3]) -> bool {
        self.list.written() == texts[0]
            && self.certificate.written() == texts[1]
            && self.report.written() == texts[2]
    }

    /// Whether one of them answered one error.
    pub fn has_one_error(&self) -> bool {
        [
            self.list.errors(),
            self.certificate.errors(),
            self.report.errors(),
        ]
        .contains(&1)
    }
}
