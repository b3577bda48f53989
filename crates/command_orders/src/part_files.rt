//! Files with the lines that counts of parts printed; they are read one after the other.

ghost use Rattle.std.specs.Prelude.{◌≡◌, ◌≤◌, ◌-◌, ◌++◌, IfErr, List, OnOk, ℕ, length, map};
ghost use Rattle.std.specs.String.{string_bytes};
ghost use Rattle.match_limits.specs.declared.TheConstants.{MOST_BYTES};
ghost use Rattle.command_orders.specs.PartFiles.{IsTextOf, StopsAtFile, part_files};

use crate::files::hint_on;
use byte_streams::{Document, FileSystem, InputFault, Inputs, Refusal, Source, Text, read_whole};
use command_runs::RunFault;
use count_totals::PartsFault;
use match_limits::MOST_BYTES;
use std::alloc::{AllocError, Global};

// Where a file begins in the text that the files before it make together.
#[derive(Clone, Copy)]
struct FileStart {
    // how many lines end before it
    lines: usize,
    // whether a line that begins before it goes on in it
    is_within_line: bool,
}

impl FileStart {
    // Where the file after this text begins, if the text begins here.
    fn behind(&self, text: &[u8]) -> FileStart {
        let lines = text.iter().filter(|byte| **byte == b'\n').count();
        FileStart {
            lines: self.lines.saturating_add(lines),
            is_within_line: match text.last() {
                Some(byte) => *byte != b'\n',
                None => self.is_within_line,
            },
        }
    }

    // Whether the line with this number, from 1, begins after this.
    fn is_before(&self, line: usize) -> bool {
        if self.is_within_line {
            self.lines.saturating_add(1) < line
        } else {
            self.lines < line
        }
    }
}

// Files with the lines that counts of parts printed, and what is noted while they are read.
#[derive(Drop)]
pub(crate) struct PartFiles<'a, S: FileSystem> {
    system: &'a S,
    names: &'a [String],
    // where each file begins that was read, and where the next one will
    starts: Vec<FileStart>,
    next: FileStart,
    // why that one was refused, if it was
    refusal: Option<Refusal>,
}

impl<S: FileSystem> Inputs for PartFiles<'_, S> {
    type Texts = Text;

    ghost same = { λ old new. (new.system ≡ old.system) × (new.names ≡ old.names) };

    ghost reads = { λ old new. part_files S.FileSystem S.Reader.Source old.system.now (map string_bytes old.names.now) };

    fn read_all(&mut self, alloc: Global) -> Result<Text, InputFault> {
        let mut text = Vec::new(alloc);
        let names = self.names;
        for name in names {
            self.read_on(alloc, name, &mut text)?;
        }
        Ok(Text::new(text))
    }
}

impl<'a, S: FileSystem> PartFiles<'a, S> {
    // The files with these names; none is read yet.
    pub(crate) fn new(alloc: Global, system: &'a S, names: &'a [String]) -> PartFiles<'a, S>
        ensures system { result.system ≡ system.entry }
        ensures names { result.names ≡ names.entry }
    {
        PartFiles {
            system,
            names,
            starts: Vec::new(alloc),
            next: FileStart {
                lines: 0,
                is_within_line: false,
            },
            refusal: None,
        }
    }

    // Appends the text of the file with this name to what was read.
    fn read_on(
        &mut self,
        alloc: Global,
        name: &String,
        text: &mut Vec<u8>,
    ) -> Result<(), InputFault>
        requires { length text.old.items ≤ MOST_BYTES }
        ensures same { (self.new.system ≡ self.old.system) × (self.new.names ≡ self.old.names) }
        ensures read { OnOk result ((more : List ℕ)
            × IsTextOf S.FileSystem S.Reader.Source self.old.system.now (string_bytes name.now) more
            × (text.new.items ≡ text.old.items ++ more)) }
        ensures short { OnOk result (length text.new.items ≤ MOST_BYTES) }
        ensures stopped { IfErr result (StopsAtFile S.FileSystem S.Reader.Source self.old.system.now
            (MOST_BYTES - length text.old.items) (string_bytes name.now)) }
    {
        let mut file = match self.system.open(name) {
            Ok(file) => file,
            Err(refusal) => {
                self.refusal = Some(refusal);
                return Err(InputFault::Read(Document::Parts));
            }
        };
        let bound = MOST_BYTES - text.len() as u32;
        match read_whole(alloc, &mut file, bound, Document::Parts) {
            Ok(more) => {
                text.extend_from_slice(&more)?;
                self.note(&more)?;
                Ok(())
            }
            Err(fault) => {
                self.refusal = file.refusal();
                Err(fault)
            }
        }
    }

    // Notes that the next file was read, and has this text.
    fn note(&mut self, text: &[u8]) -> Result<(), AllocError>
        ensures { (self.new.system ≡ self.old.system) × (self.new.names ≡ self.old.names) }
    {
        self.starts.push(self.next)?;
        self.next = self.next.behind(text);
        Ok(())
    }

    // The hint beside a fault of the sum: which file was refused, and why, or in which of several files the wrong line
    // begins.
    pub(crate) fn hint(&self, alloc: Global, fault: &RunFault) -> Option<String> {
        match fault {
            RunFault::Read(_) => hint_on(
                alloc,
                self.next_name()?,
                self.refusal.unwrap_or(Refusal::Other),
            ),
            RunFault::TooLong(_) => String::from_str(alloc, self.next_name()?).ok(),
            RunFault::Parts(fault) => self.line_hint(alloc, wrong_line(fault)?),
            _ => None,
        }
    }

    // The name of the file after those that were read.
    fn next_name(&self) -> Option<&str> {
        let name = self.names.get(self.starts.len())?;
        Some(name)
    }

    fn line_hint(&self, alloc: Global, line: u32) -> Option<String> {
        if self.names.len() < 2 {
            return None;
        }
        let line = line as usize;
        let mut found = None;
        for (name, start) in self.names.iter().zip(self.starts.iter()) {
            if start.is_before(line) {
                found = Some((name, line.saturating_sub(start.lines)));
            }
        }
        let (name, number) = found?;
        format!(in alloc; "{name}: line {number}").ok()
    }
}

// The line that is wrong, if one is.
fn wrong_line(fault: &PartsFault) -> Option<u32> {
    match fault {
        PartsFault::Ends(line) | PartsFault::Unknown(line) | PartsFault::Clashes(line, _) => {
            Some(*line)
        }
        _ => None,
    }
}
