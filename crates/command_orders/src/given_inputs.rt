//! What the three documents of an order are read from, as they are given: their files, or standard input.

ghost use Rattle.std.specs.Prelude.{◌≡◌, IfOk, IfErr, OnOk};
ghost use Rattle.byte_streams.specs.Moves.{reading_of};
ghost use Rattle.byte_streams.specs.Origins.{joined_source, one_source};
ghost use Rattle.byte_streams.specs.declared.faults.InputFault.TheVariants.{Memory};
ghost use Rattle.command_orders.specs.GivenInputs.{AreOpenedAs, IsOpenedAt, Stays, are_read_from_input, read_apart};
ghost use Rattle.command_orders.specs.GivenInputs.{is_read_from_input, reading_by, readings};
ghost use Rattle.command_orders.specs.InputUse.{LeavesInput};
ghost use Rattle.command_orders.specs.PlaceOrigins.{IsUnopened, Refuses, all_given};

use crate::files::open;
use byte_streams::{
    Document, FileSystem, InputFault, Inputs, JoinedSource, OneSource, OwnedDocuments, Source, Text,
};
use command_runs::{HintedFault, RunFault};
use command_words::{Given, Place};
use std::alloc::Global;

// What a document is read from.
#[derive(Drop)]
pub(crate) enum DocumentReader<R> {
    // Standard input.
    Input,
    // Its file.
    File(R),
}

impl<R: Source> DocumentReader<R> {
    // Reads the document to its end.
    fn read<I: Source>(
        &mut self,
        alloc: Global,
        input: &mut I,
        document: Document,
    ) -> Result<Text, InputFault>
        ensures stays { Stays self.old self.new input.old input.new }
        ensures gave { IfOk result (λ text.
            (one_source document (reading_by I.Source R.Source self.old self.new input.old input.new)).Gave text) }
        ensures faultless { OnOk result
            ((one_source document (reading_by I.Source R.Source self.old self.new input.old input.new)).Stopped Memory) }
        ensures stopped { IfErr result (λ fault.
            (one_source document (reading_by I.Source R.Source self.old self.new input.old input.new)).Stopped fault) }
    {
        match self {
            DocumentReader::Input => read_from(alloc, input, document),
            DocumentReader::File(reader) => read_from(alloc, reader, document),
        }
    }
}

// Reads the document that this source has to its end.
fn read_from<S: Source>(
    alloc: Global,
    source: &mut S,
    document: Document,
) -> Result<Text, InputFault>
    ensures gave { IfOk result (λ text. (one_source document (reading_of S.Source source.old source.new)).Gave text) }
    ensures faultless { OnOk result ((one_source document (reading_of S.Source source.old source.new)).Stopped Memory) }
    ensures stopped { IfErr result
        (λ fault. (one_source document (reading_of S.Source source.old source.new)).Stopped fault) }
{
    OneSource { source, document }.read_all(alloc)
}

// Opens the file of a document that is in one.
fn open_at<S: FileSystem>(
    alloc: Global,
    system: &S,
    place: &Place,
    document: Document,
) -> Result<DocumentReader<S::Reader>, HintedFault>
    ensures opened { IfOk result (IsOpenedAt S.FileSystem S.Reader.Source system.now place.now) }
    ensures fault { IfErr result (λ hinted. (hinted.fault ≡ RunFault.Read document)
        × Refuses S.FileSystem S.Reader.Source system.now place.now) }
{
    match place {
        Place::Input => Ok(DocumentReader::Input),
        Place::File(name) => Ok(DocumentReader::File(open(alloc, system, name, document)?)),
    }
}

// What a puzzle, a list and a certificate that are apart are read from.
#[derive(Drop)]
pub(crate) struct ThreeReaders<R> {
    puzzle: DocumentReader<R>,
    list: DocumentReader<R>,
    certificate: DocumentReader<R>,
}

impl<R: Source> ThreeReaders<R> {
    // Reads each document to its end, in order. After a fault those that follow are not read.
    fn read_all<I: Source>(
        &mut self,
        alloc: Global,
        input: &mut I,
    ) -> Result<OwnedDocuments, InputFault>
        ensures unread { LeavesInput (are_read_from_input self.old) input.old input.new }
        ensures gave { IfOk result
            (λ texts. (read_apart I.Source R.Source self.old self.new input.old input.new).Gave texts) }
        ensures faultless { OnOk result
            ((read_apart I.Source R.Source self.old self.new input.old input.new).Stopped Memory) }
        ensures stopped { IfErr result
            (λ fault. (read_apart I.Source R.Source self.old self.new input.old input.new).Stopped fault) }
    {
        let puzzle = self.puzzle.read(alloc, input, Document::Puzzle)?;
        let list = self.list.read(alloc, input, Document::List)?;
        let certificate = self.certificate.read(alloc, input, Document::Certificate)?;
        Ok(OwnedDocuments::apart(puzzle, list, certificate))
    }
}

// What three documents are read from.
#[derive(Drop)]
pub(crate) enum GivenReaders<R> {
    // Standard input, which has them joined.
    Joined,
    // Each from its file or from standard input.
    Apart(ThreeReaders<R>),
}

// Opens all files before any is read.
pub(crate) fn open_given<S: FileSystem>(
    alloc: Global,
    system: &S,
    given: &Given,
) -> Result<GivenReaders<S::Reader>, HintedFault>
    ensures opened { IfOk result (AreOpenedAs S.FileSystem S.Reader.Source system.now given.now) }
    ensures fault { IfErr result (λ hinted.
        IsUnopened S.FileSystem S.Reader.Source system.now (all_given given.now) hinted.fault) }
{
    match given {
        Given::Joined => Ok(GivenReaders::Joined),
        Given::Apart(places) => {
            let puzzle = open_at(alloc, system, &places.puzzle, Document::Puzzle)?;
            let list = open_at(alloc, system, &places.list, Document::List)?;
            let certificate = open_at(alloc, system, &places.certificate, Document::Certificate)?;
            Ok(GivenReaders::Apart(ThreeReaders {
                puzzle,
                list,
                certificate,
            }))
        }
    }
}

// Three documents as they are given, of which at most one is read from standard input, or all three joined.
#[derive(Drop)]
pub(crate) struct GivenInputs<'a, 'b, I: Source, R: Source> {
    pub(crate) input: &'a mut I,
    pub(crate) readers: &'b mut GivenReaders<R>,
}

impl<I: Source, R: Source> Inputs for GivenInputs<'_, '_, I, R> {
    type Texts = OwnedDocuments;

    ghost same = { λ old new.
        (new.input.ghost_name ≡ old.input.ghost_name) × (new.readers.ghost_name ≡ old.readers.ghost_name)
        × LeavesInput (is_read_from_input old.readers.now) old.input.now new.input.now };

    ghost reads = { λ old new.
        readings I.Source R.Source old.readers.now new.readers.now old.input.now new.input.now };

    fn read_all(&mut self, alloc: Global) -> Result<OwnedDocuments, InputFault> {
        match &mut *self.readers {
            GivenReaders::Joined => JoinedSource { input: self.input }.read_all(alloc),
            GivenReaders::Apart(readers) => readers.read_all(alloc, self.input),
        }
    }
}
