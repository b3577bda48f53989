//! Where texts come from: no source, one or several, which are read to their ends.

ghost use Rattle.std.specs.Prelude.{◌≡◌, IfOk, IfErr, OnOk};
ghost use Rattle.byte_streams.specs.Moves.{reading_of};
ghost use Rattle.byte_streams.specs.Origins.{Origin, joined_source, no_source, one_source, three_sources, two_sources};

use crate::documents::{OwnedDocuments, TwoTexts};
use crate::faults::{Document, InputFault};
use crate::readings::read_text;
use crate::sources::Source;
use crate::texts::Text;
use std::alloc::Global;

/// Where texts come from.
///
/// Contracts see it as what it says before a call and after it.
pub trait Inputs {
    type Texts: Drop;

    // that the references are the same
    ghost same: { Self → Self → Type 0 };
    // what it tells before a call and after it
    ghost reads: { Self → Self → Origin Self.Texts };

    /// Reads each source to its end, in order. After a fault the sources that follow are not read.
    fn read_all(&mut self, alloc: Global) -> Result<Self::Texts, InputFault>
        ensures same { same self.old self.new }
        ensures gave { IfOk result (λ texts. (reads self.old self.new).Gave texts) }
        ensures faultless { OnOk result ((reads self.old self.new).Stopped InputFault.Memory) }
        ensures stopped { IfErr result (λ fault. (reads self.old self.new).Stopped fault) };
}

/// Nothing to be read.
#[derive(Drop)]
pub struct NoSource;

impl Inputs for NoSource {
    type Texts = ();

    ghost same = { λ _ _. Unit {0} };

    ghost reads = { λ _ _. no_source };

    fn read_all(&mut self, _alloc: Global) -> Result<(), InputFault> {
        Ok(())
    }
}

/// The source of a document.
#[derive(Drop)]
pub struct OneSource<'a, S: Source> {
    pub source: &'a mut S,
    pub document: Document,
}

impl<S: Source> Inputs for OneSource<'_, S> {
    type Texts = Text;

    ghost same = { λ old new. new.source.ghost_name ≡ old.source.ghost_name };

    ghost reads = { λ old new. one_source old.document (reading_of S.Source old.source.now new.source.now) };

    fn read_all(&mut self, alloc: Global) -> Result<Text, InputFault> {
        read_text(alloc, self.source, self.document)
    }
}

/// The sources of a puzzle and a list.
#[derive(Drop)]
pub struct TwoSources<'p, 'l, P: Source, L: Source> {
    pub puzzle: &'p mut P,
    pub list: &'l mut L,
}

impl<P: Source, L: Source> Inputs for TwoSources<'_, '_, P, L> {
    type Texts = TwoTexts;

    ghost same = { λ old new. (new.puzzle.ghost_name ≡ old.puzzle.ghost_name) × (new.list.ghost_name ≡ old.list.ghost_name) };

    ghost reads = { λ old new. two_sources (reading_of P.Source old.puzzle.now new.puzzle.now)
        (reading_of L.Source old.list.now new.list.now) };

    fn read_all(&mut self, alloc: Global) -> Result<TwoTexts, InputFault> {
        let puzzle = read_text(alloc, self.puzzle, Document::Puzzle)?;
        let list = read_text(alloc, self.list, Document::List)?;
        Ok(TwoTexts { puzzle, list })
    }
}

/// The sources of a puzzle, a list and a certificate.
#[derive(Drop)]
pub struct ThreeSources<'p, 'l, 'c, P: Source, L: Source, C: Source> {
    pub puzzle: &'p mut P,
    pub list: &'l mut L,
    pub certificate: &'c mut C,
}

impl<P: Source, L: Source, C: Source> Inputs for ThreeSources<'_, '_, '_, P, L, C> {
    type Texts = OwnedDocuments;

    ghost same = { λ old new. (new.puzzle.ghost_name ≡ old.puzzle.ghost_name)
        × (new.list.ghost_name ≡ old.list.ghost_name) × (new.certificate.ghost_name ≡ old.certificate.ghost_name) };

    ghost reads = { λ old new. three_sources (reading_of P.Source old.puzzle.now new.puzzle.now)
        (reading_of L.Source old.list.now new.list.now) (reading_of C.Source old.certificate.now new.certificate.now) };

    fn read_all(&mut self, alloc: Global) -> Result<OwnedDocuments, InputFault> {
        let mut first = TwoSources {
            puzzle: self.puzzle,
            list: self.list,
        };
        let texts = first.read_all(alloc)?;
        let certificate = read_text(alloc, self.certificate, Document::Certificate)?;
        Ok(OwnedDocuments::apart(texts.puzzle, texts.list, certificate))
    }
}

/// One source that has the three documents joined.
#[derive(Drop)]
pub struct JoinedSource<'a, S: Source> {
    pub input: &'a mut S,
}

impl<S: Source> Inputs for JoinedSource<'_, S> {
    type Texts = OwnedDocuments;

    ghost same = { λ old new. new.input.ghost_name ≡ old.input.ghost_name };

    ghost reads = { λ old new. joined_source (reading_of S.Source old.input.now new.input.now) };

    fn read_all(&mut self, alloc: Global) -> Result<OwnedDocuments, InputFault> {
        let input = read_text(alloc, self.input, Document::Input)?;
        Ok(OwnedDocuments::joined(input))
    }
}
