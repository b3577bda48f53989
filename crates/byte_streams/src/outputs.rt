//! Where results go: one sink or several, which are written to in order.

ghost use Rattle.std.specs.Prelude.{◌≡◌, OnErr, OnOk, refl};
ghost use Rattle.byte_streams.specs.Moves.{writing_of};
ghost use Rattle.byte_streams.specs.Targets.{Target, one_sink, three_sinks};

use crate::sinks::Sink;
use crate::sources::Failed;
use crate::texts::{MadeText, write_made};

/// Where results go.
pub trait Outputs {
    type Made: Drop;

    // that the references are the same
    ghost same: { Self → Self → Type 0 };
    // what it tells before a call and after it
    ghost writes: { Self → Self → Target Self.Made };

    /// Writes all results, in order. Where that fails, the beginning of them was written.
    fn write_all(&mut self, made: &Self::Made) -> Result<(), Failed>
        ensures same { same self.old self.new }
        ensures took { OnOk result ((writes self.old self.new).Took made.now) }
        ensures stopped { OnErr result ((writes self.old self.new).Stopped made.now) };

    ghost stays: { (o : Self) → same o o × (writes o o).Untouched };
}

/// A sink of one text.
#[derive(Drop)]
pub struct OneSink<'a, W: Sink> {
    pub sink: &'a mut W,
}

impl<W: Sink> Outputs for OneSink<'_, W> {
    type Made = MadeText;

    ghost same = { λ old new. new.sink.ghost_name ≡ old.sink.ghost_name };

    ghost writes = { λ old new. one_sink (writing_of W.Sink old.sink.now new.sink.now) };

    ghost stays = { λ o. (refl, refl) };

    fn write_all(&mut self, made: &MadeText) -> Result<(), Failed> {
        write_made(self.sink, made)
    }
}

/// A list, a certificate and a report.
#[derive(Drop)]
pub struct Products {
    pub list: MadeText,
    pub certificate: MadeText,
    pub report: MadeText,
}

/// Sinks of a list, a certificate and a report.
#[derive(Drop)]
pub struct ThreeSinks<'l, 'c, 'w, L: Sink, C: Sink, W: Sink> {
    pub list: &'l mut L,
    pub certificate: &'c mut C,
    pub report: &'w mut W,
}

impl<L: Sink, C: Sink, W: Sink> Outputs for ThreeSinks<'_, '_, '_, L, C, W> {
    type Made = Products;

    ghost same = { λ old new. (new.list.ghost_name ≡ old.list.ghost_name)
        × (new.certificate.ghost_name ≡ old.certificate.ghost_name) × (new.report.ghost_name ≡ old.report.ghost_name) };

    ghost writes = { λ old new. three_sinks (writing_of L.Sink old.list.now new.list.now)
        (writing_of C.Sink old.certificate.now new.certificate.now) (writing_of W.Sink old.report.now new.report.now) };

    ghost stays = { λ o. ((refl, refl, refl), (refl, refl, refl)) };

    fn write_all(&mut self, made: &Products) -> Result<(), Failed> {
        write_made(self.list, &made.list)?;
        write_made(self.certificate, &made.certificate)?;
        write_made(self.report, &made.report)
    }
}
