//! Where bytes go.

ghost use Rattle.std.specs.Prelude.{◌≡◌, ◌≤◌, ◌<◌, ◌↔◌};
ghost use Rattle.std.specs.Prelude.{ℕ, Bool, List, Option, true, false, length, take, IfOk, OnOk, OnErr};
ghost use Rattle.std.specs.Io.KnownBytes.{Appends, Keeps};
ghost use Rattle.byte_streams.specs.Streams.{one_more};

use crate::refusals::Refusal;
use crate::sources::Failed;

/// Where bytes go.
pub trait Sink {
    // the bytes that went so far, where they are known
    ghost written: { Self → Option (List ℕ) };
    // whether the last write took nothing of bytes that were there
    ghost idle: { Self → Bool };
    // how many errors were answered, up to the greatest number of 64 bits
    ghost errors: { Self → ℕ };

    /// Takes bytes from the beginning of the slice, and returns how many. Where it fails, it took none.
    fn write(&mut self, bytes: &[u8]) -> Result<usize, Failed>
        ensures count { IfOk result (λ n. n ≤ length bytes.now) }
        ensures bytes { IfOk result (λ n. Appends (written self.old) (written self.new) (take n bytes.now)) }
        ensures idle { IfOk result (λ n. (idle self.new ≡ true) ↔ ((n ≡ 0) × (0 < length bytes.now))) }
        ensures ok { OnOk result (errors self.new ≡ errors self.old) }

        ensures kept { OnErr result (Keeps (written self.old) (written self.new)) }
        ensures not_idle { OnErr result (idle self.new ≡ false) }
        ensures err { OnErr result (errors self.new ≡ one_more (errors self.old)) };

    /// Why the last write failed, where that is known. It is used for messages alone.
    fn refusal(&self) -> Option<Refusal> {
        None
    }
}
