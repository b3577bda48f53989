//! Files by their names.

ghost use Rattle.std.specs.Prelude.{◌≡◌, ℕ, List, IfOk, IsTrue, OnErr, OnOk};
ghost use Rattle.byte_streams.specs.Deeds.{Deed, IsFileOf, did_make, did_put, did_remove};
ghost use Rattle.byte_streams.specs.Moves.{IsUnread, IsUnwritten};

use crate::faults::FileFault;
use crate::refusals::Refusal;
use crate::sinks::Sink;
use crate::sources::Source;
use std::alloc::{AllocError, Global};

/// Where files are opened by their names, and made beside them.
///
/// Contracts say what is done to files by what a call did between two states. Opening a file does nothing to it.
pub trait FileSystem {
    type Reader: Source + Drop;

    type Writer: Sink + Drop;

    // readers as the file of a name is just opened
    ghost opens: { Self → List ℕ → Self.Reader → Type 0 };
    // that the file of a name can't be opened
    ghost refuses: { Self → List ℕ → Type 0 };
    // writers as a file is just made beside a name
    ghost makes: { Self → List ℕ → Self.Writer → Type 0 };
    // that a call did this, and nothing else
    ghost does: { Self → Deed → Self → Type 0 };
    // files of which all that they took lies on the disk
    ghost synced: { Self.Writer → Type 0 };
    // that this file was put under the name, with the text
    ghost is_put: { Self.Writer → List ℕ → List ℕ → Type 0 };
    // that the name leads to the file that was put under it, with the text
    ghost leads: { Self → List ℕ → List ℕ → Type 0 };

    /// Opens the file of this name. Nothing is read yet.
    fn open(&self, name: &str) -> Result<Self::Reader, Refusal>
        ensures opened { IfOk result (opens self.now name.now) }
        ensures unread { IfOk result (IsUnread Self.Reader.Source) }
        ensures refused { OnErr result (refuses self.now name.now) };

    /// Makes an empty file beside this name, which can be put under the name later. What is under the name now stays
    /// there.
    fn make(&mut self, alloc: Global, name: &str) -> Result<Self::Writer, FileFault>
        ensures made { IfOk result (makes self.old name.now) }
        ensures unwritten { IfOk result (IsUnwritten Self.Writer.Sink) }
        ensures does { OnOk result (does self.old (did_make name.now) self.new) }
        ensures err { OnErr result (self.new ≡ self.old) };

    /// Makes sure that all that was written to the file is on the disk.
    fn sync(&self, file: &Self::Writer) -> Result<(), Refusal>
        ensures { OnOk result (synced file.now) };

    /// Puts the file that was made beside this name under the name, with all that was written to it, in place of what
    /// is there, and returns it. Where that fails, the file is removed.
    fn put(&mut self, file: Self::Writer, name: &str) -> Result<Self::Writer, Refusal>
        requires whole { (text : List ℕ) × IsFileOf makes Self.Writer.written name.now file text }
        requires synced { synced file }
        ensures does { OnOk result ((text : List ℕ) → IsFileOf makes Self.Writer.written name.now file text
            → does self.old (did_put name.now text) self.new) }
        ensures put { IfOk result (λ put. (text : List ℕ) → IsFileOf makes Self.Writer.written name.now file text
            → is_put put name.now text) }
        ensures err { OnErr result (does self.old (did_remove name.now) self.new) };

    /// Removes the file that was made beside this name.
    fn remove(&mut self, file: Self::Writer, name: &str)
        ensures { does self.old (did_remove name.now) self.new };

    /// Whether the name leads to this file, which was put under it.
    fn leads_to(&self, name: &str, file: &Self::Writer) -> bool
        ensures { IsTrue result → (text : List ℕ) → is_put file.now name.now text → leads self.now name.now text };

    /// Why no file can be made under this name, as far as the system says before it is tried.
    fn refusal_at(&self, alloc: Global, name: &str) -> Option<Refusal>;

    /// Whether both names lead to one file, which needn't be there yet; also where it isn't known that they don't.
    fn may_lead_to_one(&self, alloc: Global, first: &str, second: &str) -> Result<bool, AllocError>;
}
