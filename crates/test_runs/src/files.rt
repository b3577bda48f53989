//! Files in memory.

ghost use Rattle.std.specs.Prelude.{◌≡◌};
ghost use Rattle.test_runs.specs.HeldFiles.{held_by};

use byte_streams::{Fake, FileFault, Refusal};
use command_runs::FileSystem;
use std::alloc::{AllocError, Global};

/// The files of three documents, whose names begin with `p`, with `l` and with anything else. It tells what they hold.
#[derive(Clone, Copy)]
pub struct HeldFiles<'a> {
    pub alloc: Global,
    pub puzzle: &'a [u8],
    pub list: &'a [u8],
    pub certificate: &'a [u8],
}

impl<'a> HeldFiles<'a> {
    // What the file of this name holds.
    fn held(&self, name: &str) -> &'a [u8]
        ensures { result.now ≡ held_by self.now.puzzle.now self.now.list.now self.now.certificate.now name.now }
    {
        match name.as_bytes().first() {
            Some(b'p') => self.puzzle,
            Some(b'l') => self.list,
            _ => self.certificate,
        }
    }
}

impl<'a> FileSystem for HeldFiles<'a> {
    type Reader = Fake<'a>;

    type Writer = Fake<'a>;

    ghost opens = { λ f name reader. (reader.bytes.now ≡ held_by f.puzzle.now f.list.now f.certificate.now name)
        × (reader.taken ≡ 0) };

    ghost refuses = { λ _ _. ⊥ };

    ghost makes = { λ _ _ _. Unit {0} };

    ghost does = { λ _ _ _. Unit {0} };

    ghost synced = { λ _. Unit {0} };

    ghost is_put = { λ _ _ _. Unit {0} };

    ghost leads = { λ _ _ _. Unit {0} };

    fn open(&self, name: &str) -> Result<Fake<'a>, Refusal> {
        Ok(Fake::new(self.alloc, self.held(name), 7, usize::MAX))
    }

    fn make(&mut self, alloc: Global, _name: &str) -> Result<Fake<'a>, FileFault> {
        Ok(Fake::new(alloc, b"", 5, usize::MAX))
    }

    fn sync(&self, _file: &Fake<'a>) -> Result<(), Refusal> {
        Ok(())
    }

    fn put(&mut self, file: Fake<'a>, _name: &str) -> Result<Fake<'a>, Refusal> {
        Ok(file)
    }

    fn remove(&mut self, _file: Fake<'a>, _name: &str) {}

    fn leads_to(&self, _name: &str, _file: &Fake<'a>) -> bool {
        true
    }

    fn refusal_at(&self, _alloc: Global, _name: &str) -> Option<Refusal> {
        None
    }

    fn may_lead_to_one(
        &self,
        _alloc: Global,
        _first: &str,
        _second: &str,
    ) -> Result<bool, AllocError> {
        Ok(false)
    }
}
