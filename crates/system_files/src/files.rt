//! The files of the system.

ghost use Rattle.std.specs.Prelude.{◌≡◌, false, IfOk, IfSome};
ghost use Rattle.system_files.specs.Targets.{contents_in};

use crate::places::{
    Place, Stream, are_one, folder_of, leads_over_proc, may_be_one, place_of, stream_of,
};
use crate::streams::{Input, Output};
use crate::targets::Target;
use byte_streams::{Failed, FileFault, FileSystem, Refusal, Sink};
use std::alloc::{AllocError, Global};
use std::fs::{self, Metadata, OpenFile, OpenOptions, Permissions};
use std::io::{ErrorKind, Write};
use std::os::unix::fs::{MetadataExt, OpenOptionsExt, PermissionsExt};
use std::random::RandomSource;
use std::rt::Files;

// The mode of a file that only its owner reads and writes, and the bits of a mode that are kept.
const PRIVATE: u32 = 0o600;

const MODE_BITS: u32 = 0o7777;

// How often a name is looked at again, where what it leads to changes between two looks.
const MOST_LOOKS: u32 = 100;

/// The files of the system. Contracts say nothing of what they hold, or of what is done to them.
///
/// - A new file is made in the folder of its name, under another name with 64 random bits, and renamed when it is put
///   under its name. So at any time there is a whole file under the name, the old one or the new one.
/// - Links are followed. The new file has the mode of the old one, and its group and owner as far as that is allowed.
/// - No file is made in place of a folder.
/// - Where a signal or a loss of power comes between the renames of two files, the new file is under the first name,
///   and the old one under the second.
/// - What is no plain file, such as a device or a pipe, is written directly. So is a plain file that is open already:
///   what standard output or standard error has open is written through that stream; to what standard input has open,
///   or a link of /proc leads to, is appended.
#[derive(Drop)]
pub struct System<'a, R: Files + RandomSource, O: Write + Copy, E: Write + Copy> {
    runtime: &'a R,
    output: O,
    errors: E,
}

impl<'a, R: Files + RandomSource, O: Write + Copy, E: Write + Copy> System<'a, R, O, E> {
    /// The files that this runtime reaches, in a process with this standard output and standard error.
    pub fn new(runtime: &'a R, output: O, errors: E) -> System<'a, R, O, E> {
        System {
            runtime,
            output,
            errors,
        }
    }
}

/// A file of the system that is written to.
#[derive(Drop)]
pub struct SystemFile<F: Write + Drop, O: Write + Drop, E: Write + Drop> {
    output: Output<Target<F, O, E>>,
    // none where it is written directly
    place: Option<Place>,
}

impl<F: Write + Drop, O: Write + Drop, E: Write + Drop> SystemFile<F, O, E> {
    // This file, with nothing written to it.
    fn new(target: Target<F, O, E>, place: Option<Place>) -> SystemFile<F, O, E>
        ensures { (result.output.idle ≡ false) × (result.output.errors ≡ 0) }
    {
        SystemFile {
            output: Output::new(target),
            place,
        }
    }
}

impl<F: Write + Drop, O: Write + Drop, E: Write + Drop> Sink for SystemFile<F, O, E> {
    ghost written = { λ s. contents_in F.contents O.contents E.contents s.output.writer };

    ghost idle = { λ s. s.output.idle };

    ghost errors = { λ s. s.output.errors };

    fn write(&mut self, bytes: &[u8]) -> Result<usize, Failed> {
        self.output.write(bytes)
    }

    fn refusal(&self) -> Option<Refusal> {
        self.output.refusal()
    }
}

impl<R: Files + RandomSource, O: Write + Copy, E: Write + Copy> System<'_, R, O, E> {
    // A file that is to be put under the name, by what a look says that the name leads to. None where a further look
    // says otherwise, as another run puts its file there.
    fn look_and_make(
        &self,
        alloc: Global,
        name: &str,
    ) -> Result<Option<SystemFile<R::File, O, E>>, FileFault>
        ensures { IfOk result (λ made. IfSome made (λ file. (file.output.idle ≡ false) × (file.output.errors ≡ 0))) }
    {
        match self.runtime.metadata(name) {
            Ok(found) if found.is_dir() => Err(FileFault::Refused(Refusal::Folder)),
            Ok(found) if found.is_file() => self.make_over(alloc, name, &found),
            Ok(_) => Ok(Some(open_directly(self.runtime, name)?)),
            Err(error) if error.kind() == ErrorKind::NotFound => {
                Ok(Some(make_first(self.runtime, alloc, name)?))
            }
            Err(error) => Err(FileFault::from(error)),
        }
    }

    // Where what goes to a plain file that was found under this name is written: through the standard stream that has
    // it open, behind what it holds where it is open otherwise, and else beside it.
    fn make_over(
        &self,
        alloc: Global,
        name: &str,
        found: &Metadata,
    ) -> Result<Option<SystemFile<R::File, O, E>>, FileFault>
        ensures { IfOk result (λ made. IfSome made (λ file. (file.output.idle ≡ false) × (file.output.errors ≡ 0))) }
    {
        match stream_of(self.runtime, found) {
            Some(Stream::Output) => Ok(Some(SystemFile::new(Target::Output(self.output), None))),
            Some(Stream::Errors) => Ok(Some(SystemFile::new(Target::Errors(self.errors), None))),
            Some(Stream::Input) => Ok(Some(open_behind(self.runtime, name)?)),
            None if leads_over_proc(self.runtime, alloc, name)? => {
                Ok(Some(open_behind(self.runtime, name)?))
            }
            None => make_beside(self.runtime, alloc, name, found),
        }
    }
}

impl<R: Files + RandomSource, O: Write + Copy, E: Write + Copy> FileSystem for System<'_, R, O, E> {
    type Reader = Input<R::File>;

    type Writer = SystemFile<R::File, O, E>;

    ghost opens = { λ _ _ _. Unit {0} };

    ghost refuses = { λ _ _. Unit {0} };

    ghost makes = { λ _ _ _. Unit {0} };

    ghost does = { λ _ _ _. Unit {0} };

    ghost synced = { λ _. Unit {0} };

    ghost is_put = { λ _ _ _. Unit {0} };

    ghost leads = { λ _ _ _. Unit {0} };

    fn open(&self, name: &str) -> Result<Input<R::File>, Refusal> {
        match self.runtime.metadata(name) {
            Ok(found) if found.is_dir() => return Err(Refusal::Folder),
            _ => {}
        }
        match fs::open(self.runtime, name) {
            Ok(file) => Ok(Input::new(file)),
            Err(error) => Err(Refusal::of_opening(&error)),
        }
    }

    fn make(&mut self, alloc: Global, name: &str) -> Result<SystemFile<R::File, O, E>, FileFault> {
        for _ in 0..MOST_LOOKS {
            if let Some(file) = self.look_and_make(alloc, name)? {
                return Ok(file);
            }
        }
        Err(FileFault::Refused(Refusal::Other))
    }

    fn sync(&self, file: &SystemFile<R::File, O, E>) -> Result<(), Refusal> {
        match (&file.place, file.output.writer().file()) {
            (Some(_), Some(made)) => match made.sync_all() {
                Ok(()) => Ok(()),
                Err(error) => Err(Refusal::of_making(&error)),
            },
            _ => Ok(()),
        }
    }

    // The file stays open, so that no other gets its number until it is looked at.
    fn put(
        &mut self,
        file: SystemFile<R::File, O, E>,
        _name: &str,
    ) -> Result<SystemFile<R::File, O, E>, Refusal> {
        let Some(place) = &file.place else {
            return Ok(file);
        };
        match self.runtime.rename(place.part(), place.path()) {
            Ok(()) => Ok(file),
            Err(error) => {
                let _ = self.runtime.remove_file(place.part());
                Err(Refusal::of_making(&error))
            }
        }
    }

    fn remove(&mut self, file: SystemFile<R::File, O, E>, _name: &str) {
        if let Some(place) = &file.place {
            let _ = self.runtime.remove_file(place.part());
        }
    }

    fn leads_to(&self, name: &str, file: &SystemFile<R::File, O, E>) -> bool {
        match (&file.place, file.output.writer().file()) {
            (Some(_), Some(made)) => match (self.runtime.metadata(name), made.metadata()) {
                (Ok(found), Ok(made)) => are_one(&found, &made),
                _ => false,
            },
            _ => true,
        }
    }

    fn refusal_at(&self, alloc: Global, name: &str) -> Option<Refusal> {
        match place_of(self.runtime, alloc, name) {
            Ok(place) => match folder_of(self.runtime, place.as_path()) {
                Ok(_) => None,
                Err(error) => Some(Refusal::of_making(&error)),
            },
            Err(error) => Some(Refusal::of_making(&error)),
        }
    }

    // Files are one where device and number are, hard links too; what is not there is one where the folder is and the
    // name in it.
    fn may_lead_to_one(
        &self,
        alloc: Global,
        first: &str,
        second: &str,
    ) -> Result<bool, AllocError> {
        match (self.runtime.metadata(first), self.runtime.metadata(second)) {
            (Ok(first), Ok(second)) => Ok(are_one(&first, &second)),
            (Ok(_), Err(error)) => Ok(error.kind() != ErrorKind::NotFound),
            (Err(error), Ok(_)) => Ok(error.kind() != ErrorKind::NotFound),
            (Err(_), Err(_)) => may_be_one(self.runtime, alloc, first, second),
        }
    }
}

// What is no plain file, opened to be written as it is.
fn open_directly<R: Files, O: Write + Drop, E: Write + Drop>(
    runtime: &R,
    name: &str,
) -> Result<SystemFile<R::File, O, E>, FileFault>
    ensures { IfOk result (λ file. (file.output.idle ≡ false) × (file.output.errors ≡ 0)) }
{
    let file = OpenOptions::new().write(true).open(runtime, name)?;
    Ok(SystemFile::new(Target::File(file), None))
}

// A plain file, opened to be written behind what it holds.
fn open_behind<R: Files, O: Write + Drop, E: Write + Drop>(
    runtime: &R,
    name: &str,
) -> Result<SystemFile<R::File, O, E>, FileFault>
    ensures { IfOk result (λ file. (file.output.idle ≡ false) × (file.output.errors ≡ 0)) }
{
    let file = OpenOptions::new().append(true).open(runtime, name)?;
    Ok(SystemFile::new(Target::File(file), None))
}

// A file beside a name under which none stands.
fn make_first<R: Files + RandomSource, O: Write + Drop, E: Write + Drop>(
    runtime: &R,
    alloc: Global,
    name: &str,
) -> Result<SystemFile<R::File, O, E>, FileFault>
    ensures { IfOk result (λ file. (file.output.idle ≡ false) × (file.output.errors ≡ 0)) }
{
    let place = Place::new(runtime, alloc, place_of(runtime, alloc, name)?)?;
    let file = OpenOptions::new()
        .write(true)
        .create_new(true)
        .open(runtime, place.part())?;
    Ok(SystemFile::new(Target::File(file), Some(place)))
}

// A file beside a plain one that was found under the name. None where another is found now.
fn make_beside<R: Files + RandomSource, O: Write + Drop, E: Write + Drop>(
    runtime: &R,
    alloc: Global,
    name: &str,
    found: &Metadata,
) -> Result<Option<SystemFile<R::File, O, E>>, FileFault>
    ensures { IfOk result (λ made. IfSome made (λ file. (file.output.idle ≡ false) × (file.output.errors ≡ 0))) }
{
    let place = Place::new(runtime, alloc, place_of(runtime, alloc, name)?)?;
    match runtime.metadata(place.path()) {
        Ok(now) if are_one(&now, found) => {}
        Ok(_) => return Ok(None),
        Err(error) if error.kind() == ErrorKind::NotFound => return Ok(None),
        Err(error) => return Err(FileFault::from(error)),
    }
    let file = make_alike(runtime, place.part(), found)?;
    Ok(Some(SystemFile::new(Target::File(file), Some(place))))
}

// A file with the mode of the one that was found, and with its group and its owner as far as each is allowed. Nobody
// else can open it before.
fn make_alike<R: Files>(runtime: &R, part: &str, found: &Metadata) -> Result<R::File, FileFault> {
    let file = OpenOptions::new()
        .write(true)
        .create_new(true)
        .mode(PRIVATE)
        .open(runtime, part)?;
    let _ = runtime.chown(part, None, Some(found.gid()));
    let _ = runtime.chown(part, Some(found.uid()), None);
    if let Err(error) = file.set_permissions(Permissions::from_mode(found.mode() & MODE_BITS)) {
        let _ = runtime.remove_file(part);
        return Err(FileFault::from(error));
    }
    Ok(file)
}
