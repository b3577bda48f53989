//! Where a file of the system is, and where it is made.

use byte_streams::{FileFault, Refusal};
use std::alloc::{AllocError, Global};
use std::fs::Metadata;
use std::io::{self, ErrorKind};
use std::os::unix::fs::MetadataExt;
use std::path::{Path, PathBuf};
use std::random::RandomSource;
use std::rt::Files;

// How many links are followed from one to the next, as Linux does.
const MOST_LINKS: u32 = 40;

// Where Linux has a link for each file that the process has open.
const DESCRIPTORS: &str = "/proc/self/fd";

const STREAMS: [(Stream, &str); 3] = [
    (Stream::Output, "/proc/self/fd/1"),
    (Stream::Errors, "/proc/self/fd/2"),
    (Stream::Input, "/proc/self/fd/0"),
];

// The path of a file, and of what is made beside it until it is put there.
#[derive(Drop)]
pub(crate) struct Place {
    path: PathBuf,
    part: PathBuf,
}

impl Place {
    // The place of this path, with a name of what is made beside it that no other run has.
    pub(crate) fn new<R: RandomSource>(
        runtime: &R,
        alloc: Global,
        path: PathBuf,
    ) -> Result<Place, FileFault> {
        if path.as_str().ends_with('/') || path.file_name().is_none() {
            return Err(FileFault::Refused(Refusal::Folder));
        }
        let mut bytes = [0; 8];
        runtime.fill_bytes(&mut bytes)?;
        let number = u64::from_le_bytes(bytes);
        let name = format!(in alloc; "edgematch-{number:016x}.part")?;
        let part = path.with_file_name(alloc, name.as_str())?;
        Ok(Place { path, part })
    }

    pub(crate) fn path(&self) -> &str {
        self.path.as_str()
    }

    pub(crate) fn part(&self) -> &str {
        self.part.as_str()
    }
}

// What a name leads to where each link at its end is followed, be it there or not.
pub(crate) fn place_of<R: Files>(runtime: &R, alloc: Global, name: &str) -> io::Result<PathBuf> {
    let mut place = PathBuf::from_str(alloc, name)?;
    for _ in 0..MOST_LINKS {
        match runtime.symlink_metadata(place.as_str()) {
            Ok(found) if found.is_symlink() => {}
            Ok(_) => return Ok(place),
            Err(error) if error.kind() == ErrorKind::NotFound => return Ok(place),
            Err(error) => return Err(error),
        }
        place = target_of(runtime, alloc, place)?;
    }
    Err(io::Error::from(ErrorKind::InvalidInput))
}

// What the link at this place leads to.
fn target_of<R: Files>(runtime: &R, alloc: Global, link: PathBuf) -> io::Result<PathBuf> {
    let target = runtime.read_link(alloc, link.as_str())?;
    let mut place = link;
    place.pop();
    place.push(target.as_str())?;
    Ok(place)
}

// Whether a name leads to a file that is open already: over a link of /proc, as /dev/fd/3 and /dev/stdout do, or to
// what stands in /proc itself.
pub(crate) fn leads_over_proc<R: Files>(
    runtime: &R,
    alloc: Global,
    name: &str,
) -> io::Result<bool> {
    let Ok(descriptors) = runtime.metadata(DESCRIPTORS) else {
        return Ok(false);
    };
    let mut place = PathBuf::from_str(alloc, name)?;
    for _ in 0..MOST_LINKS {
        let found = runtime.symlink_metadata(place.as_str())?;
        if found.dev() == descriptors.dev() {
            return Ok(true);
        }
        if !found.is_symlink() {
            return Ok(false);
        }
        place = target_of(runtime, alloc, place)?;
    }
    Err(io::Error::from(ErrorKind::InvalidInput))
}

// A standard stream.
#[derive(Clone, Copy)]
pub(crate) enum Stream {
    Input,
    Output,
    Errors,
}

// Which standard stream has this file open, if one has. Standard output is the first that is asked.
pub(crate) fn stream_of<R: Files>(runtime: &R, found: &Metadata) -> Option<Stream> {
    for (stream, path) in STREAMS.iter() {
        match runtime.metadata(path) {
            Ok(open) if are_one(&open, found) => return Some(*stream),
            _ => {}
        }
    }
    None
}

// Whether this is told of one file: by its device, and its number there.
pub(crate) fn are_one(first: &Metadata, second: &Metadata) -> bool {
    first.dev() == second.dev() && first.ino() == second.ino()
}

// Whether two names that lead to no file lead to one place, or it can't be told that they don't.
pub(crate) fn may_be_one<R: Files>(
    runtime: &R,
    alloc: Global,
    first: &str,
    second: &str,
) -> Result<bool, AllocError> {
    match are_one_place(runtime, alloc, first, second) {
        Ok(are) => Ok(are),
        Err(error) if error.kind() == ErrorKind::OutOfMemory => Err(AllocError),
        Err(_) => Ok(true),
    }
}

fn are_one_place<R: Files>(
    runtime: &R,
    alloc: Global,
    first: &str,
    second: &str,
) -> io::Result<bool> {
    let first = place_of(runtime, alloc, first)?;
    let second = place_of(runtime, alloc, second)?;
    if first.file_name() != second.file_name() {
        return Ok(false);
    }
    let folder = folder_of(runtime, first.as_path())?;
    let other = folder_of(runtime, second.as_path())?;
    Ok(are_one(&folder, &other))
}

// What is told of the folder that a path is in.
pub(crate) fn folder_of<R: Files>(runtime: &R, path: Path<'_>) -> io::Result<Metadata> {
    match path.parent() {
        Some(folder) if !folder.as_str().is_empty() => runtime.metadata(folder.as_str()),
        _ => runtime.metadata("."),
    }
}
