//! Why the system refuses a file.

use std::io::{self, ErrorKind};

/// Why the system refuses a file, as far as it says. It is used for messages alone.
#[derive(Clone, Copy, PartialEq, Eq, Debug)]
pub enum Refusal {
    NoFile,
    NoFolder,
    /// There is a folder in its place.
    Folder,
    NotAllowed,
    /// No space is left.
    Full,
    Other,
}

impl Refusal {
    /// Why a file can't be opened. What isn't found is the file.
    pub fn of_opening(error: &io::Error) -> Refusal {
        match error.kind() {
            ErrorKind::NotFound => Refusal::NoFile,
            kind => Refusal::of_kind(kind),
        }
    }

    /// Why a file can't be made or written. What isn't found is its folder.
    pub fn of_making(error: &io::Error) -> Refusal {
        Refusal::of_kind(error.kind())
    }

    fn of_kind(kind: ErrorKind) -> Refusal {
        match kind {
            ErrorKind::NotFound | ErrorKind::NotADirectory => Refusal::NoFolder,
            ErrorKind::IsADirectory => Refusal::Folder,
            ErrorKind::PermissionDenied | ErrorKind::ReadOnlyFilesystem => Refusal::NotAllowed,
            ErrorKind::StorageFull | ErrorKind::QuotaExceeded => Refusal::Full,
            _ => Refusal::Other,
        }
    }

    /// The reason in words.
    pub fn words(self) -> &'static str {
        match self {
            Refusal::NoFile => "there is no such file",
            Refusal::NoFolder => "there is no such folder",
            Refusal::Folder => "it is a folder",
            Refusal::NotAllowed => "permission is denied",
            Refusal::Full => "no space is left",
            Refusal::Other => "the system refuses it",
        }
    }
}
