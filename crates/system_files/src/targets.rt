//! What the bytes of a file go to.

ghost use Rattle.system_files.specs.Targets.{contents_in};

use std::io::{self, Write};

// A file that was opened, or a standard stream that has the file open.
#[derive(Drop)]
pub(crate) enum Target<F, O, E> {
    File(F),
    Output(O),
    Errors(E),
}

impl<F, O, E> Target<F, O, E> {
    // The file that was opened, if it is one.
    pub(crate) fn file(&self) -> Option<&F> {
        match self {
            Target::File(file) => Some(file),
            _ => None,
        }
    }
}

impl<F: Write, O: Write, E: Write> Write for Target<F, O, E> {
    ghost contents = { contents_in F.contents O.contents E.contents };

    fn write(&mut self, bytes: &[u8]) -> io::Result<usize> {
        match self {
            Target::File(file) => file.write(bytes),
            Target::Output(output) => output.write(bytes),
            Target::Errors(errors) => errors.write(bytes),
        }
    }

    fn flush(&mut self) -> io::Result<()> {
        match self {
            Target::File(file) => file.flush(),
            Target::Output(output) => output.flush(),
            Target::Errors(errors) => errors.flush(),
        }
    }
}
