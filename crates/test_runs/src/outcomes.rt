//! What runs come to.

use byte_streams::Fake;
use command_runs::{RunFault, Status};
use std::alloc::AllocError;

// What a run comes to; where it wants memory, so does the test.
pub fn with_memory<T: Drop>(
    outcome: Result<T, RunFault>,
) -> Result<Result<T, RunFault>, AllocError> {
    match outcome {
        Err(RunFault::Memory) => Err(AllocError),
        other => Ok(other),
    }
}

// Whether a run came to what was wanted, and wrote this text.
pub fn is_as_wanted(
    outcome: Result<Status, RunFault>,
    wanted: Result<Status, RunFault>,
    writer: &Fake<'_>,
    text: &[u8],
) -> Result<bool, AllocError> {
    Ok(with_memory(outcome)? == wanted && writer.written() == text)
}
