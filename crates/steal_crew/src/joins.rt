//! Two closures at once.

ghost use Rattle.std.specs.Prelude.{IfOk, Ok};

use std::alloc::AllocError;
use std::thread;
use std::thread::Threads;

/// What both give, each on a thread of its own, or one after the other where no thread can be started. Where one
/// wants memory, so does the call, after both.
pub fn both<
    A: Send + Drop,
    B: Send + Drop,
    F: FnOnce() -> Result<A, AllocError> + Send,
    G: FnOnce() -> Result<B, AllocError> + Send,
    R: Threads,
>(rt: &R, left: F, right: G) -> Result<(A, B), AllocError>
    requires left { F.IsAlwaysCallable left }
    requires right { G.IsAlwaysCallable right }
    ensures left { IfOk result (λ r. F.post left (Ok r.0)) }
    ensures right { IfOk result (λ r. G.post right (Ok r.1)) }
{
    let (a, b) = thread::join(rt, left, right);
    Ok((a?, b?))
}
