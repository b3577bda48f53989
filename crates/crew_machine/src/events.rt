//! Events of the crew machine.

/// What may happen in a crew.
#[derive(Clone, Copy, Debug, PartialEq, Eq)]
pub enum Event {
    /// A number, which was not dealt before, goes to the back of a queue.
    Deal { queue: u8, number: u32 },
    /// A worker that is not busy takes the front of a queue.
    Take { worker: u8, queue: u8 },
    /// A worker draws the next number, if there is one below the limit.
    Draw { worker: u8 },
    /// A busy worker posts its number, which was not posted before.
    Post { worker: u8 },
    /// A busy worker is done with its number.
    Finish { worker: u8 },
    /// A worker that is not busy stops.
    Stop { worker: u8 },
}
