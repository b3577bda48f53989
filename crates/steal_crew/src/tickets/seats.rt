//! A number source and its seats.

ghost use Rattle.std.specs.Prelude.{◌≡◌, ◌<◌, [], cond};

use super::rules::{EachOnce, SeatView};
use atomic_table::{Seat, Table};
use std::alloc::Global;

/// A source of the numbers from 0 up to a limit. Each number is drawn once, by the thread that comes first.
#[derive(Drop)]
pub struct Tickets {
    // One word: the next number. At the limit and above, nothing is left.
    pub(crate) table: Table<(), SeatView, (u64, u64), EachOnce, Global>,
    pub(crate) limit: u32,
    ghost one_word: { table.shared.table_id.words ≡ 1 },
    ghost no_slot: { table.shared.table_id.slots ≡ 0 },
    ghost some_seat: { 0 < table.shared.key.1 },
    ghost told: { table.shared.key.0 ≡ limit },
}

/// What a thread needs to draw numbers; one thread at a time has it. Once it got no number, it never gets one again.
#[derive(Drop)]
pub struct TicketSeat {
    pub(crate) seat: Seat<(), SeatView>,
    pub(crate) out: bool,
    ghost one_part: { seat.me.0.parts ≡ 1 },
    ghost free: { seat.me.1 ≡ [] },
    ghost marked: { seat.me.0.marks ≡ cond out 1 0 },
}

/// All seats of a number source together. Nobody else has a seat, so nobody else can have drawn a number, and it is
/// known which were drawn. It takes no memory, and is there for contracts alone.
#[derive(Drop)]
pub struct AllDrawn {
    pub(crate) seat: Seat<(), SeatView>,
    ghost whole: { seat.me.0.parts ≡ seat.me.0.seats },
}
