//! The calls of a number source.

ghost use Rattle.std.specs.Prelude.{◌≡◌, ◌<◌, ◌≤◌, ◌+◌, ◌++◌, [], ◌∷◌, ℕ, true, false, All, Any};
ghost use Rattle.std.specs.Prelude.{IfSome, IfNone, IfOk, vec_len};
ghost use Rattle.crew_machine.specs.Counts.{total, times, once_below};
ghost use Rattle.steal_crew.specs.Tickets.{source_of, limit_of, seats_of, seat_source, drawn, is_out, IsFresh};
ghost use Rattle.steal_crew.specs.Tickets.{source_drawn, all_drawn};

use super::rules::{Draws, Looks, Parts};
use super::seats::{AllDrawn, TicketSeat, Tickets};
use atomic_table::Table;
use match_limits::MOST_WORKERS;
use std::alloc::{AllocError, Global};

impl Tickets {
    /// A source of the numbers below `limit`, which may be 0, and its 1 to 65 seats: one for each worker that there may
    /// be, and one more. All memory is taken here. The only error is want of memory.
    pub fn new(
        alloc: Global,
        limit: u32,
        seats: u8,
    ) -> Result<(Tickets, Vec<TicketSeat>), AllocError>
        requires { (1 ≤ seats) × (seats ≤ MOST_WORKERS + 1) }
        ensures limit { IfOk result (λ r. limit_of r.0 ≡ limit) }
        ensures seats { IfOk result (λ r. (seats_of r.0 ≡ seats) × (vec_len r.1 ≡ seats)) }
        ensures fresh { IfOk result (λ r. All (IsFresh (source_of r.0)) r.1.items) }
    {
        let mut list = Vec::with_capacity(alloc, usize::from(seats))?;
        let key = (u64::from(limit), u64::from(seats));
        let (table, mut first) = Table::of_words(alloc, &[0], &key)?;
        for _ in 1..seats {
            let seat = table.shared.split_seat::<Parts>(&mut first);
            list.push_reserved(TicketSeat { seat, out: false });
        }
        list.push_reserved(TicketSeat {
            seat: first,
            out: false,
        });
        Ok((Tickets { table, limit }, list))
    }

    /// A source of the numbers below `limit`, which is at least 1, and its 1 to 65 seats. One of them is returned
    /// apart, and has drawn the number 0. All memory is taken here. The only error is want of memory.
    pub fn begun(
        alloc: Global,
        limit: u32,
        seats: u8,
    ) -> Result<(Tickets, TicketSeat, Vec<TicketSeat>), AllocError>
        requires seats { (1 ≤ seats) × (seats ≤ MOST_WORKERS + 1) }
        requires limit { 0 < limit }
        ensures limit { IfOk result (λ r. limit_of r.0 ≡ limit) }
        ensures seats { IfOk result (λ r. (seats_of r.0 ≡ seats) × (vec_len r.2 + 1 ≡ seats)) }
        ensures first { IfOk result (λ r.
            (seat_source r.1 ≡ source_of r.0) × (drawn r.1 ≡ 0 ∷ []) × (is_out r.1 ≡ false)) }
        ensures fresh { IfOk result (λ r. All (IsFresh (source_of r.0)) r.2.items) }
    {
        let mut list = Vec::with_capacity(alloc, usize::from(seats))?;
        let key = (u64::from(limit), u64::from(seats));
        let (table, mut first) = Table::of_words(alloc, &[0], &key)?;
        table.shared.fetch_add::<Draws>(&mut first, 0, 1);
        for _ in 1..seats {
            let seat = table.shared.split_seat::<Parts>(&mut first);
            list.push_reserved(TicketSeat { seat, out: false });
        }
        let seat = TicketSeat {
            seat: first,
            out: false,
        };
        Ok((Tickets { table, limit }, seat, list))
    }

    /// Draws the least number that nobody drew yet. `None` where each number below the limit was drawn; from then on
    /// this seat always answers `None`, and no longer looks at the source. A draw takes no memory, and waits for
    /// nobody.
    pub fn draw(&self, seat: &mut TicketSeat) -> Option<u32>
        requires { seat_source seat.old ≡ source_of self.now }
        ensures same { seat_source seat.new ≡ seat_source seat.old }
        ensures number { IfSome result (λ k. (k < limit_of self.now)
            × All (λ x. x < k) (drawn seat.old)
            × (drawn seat.new ≡ drawn seat.old ++ k ∷ [])
            × (is_out seat.new ≡ is_out seat.old)) }
        ensures out { IfNone result ((drawn seat.new ≡ drawn seat.old) × (is_out seat.new ≡ true)) }
    {
        if seat.out {
            return None;
        }
        let found = self.table.shared.fetch_add::<Draws>(&mut seat.seat, 0, 1);
        if found < u64::from(self.limit) {
            Some(found as u32)
        } else {
            seat.out = true;
            None
        }
    }

    /// All seats together, once they came back, in any order, and how many numbers were drawn: these are the numbers
    /// below that count. Where a seat got no number, all were drawn.
    pub fn join_all(self, mut seats: Vec<TicketSeat>) -> (u32, AllDrawn)
        requires ours { All (λ s. seat_source s ≡ source_of self) seats.items }
        requires all { vec_len seats ≡ seats_of self }
        ensures source { source_drawn result.1 ≡ source_of self }
        ensures limit { result.0 ≤ limit_of self }
        ensures numbers { (x : ℕ) → total (λ s. times x (drawn s)) seats.items ≡ once_below x result.0 }
        ensures drawn { (x : ℕ) → times x (all_drawn result.1) ≡ once_below x result.0 }
        ensures out { Any (λ s. is_out s ≡ true) seats.items → result.0 ≡ limit_of self }
    {
        let Tickets { table, limit } = self;
        let TicketSeat { mut seat, out: _ } = seats.remove(0);
        while !seats.is_empty() {
            let TicketSeat {
                seat: other,
                out: _,
            } = seats.remove(0);
            table.shared.join_seat::<Parts>(&mut seat, other);
        }
        let word = table.shared.load::<Looks>(&mut seat, 0);
        let count = word.min(u64::from(limit)) as u32;
        (count, AllDrawn { seat })
    }

    /// How many numbers were drawn, once all seats came back, in any order: these are the numbers below that count.
    /// Where a seat got no number, all were drawn.
    pub fn finish(self, seats: Vec<TicketSeat>) -> u32
        requires ours { All (λ s. seat_source s ≡ source_of self) seats.items }
        requires all { vec_len seats ≡ seats_of self }
        ensures limit { result ≤ limit_of self }
        ensures numbers { (x : ℕ) → total (λ s. times x (drawn s)) seats.items ≡ once_below x result }
        ensures out { Any (λ s. is_out s ≡ true) seats.items → result ≡ limit_of self }
    {
        let (count, _drawn) = self.join_all(seats);
        count
    }
}
