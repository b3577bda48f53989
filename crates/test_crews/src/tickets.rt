ghost use Rattle.std.specs.Prelude.{◌≡◌, ◌≤◌, ◌+◌};
ghost use Rattle.steal_crew.specs.Tickets.{source_of, seat_source};

use match_limits::{MOST_LEMMAS, MOST_WORKERS};
use std::alloc::{AllocError, Global};
use std::process::Abort;
use std::test::Fail;
use std::thread;
use std::thread::Threads;
use steal_crew::{TicketSeat, Tickets};

// Asserts that `draws` draws, by each seat in its turn, answer the numbers below the limit, and then none.
fn assert_turns<R: Abort>(
    rt: &R,
    alloc: Global,
    limit: u32,
    seats: u8,
    draws: u32,
) -> Result<(), AllocError>
    requires { (1 ≤ seats) × (seats ≤ MOST_WORKERS + 1) }
{
    let (tickets, mut seats) = Tickets::new(alloc, limit, seats)?;
    for turn in 0..draws {
        let at = turn as usize % seats.len();
        let wanted = (turn < limit).then_some(turn);
        assert!(rt; tickets.draw(&mut seats[at]) == wanted, "at {turn}");
    }
    assert!(rt; tickets.finish(seats) == draws.min(limit));
    Ok(())
}

// Two seats, and as many as there may be, each of which draws once.
#[test]
fn seats_take_turns(rt: HostRuntime) -> Result<(), Fail> {
    for (limit, seats, draws) in [(3, 2, 5), (MOST_LEMMAS, MOST_WORKERS + 1, 65)] {
        assert_turns(&rt, rt.alloc(), limit, seats, draws)?;
    }
    Ok(())
}

// The drawn numbers as bits, any above 127 as 127, and how many were drawn.
type Drawn = (u128, u32);

// Draws until none is left.
fn draw_all(tickets: &Tickets, mut seat: TicketSeat) -> (TicketSeat, Drawn)
    requires { seat_source seat ≡ source_of tickets.now }
    ensures { seat_source result.0 ≡ source_of tickets.now }
{
    let mut bits = 0u128;
    let mut count = 0u32;
    for _ in 0..u64::MAX {
        let Some(number) = tickets.draw(&mut seat) else {
            break;
        };
        bits |= 1u128 << number.min(127);
        count = count.wrapping_add(1);
    }
    (seat, (bits, count))
}

// Two draw all, each on a thread of its own.
fn draw_at_once<R: Threads>(
    rt: &R,
    tickets: &Tickets,
    a: TicketSeat,
    b: TicketSeat,
) -> ((TicketSeat, Drawn), (TicketSeat, Drawn))
    requires a { seat_source a ≡ source_of tickets.now }
    requires b { seat_source b ≡ source_of tickets.now }
    ensures a { seat_source result.0.0 ≡ source_of tickets.now }
    ensures b { seat_source result.1.0 ≡ source_of tickets.now }
{
    thread::join(
        rt,
        move ||
            requires { seat_source a ≡ source_of tickets.now }
            ensures { seat_source result.0 ≡ source_of tickets.entry.now }
        { draw_all(tickets, a) },
        move ||
            requires { seat_source b ≡ source_of tickets.now }
            ensures { seat_source result.0 ≡ source_of tickets.entry.now }
        { draw_all(tickets, b) },
    )
}

// Whether these are the numbers below 100, each once.
fn are_all(left: Drawn, right: Drawn) -> bool {
    (left.0 | right.0, left.1.wrapping_add(right.1)) == (u128::MAX >> 28, 100)
}

#[test]
fn two_threads_draw_each_number(rt: HostRuntime) -> Result<(), Fail> {
    let (tickets, mut seats) = Tickets::new(rt.alloc(), 100, 2)?;
    let b = seats.remove(1);
    let a = seats.remove(0);
    let (first, second) = draw_at_once(&rt, &tickets, a, b);
    let (a, left) = first;
    let (b, right) = second;
    let seats = Vec::from_array(rt.alloc(), [a, b])?;
    assert!(rt; (are_all(left, right), tickets.finish(seats)) == (true, 100));
    Ok(())
}
