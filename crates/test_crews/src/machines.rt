ghost use Rattle.std.specs.Prelude.{◌<◌, length};

use std::process::Abort;
use std::test::Fail;
use steal_crew::machine::{Event, State, StepFault};

// An event and what comes of it.
type Row = (Event, Result<(), StepFault>);

const EVERY_FAULT: &[Row] = &[
    (
        Event::Deal {
            queue: 0,
            number: 4,
        },
        Ok(()),
    ),
    (
        Event::Deal {
            queue: 1,
            number: 9,
        },
        Ok(()),
    ),
    (
        Event::Deal {
            queue: 1,
            number: 4,
        },
        Err(StepFault::Dealt),
    ),
    (Event::Draw { worker: 0 }, Ok(())),
    (Event::Draw { worker: 0 }, Ok(())),
    (Event::Draw { worker: 1 }, Err(StepFault::Full)),
    (
        Event::Take {
            worker: 0,
            queue: 0,
        },
        Ok(()),
    ),
    (
        Event::Take {
            worker: 0,
            queue: 1,
        },
        Err(StepFault::Busy),
    ),
    (Event::Post { worker: 0 }, Ok(())),
    (Event::Post { worker: 0 }, Err(StepFault::Posted)),
    (Event::Finish { worker: 0 }, Ok(())),
    (Event::Finish { worker: 0 }, Err(StepFault::Idle)),
    (
        Event::Take {
            worker: 0,
            queue: 1,
        },
        Ok(()),
    ),
    (Event::Stop { worker: 0 }, Err(StepFault::Busy)),
    (Event::Post { worker: 0 }, Ok(())),
    (Event::Finish { worker: 0 }, Ok(())),
    (Event::Stop { worker: 0 }, Ok(())),
    (Event::Stop { worker: 0 }, Err(StepFault::Stopped)),
    (Event::Draw { worker: 0 }, Err(StepFault::Stopped)),
    (
        Event::Take {
            worker: 1,
            queue: 1,
        },
        Err(StepFault::Empty),
    ),
    (Event::Stop { worker: 1 }, Ok(())),
];

const AT_ONE_QUEUE: &[Row] = &[
    (
        Event::Deal {
            queue: 0,
            number: 5,
        },
        Ok(()),
    ),
    (
        Event::Deal {
            queue: 0,
            number: 7,
        },
        Ok(()),
    ),
    (
        Event::Take {
            worker: 1,
            queue: 0,
        },
        Ok(()),
    ),
    (
        Event::Take {
            worker: 0,
            queue: 0,
        },
        Ok(()),
    ),
    (Event::Draw { worker: 0 }, Ok(())),
    (Event::Post { worker: 1 }, Ok(())),
    (Event::Finish { worker: 1 }, Ok(())),
];

// Takes the steps, each of which is to come to what its row says.
fn assert_steps<R: Abort>(rt: &R, state: &mut State, rows: &[Row]) -> Result<(), StepFault> {
    for (event, wanted) in rows {
        let outcome = state.step(event);
        if outcome == Err(StepFault::Memory) {
            return outcome;
        }
        assert!(rt; outcome == *wanted, "at {event:?}");
    }
    Ok(())
}

// Whether these numbers were dealt, posted and done, and that is the next to draw.
fn has_done(state: &State, dealt: &[u32], posted: &[u32], done: &[u32], next: u32) -> bool {
    (state.dealt(), state.posted(), state.done(), state.next()) == (dealt, posted, done, next)
}

#[test]
fn each_event_comes_again(rt: HostRuntime) -> Result<(), Fail> {
    let mut state = State::new(rt.alloc(), 2, 2, 2)?;
    assert_steps(&rt, &mut state, EVERY_FAULT)?;
    assert!(rt; has_done(&state, &[4, 9], &[4, 9], &[4, 9], 2));
    Ok(())
}

// Whether nothing waits, worker 0 drew 0, took 7 and is busy with it, and worker 1 took 5, and has not stopped.
fn are_at_work(state: &State) -> bool
    requires queue { 0 < length state.now.queues }
    requires workers { 1 < length state.now.workers }
{
    let is_first_busy = (state.taken(0), state.drawn(0), state.busy(0)) == (&[7], &[0], Some(7));
    let is_second_idle = (state.taken(1), state.busy(1), state.stopped(1)) == (&[5], None, false);
    is_first_busy && is_second_idle && state.waiting(0).is_empty()
}

// Whether the second then finds the queue empty, and 5 alone is done.
fn finds_none_left(state: &mut State) -> bool {
    let empty = state.step(&Event::Take {
        worker: 1,
        queue: 0,
    });
    empty == Err(StepFault::Empty) && are_at_work(state) && has_done(state, &[5, 7], &[5], &[5], 1)
}

#[test]
fn two_workers_at_one_queue(rt: HostRuntime) -> Result<(), Fail> {
    let mut state = State::new(rt.alloc(), 2, 1, 2)?;
    assert_steps(&rt, &mut state, AT_ONE_QUEUE)?;
    assert!(rt; finds_none_left(&mut state));
    Ok(())
}
