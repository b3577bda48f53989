//! What one worker does.

ghost use Rattle.std.specs.Prelude.{◌≡◌, ◌<◌, ◌+◌, ◌++◌, ◌∷◌, [], ℕ, IfOk, IfSome};
ghost use Rattle.std.specs.Prelude.{MatchOption, option_to_list, vec_len};
ghost use Rattle.crossbeam_deque.specs.Handles.{view};
ghost use Rattle.crew_machine.specs.Counts.{times};
ghost use Rattle.steal_crew.specs.Queues.{IsPlace, Places, IsStation, IsShare, taken_by};

use crate::queues::{Handle, Takes, View};
use crate::works::{Share, Station, Work};
use crossbeam_deque::{Pass, Steal};
use std::alloc::{AllocError, Global};
use std::thread;

// The number at the front of a queue. `count` is for the clauses: without it each would speak of any bound of the place.
fn steal_from(handle: &Handle, place: &mut Pass<u32, View>, count: u32) -> Option<u32>
    requires { IsPlace count handle.now place.old }
    ensures same { IsPlace count handle.now place.new }
    ensures number { IfSome result (λ n. n < count) }
    ensures taken { MatchOption result
        ((view place.new).taken ≡ (view place.old).taken)
        (λ n. (view place.new).taken ≡ (view place.old).taken ++ n ∷ []) }
{
    for _ in 0..u64::MAX {
        match handle.steal_as::<Takes>(place) {
            Steal::Success(number) => return Some(number),
            Steal::Empty => return None,
            Steal::Retry => thread::yield_now(),
        }
    }
    None
}

// From the own queue, and then from the others in turn.
fn take_any(
    handles: &Vec<Handle>,
    places: &mut Vec<Pass<u32, View>>,
    own: usize,
    count: u32,
) -> Option<u32>
    requires places { Places (vec_len handles.now) count handles.now.items places.old.items }
    requires own { own < vec_len handles.now }
    ensures places { Places (vec_len handles.now) count handles.now.items places.new.items }
    ensures number { IfSome result (λ n. n < count) }
    ensures taken { (x : ℕ) → taken_by x places.new.items
        ≡ taken_by x places.old.items + times x (option_to_list result) }
{
    let queues = handles.len();
    for step in 0..queues {
        let at = if step < queues - own {
            own + step
        } else {
            step - (queues - own)
        };
        if let Some(number) = steal_from(&handles[at], &mut places[at], count) {
            return Some(number);
        }
    }
    None
}

// Until a look at each queue finds none.
pub fn work_at<W: Work>(
    work: &W,
    alloc: Global,
    handles: &Vec<Handle>,
    station: Station,
    count: u32,
) -> Result<Share<W::R>, AllocError>
    requires station { IsStation (vec_len handles.now) count handles.now.items station }
    requires accepts { (n : ℕ) → n < count → W.accepts work.now n }
    ensures { IfOk result (IsShare (vec_len handles.now) count handles.now.items (W.gives work.now)) }
{
    let Station { own, mut places } = station;
    let mut done = Vec::new(alloc);
    for _ in 0..u64::MAX {
        done.reserve(1)?;
        let Some(number) = take_any(handles, &mut places, own, count) else {
            break;
        };
        done.push_reserved((number, work.one(number)?));
    }
    Ok(Share { places, done })
}
