use cert_check::Answer;
use match_crew::{Gate, check_with};
use match_limits::MOST_WORKERS;
use match_puzzle::{Arrangement, Puzzle};
use std::alloc::Global;
use std::sync::atomic::{AtomicBool, AtomicU32, Ordering};
use std::test::Fail;
use std::thread;
use std::thread::Threads;
use test_samples::{certificate_of, turning_triangle, turning_triangle_list};

// Eight lemmas of the turning triangle, of which the last is the root's.
const EIGHT_LEMMAS: &[u8] = b"certificate 1\nsymmetries 1\n\
    symmetry 1 + cells 3 0 2 1 colours 0 1 2 3 tiles 0 1 2 3\nlemmas 8\n\
    lemma 0 prefix 2:0.0 tree c 0 1 c 1 1 c 3 1 f 0\n\
    lemma 1 prefix 2:0.2 tree i 0 0\n\
    lemma 2 prefix 2:0.0 tree s 0\n\
    lemma 3 prefix 2:0.2 tree s 1\n\
    lemma 4 prefix 2:0.0 tree s 2\n\
    lemma 5 prefix 2:0.2 tree s 3\n\
    lemma 6 prefix 2:0.0 tree s 4\n\
    lemma 7 prefix tree t 0 3 s 6 i 5 0 s 5\nend\n";

// Which of the eight lemmas it was told of. As many come at once as there are workers, and go on together.
#[derive(Drop)]
struct Watch {
    told: [AtomicBool; 8],
    workers: u8,
    came: AtomicU32,
    missed: AtomicBool,
}

impl Watch {
    fn new(workers: u8) -> Watch {
        Watch {
            told: [
                AtomicBool::new(false),
                AtomicBool::new(false),
                AtomicBool::new(false),
                AtomicBool::new(false),
                AtomicBool::new(false),
                AtomicBool::new(false),
                AtomicBool::new(false),
                AtomicBool::new(false),
            ],
            workers,
            came: AtomicU32::new(0),
            missed: AtomicBool::new(false),
        }
    }

    // Waits until each worker came as often as this one, or one of them waited in vain. Whether they came.
    fn meets_all(&self) -> bool {
        let workers = u64::from(self.workers.max(1));
        let before = u64::from(self.came.fetch_add(1, Ordering::SeqCst));
        let all = before - before % workers + workers;
        for _ in 0..10_000_000u32 {
            if u64::from(self.came.load(Ordering::SeqCst)) >= all {
                return true;
            }
            if self.missed.load(Ordering::SeqCst) {
                return false;
            }
            thread::yield_now();
        }
        false
    }
}

// Whether it was told of each lemma.
fn tells_all(watch: &Watch) -> Result<bool, Fail> {
    if watch.missed.load(Ordering::SeqCst) {
        return Err(Fail::new("no other thread came"));
    }
    for told in &watch.told {
        if !told.load(Ordering::SeqCst) {
            return Ok(false);
        }
    }
    Ok(true)
}

impl Gate for Watch {
    fn enter(&self, lemma: u32) {
        if lemma >= 8 {
            return;
        }
        self.told[lemma as usize].store(true, Ordering::SeqCst);
        if !self.meets_all() {
            self.missed.store(true, Ordering::SeqCst);
        }
    }
}

// Whether a check by as many workers as the watch says, who are all at lemmas at once, ends well.
fn is_complete<R: Threads + Sync>(
    rt: &R,
    alloc: Global,
    puzzle: &Puzzle,
    list: &[Arrangement],
    watch: &Watch,
) -> Result<bool, Fail> {
    let workers = watch.workers;
    if list.len() != 1 || workers < 1 || workers > MOST_WORKERS {
        return Err(Fail::new("another question"));
    }
    let certificate = certificate_of(alloc, EIGHT_LEMMAS)?;
    let answer = check_with(rt, alloc, puzzle, list, &certificate, workers, 0, watch)?;
    Ok(matches!(answer, Answer::Complete))
}

// Whether a check of the turning triangle by as many workers as the watch says, all at lemmas at once, ends well.
fn holds_by<R: Threads + Sync>(rt: &R, alloc: Global, watch: &Watch) -> Result<bool, Fail> {
    let puzzle = turning_triangle(alloc)?;
    let list = turning_triangle_list(alloc)?;
    is_complete(rt, alloc, &puzzle, &list, watch)
}

// Whether it does so, and tells of each lemma.
fn tells_of_each<R: Threads + Sync>(rt: &R, alloc: Global, workers: u8) -> Result<bool, Fail> {
    let watch = Watch::new(workers);
    Ok(holds_by(rt, alloc, &watch)? && tells_all(&watch)?)
}

#[test]
fn tells_of_each_lemma(rt: HostRuntime) -> Result<(), Fail> {
    for workers in [1, 2, 8] {
        assert!(rt; tells_of_each(&rt, rt.alloc(), workers)?, "by {workers}");
    }
    Ok(())
}
