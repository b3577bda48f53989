//! Solves edge-matching puzzles, and checks by a certificate whether a list of arrangements is complete.
#![tactic(auto)]

ghost use Rattle.std.specs.Prelude.{◌≤◌, IfSome, length};

use command_orders::{Exit, RunFault, Streams, SystemLimits, run_words, stopped};
use std::env::{Env, FillError};
use std::fs::{self, OpenOptions};
use std::io::{ErrorKind, IsTerminal};
use std::os::fd::{AsRawFd, IntoRawFd};
use std::process::ExitCode;
use std::random::RandomSource;
use std::sync::Wait;
use std::thread::{Builder, Threads};
use std::time::Clock;
use std::{env, io, str};
use system_files::{Input, Output, System};

// A stack that is large enough, in bytes: 256 cells take a fifth of it. Threads get as much as the limit on stacks
// says.
const STACK_LEN: usize = 0x10_0000;

// A file that can be opened everywhere, and is empty.
const NOTHING: &str = "/dev/null";

// Linux takes only words with fewer bytes.
const MOST_WORD_LEN: usize = 0x2_0000;

// The descriptor of standard error, after those of standard input and output.
const LAST_STREAM: i32 = 2;

// The stack that a program begins with grows as it is used; where it can't, the system ends the program. So where
// memory is limited, everything is done on a thread, whose whole stack is there when it starts.
fn main(rt: HostRuntime) -> ExitCode {
    take_closed_streams(&rt);
    let limits = limits(&rt, rt);
    let exit = if !limits.allow_stack(STACK_LEN as u64) {
        out_of_memory(&rt)
    } else if limits.bound_memory() {
        match Builder::new()
            .stack_size(STACK_LEN)
            .spawn(&rt, move || run(&rt, &rt))
        {
            Ok(thread) => thread.join(&rt),
            Err(_) => out_of_memory(&rt),
        }
    } else {
        run(&rt, &rt)
    };
    ExitCode::from(exit.code())
}

// Takes the descriptors of standard streams that are closed. Otherwise a file that is opened later could have one of
// them, and would get what is said there. The streams stay as useless as closed ones: the first can't be read, and the
// others can't be written. Apart from `main`, as `run` is.
#[inline(never)]
fn take_closed_streams(rt: &HostRuntime) {
    if let Ok(file) = OpenOptions::new().write(true).open(rt, NOTHING) {
        if file.as_raw_fd() == 0 {
            let _ = file.into_raw_fd();
        }
    }
    for _ in 0..LAST_STREAM {
        let Ok(file) = fs::open(rt, NOTHING) else {
            return;
        };
        if file.as_raw_fd() > LAST_STREAM {
            return;
        }
        let _ = file.into_raw_fd();
    }
}

// What the system grants, asked on a thread too, or here where no thread starts.
fn limits<R: Threads>(threads: &R, rt: HostRuntime) -> SystemLimits {
    match Builder::new()
        .stack_size(STACK_LEN)
        .spawn(threads, move || SystemLimits::read(&rt))
    {
        Ok(thread) => thread.join(threads),
        Err(_) => SystemLimits::read(&rt),
    }
}

// Does what the words order, over the system's files and streams, and returns how the program ends. Apart from `main`,
// whose part of the stack has to be small.
#[inline(never)]
fn run<R: Threads + Wait + Sync + RandomSource + Clock + Eprint>(
    threads: &R,
    rt: &HostRuntime,
) -> Exit {
    match words(rt) {
        Ok(words) => {
            let errors = rt.stderr();
            let terminal = errors.is_terminal();
            let input = rt.stdin();
            let typed = input.is_terminal();
            run_words(
                threads,
                rt.alloc(),
                &words,
                &mut System::new(rt, rt.stdout(), rt.stderr()),
                &mut Streams {
                    input: &mut Input::new(input),
                    output: &mut Output::new(rt.stdout()),
                    errors: &mut Output::new(errors),
                    terminal,
                    typed,
                },
            )
        }
        Err(error) => unread(rt, &error),
    }
}

// The words after the program's name.
fn words(rt: &HostRuntime) -> io::Result<Vec<String>> {
    let words = env::args(rt)?.skip(1).collect(rt.alloc())?;
    Ok(words)
}

fn out_of_memory(rt: &HostRuntime) -> Exit {
    stopped(rt.alloc(), &RunFault::Memory, &mut Output::new(rt.stderr()))
}

// Says that the words can't be read, and which word it is.
fn unread(rt: &HostRuntime, error: &io::Error) -> Exit {
    if error.kind() == ErrorKind::OutOfMemory {
        return out_of_memory(rt);
    }
    let Ok(mut bytes) = vec![in rt.alloc(); 0u8; MOST_WORD_LEN] else {
        return out_of_memory(rt);
    };
    match word_of_no_text(rt, &mut bytes) {
        Some((number, len)) => {
            let _ = eprintln!(rt;
                "the words of the command line are not UTF-8: word {number} is {}",
                bytes[..len].escape_ascii()
            );
        }
        None => {
            let _ = rt.eprintln("the words of the command line are not UTF-8");
        }
    }
    Exit::Failed
}

// The first word after the program's name that is not UTF-8, if one is found: its number, and how many bytes it has.
// These are then at the front of `bytes`.
fn word_of_no_text(rt: &HostRuntime, bytes: &mut [u8]) -> Option<(usize, usize)>
    ensures { IfSome result (λ found. found.1 ≤ length bytes.new) }
{
    for number in 1..usize::MAX {
        match rt.arg(number, bytes) {
            Ok(len) if str::from_utf8(&bytes[..len]).is_err() => return Some((number, len)),
            Ok(_) => {}
            Err(FillError::TooLong) => {}
            Err(FillError::NotPresent) => return None,
        }
    }
    None
}
