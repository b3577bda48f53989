//! What the system grants a process.

use std::alloc::Alloc;
use std::fs;
use std::rt::Files;

// The file in which Linux says the limits of a process: a line for each, with its name and then the limit.
const LIMITS: &str = "/proc/self/limits";

/// Limits of a process, in bytes. `None` where there is no limit, or the system doesn't say it.
#[derive(Clone, Copy)]
pub struct SystemLimits {
    stack: Option<u64>,
    memory: Option<u64>,
}

impl SystemLimits {
    /// Reads the limits of this process.
    pub fn read<R: Files + Alloc>(rt: &R) -> SystemLimits {
        match fs::read_to_string(rt, LIMITS) {
            Ok(limits) => SystemLimits::of(&limits),
            Err(_) => SystemLimits::of(""),
        }
    }

    /// Reads the limits from a text in the form that Linux uses: a line for each, with its name and then the limit.
    pub fn of(limits: &str) -> SystemLimits {
        SystemLimits {
            stack: limit(limits, "Max stack size"),
            memory: limit(limits, "Max address space"),
        }
    }

    /// Whether each thread may have a stack of `len` bytes.
    pub fn allow_stack(&self, len: u64) -> bool {
        self.stack.is_none_or(|most| len <= most)
    }

    /// Whether there is a limit on memory.
    pub fn bound_memory(&self) -> bool {
        self.memory.is_some()
    }
}

// The limit with this name.
fn limit(limits: &str, name: &str) -> Option<u64> {
    let words = limits.lines().find_map(|line| line.strip_prefix(name))?;
    words.split_whitespace().next()?.parse().ok()
}
