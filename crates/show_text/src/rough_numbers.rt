//! Numbers of which only the first digits count.

use std::alloc::{AllocError, Global};

// The digits of such a number are below this, and at least a tenth of it, or 0.
const DIGITS_END: u64 = 1_000_000_000_000;
// The most places before the point with which one is written in full.
const MOST_PLACES: i32 = 6;

/// A number by its first twelve digits, however large or small it is.
#[derive(Clone, Copy)]
pub struct RoughNumber {
    // 12 digits, or 0
    digits: u64,
    // how many places stand before the point
    places: i32,
}

impl RoughNumber {
    /// This number.
    pub(crate) fn of(number: u64) -> RoughNumber {
        let whole = RoughNumber {
            digits: number,
            places: 12,
        };
        whole.times(1, 1)
    }

    /// The number times `ways` and divided by `of`, where both are below 2^21.
    pub(crate) fn times(self, ways: u32, of: u32) -> RoughNumber {
        let mut digits = self.digits.saturating_mul(u64::from(ways)) / u64::from(of.max(1));
        let mut places = self.places;
        while digits >= DIGITS_END {
            digits /= 10;
            places = places.saturating_add(1);
        }
        while digits > 0 && digits < DIGITS_END / 10 {
            digits *= 10;
            places = places.saturating_sub(1);
        }
        RoughNumber { digits, places }
    }

    /// Whether it is 1,000,000 or more: more than a list may have, or as many.
    pub fn is_over_a_list(self) -> bool {
        self.digits > 0 && self.places > MOST_PLACES
    }

    /// The number in full up to 999,999, and else with two digits, as `1.5e7`.
    ///
    /// An `Err` comes only where memory is refused.
    pub fn to_text(self, alloc: Global) -> Result<String, AllocError> {
        if self.digits == 0 {
            return format!(in alloc; "0");
        }
        if self.places < 1 || self.places > MOST_PLACES {
            let head = self.digits / (DIGITS_END / 10);
            let tail = self.digits / (DIGITS_END / 100) % 10;
            let power = self.places.saturating_sub(1);
            return format!(in alloc; "{head}.{tail}e{power}");
        }
        let mut whole = self.digits;
        for _ in self.places..12 {
            whole /= 10;
        }
        format!(in alloc; "{whole}")
    }
}
