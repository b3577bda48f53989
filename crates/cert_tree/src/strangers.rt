//! Numbers of pieces, and the least one at or past the count.

ghost use Rattle.std.specs.Prelude.{◌≡◌, ◌≢◌, ◌≤◌, ℕ};
ghost use Rattle.cert_tree.specs.Assembly.{how_often, TellsLeast};
ghost use Rattle.cert_tree.specs.Slots.{lesser_of, stranger_of};

/// What has a number.
pub(crate) trait Numbered {
    ghost numbered: { Self → ℕ };

    /// Its number, from 0, by which pieces are sorted.
    fn number(&self) -> u32
        ensures { result ≡ numbered self.now };
}

// The number, or the one that was found before, if that is less.
pub(crate) fn lesser(least: Option<u32>, number: u32) -> u32
    ensures { result ≡ lesser_of least number }
{
    match least {
        None => number,
        Some(other) => other.min(number),
    }
}

// The least number at or past the count: `least`, which was found before, or this number.
fn stranger_so_far(count: u32, least: Option<u32>, number: u32) -> Option<u32>
    ensures { result ≡ stranger_of count least number }
{
    if number < count {
        return least;
    }
    Some(lesser(least, number))
}

/// The least number at or past the count that a piece has.
pub(crate) fn least_stranger<N: Numbered>(pieces: &[N], count: u32) -> Option<u32>
    ensures { TellsLeast (λ n. (count ≤ n) × (how_often N.numbered pieces.now n ≢ 0)) result }
{
    let mut least = None;
    for piece in pieces {
        least = stranger_so_far(count, least, piece.number());
    }
    least
}
