//! Mates of colours.

ghost use Rattle.std.specs.Prelude.{◌≡◌, ◌<◌, ◌^◌, MatchOption, MatchBool, length};
ghost use Rattle.match_limits.specs.First.{IsLeast};
ghost use Rattle.match_board.specs.Mates.{AreMates, HasMate, HasNoMateAt, BreaksMatesAt};
ghost use Rattle.match_board.specs.Mates as listed;

use match_limits::MOST_COLOURS;

/// The mate of a colour by the list of mates. It is the colour itself where the list has no entry for it.
pub fn mate_in(mates: &[u8], colour: u8) -> u8
    ensures { result ≡ listed.mate_in mates.now colour }
{
    let place = usize::from(colour);
    if place < mates.len() {
        mates[place]
    } else {
        colour
    }
}

/// The first colour of the list that has no mate, or a mate that has another mate. It is 36, one more than the last
/// colour, where the list is longer than there are colours.
pub fn broken_mate(mates: &[u8]) -> Option<u32>
    requires { length mates.now < 2 ^ 32 }
    ensures { MatchOption result (AreMates mates.now) (IsLeast (BreaksMatesAt mates.now)) }
{
    for colour in 0..MOST_COLOURS {
        if lacks_mate(mates, colour) {
            return Some(u32::from(colour));
        }
    }
    if mates.len() > usize::from(MOST_COLOURS) {
        return Some(u32::from(MOST_COLOURS));
    }
    None
}

// Whether the list has an entry for the colour that is not in the list, or is no mate of it.
fn lacks_mate(mates: &[u8], colour: u8) -> bool
    ensures { MatchBool result (HasNoMateAt mates.now colour)
        (colour < length mates.now → HasMate mates.now colour) }
{
    let mate = mate_in(mates, colour);
    usize::from(colour) < mates.len()
        && (usize::from(mate) >= mates.len() || mate_in(mates, mate) != colour)
}
