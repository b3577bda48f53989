//! The fills of colours.

ghost use Rattle.std.specs.Prelude.{◌≡◌, ◌<◌, slice_index_or, []};
ghost use Rattle.show_pictures.specs.Palette.{fill_of};

use match_limits::MOST_COLOURS;
use match_puzzle::Puzzle;

// Fills in the order of the colours, in three hexadecimal digits. Any two of them can be told by who sees all colours
// and by who doesn't; those of the first colours best.
const FILLS: [[u8; 3]; MOST_COLOURS as usize] = [
    *b"ddd", *b"34a", *b"e60", *b"912", *b"4cf", *b"188", *b"fd2", *b"e99", *b"96e", *b"964",
    *b"8c6", *b"222", *b"535", *b"99b", *b"555", *b"995", *b"cea", *b"66a", *b"240", *b"b37",
    *b"fdf", *b"797", *b"79d", *b"606", *b"824", *b"bb1", *b"9f7", *b"fbb", *b"c22", *b"e6a",
    *b"3b7", *b"15d", *b"737", *b"bbd", *b"977", *b"660",
];

// The fill that stands at the colour in the table.
fn fill(colour: u8) -> [u8; 3]
    requires { colour < MOST_COLOURS }
    ensures { result ≡ slice_index_or FILLS colour [] }
{
    FILLS[usize::from(colour)]
}

/// The fill of the colour. Both of two mates have the fill of the lesser.
pub(crate) fn fill_of(puzzle: &Puzzle, colour: u8) -> [u8; 3]
    requires { colour < MOST_COLOURS }
    ensures { result ≡ fill_of puzzle.now colour }
{
    fill(colour.min(puzzle.mate(colour)))
}
