//! Puzzles that were worked out by hand, each with all its arrangements and a certificate of that, as texts.
//!
//! The files of `examples/` have the same texts, under the same names.

ghost use Rattle.std.specs.Prelude.{◌≡◌, ◌<◌, ◌^◌, IfOk, length, vec_len};

use crate::readings::{list_of, puzzle_of};
use match_puzzle::{Arrangement, Placement, Puzzle};
use puzzle_symmetry::{Images, SymmetryLine};
use std::alloc::{AllocError, Global};
use std::test::Fail;

/// Two by two squares that are not turned, with 5 all round. They have one arrangement.
pub const SQUARE_OF_FOUR: &[u8] =
    b"match 1\nboard rect 2 2\nturns no\nborder one 5\ntiles 4\ntile 5135\ntile 5541\ntile 3255\ntile 4552\nend\n";

pub const SQUARE_OF_FOUR_LIST: &[u8] = b"list 1\narrangements 1\n0.0 1.0 2.0 3.0\nend\n";

pub const SQUARE_OF_FOUR_CERTIFICATE: &[u8] =
    b"certificate 1\nsymmetries 0\nlemmas 1\nlemma 0 prefix tree c 0 1 c 1 1 c 2 1 c 3 1 f 0\nend\n";

/// Two equal squares side by side, which a symmetry exchanges. They have two arrangements, of which one is listed.
pub const TWIN_TILES: &[u8] =
    b"match 1\nboard rect 2 1\nturns no\nborder free\ntiles 2\ntile 0101\ntile 0101\nend\n";

pub const TWIN_TILES_LIST: &[u8] = b"list 1\narrangements 1\n0.0 1.0\nend\n";

pub const TWIN_TILES_CERTIFICATE: &[u8] =
    b"certificate 1\nsymmetries 1\nsymmetry 0 + cells 0 1 colours 0 1 tiles 1 0\nlemmas 2\nlemma 0 prefix 0:0.0 tree c 1 1 f 0\nlemma 1 prefix tree c 0 2 s 0 i 0 0\nend\n";

/// The certificate of the twin tiles where five arrangements are listed before that of lemma 0.
pub const TWIN_TILES_AFTER_FIVE: &[u8] =
    b"certificate 1\nsymmetries 1\nsymmetry 0 + cells 0 1 colours 0 1 tiles 1 0\nlemmas 2\nlemma 0 prefix 0:0.0 tree c 1 1 f 5\nlemma 1 prefix tree c 0 2 s 0 i 0 0\nend\n";

/// Its lemmas, counted from the root.
pub const TWIN_TILES_FROM_THE_ROOT: [&[u8]; 2] = [
    b"lemma 0 prefix tree c 0 2 s 1 i 1 0\n",
    b"lemma 1 prefix 0:0.0 tree c 1 1 f 0\n",
];

/// The triangle of side 2, whose tiles may be turned, with 0 all round; a symmetry turns it. It has three arrangements,
/// of which one is listed.
pub const TURNING_TRIANGLE: &[u8] =
    b"match 1\nboard triangle 2\nturns yes\nborder one 0\ntiles 4\ntile 123\ntile 100\ntile 200\ntile 300\nend\n";

pub const TURNING_TRIANGLE_LIST: &[u8] = b"list 1\narrangements 1\n2.2 1.0 0.0 3.1\nend\n";

/// The list of all three.
pub const ALL_OF_TURNING_TRIANGLE: &[u8] =
    b"list 1\narrangements 3\n2.2 1.0 0.0 3.1\n1.2 3.0 0.2 2.1\n3.2 2.0 0.1 1.1\nend\n";

pub const TURNING_TRIANGLE_CERTIFICATE: &[u8] =
    b"certificate 1\nsymmetries 1\nsymmetry 1 + cells 3 0 2 1 colours 0 1 2 3 tiles 0 1 2 3\nlemmas 3\nlemma 0 prefix 2:0.0 tree c 0 1 c 1 1 c 3 1 f 0\nlemma 1 prefix 2:0.2 tree i 0 0\nlemma 2 prefix tree t 0 3 s 0 i 1 0 s 1\nend\n";

/// The arrangement that [`TURNING_TRIANGLE_LIST`] lists.
pub const TURNING_TRIANGLE_ARRANGEMENT: [Placement; 4] = [
    Placement { tile: 2, turn: 2 },
    Placement { tile: 1, turn: 0 },
    Placement { tile: 0, turn: 0 },
    Placement { tile: 3, turn: 1 },
];

/// The puzzle of [`TURNING_TRIANGLE`].
pub fn turning_triangle(alloc: Global) -> Result<Puzzle, Fail> {
    puzzle_of(alloc, TURNING_TRIANGLE)
}

/// The list of [`TURNING_TRIANGLE_LIST`].
pub fn turning_triangle_list(alloc: Global) -> Result<Vec<Arrangement>, Fail> {
    list_of(alloc, TURNING_TRIANGLE_LIST)
}

/// The images with these numbers.
pub fn images_of<T: Copy>(alloc: Global, numbers: &[T]) -> Result<Images<T>, AllocError> {
    Ok(Images::new(numbers.to_vec(alloc)?))
}

/// The symmetry that exchanges the [`TWIN_TILES`], the only one.
pub fn exchange_of_twins(alloc: Global) -> Result<Vec<SymmetryLine>, AllocError>
    ensures one { IfOk result (λ lines. vec_len lines ≡ 1) }
    ensures few { IfOk result (λ lines. length lines.items < 2 ^ 32) }
{
    let line = SymmetryLine {
        shift: 0,
        mirrored: false,
        cells: images_of(alloc, &[0, 1])?,
        colours: images_of(alloc, &[0, 1])?,
        tiles: images_of(alloc, &[1, 0])?,
    };
    let mut lines = Vec::new(alloc);
    lines.push(line)?;
    Ok(lines)
}
