//! Puzzles that several tests have.

/// Six triangles round a point, with 0 all round; the colours 1 to 6 go round.
pub const SIX_TRIANGLES: &[u8] =
    b"match 1\nboard hexagon 1\nturns yes\nborder one 0\ntiles 6\ntile 012\ntile 023\ntile 034\ntile 045\ntile 056\ntile 061\nend\n";

/// Two squares that are not turned, of which one shows a colour and the other its mate where they meet. They have one
/// arrangement.
pub const MATED_PAIR: &[u8] =
    b"match 2\nboard rect 2 1\nturns no\nborder free\nmates 1 0\ntiles 2\ntile 2022\ntile 2321\nend\n";

/// A puzzle on three squares of four, the corner at the top and at the left with its two neighbours.
pub const CORNER_SHAPE: &[u8] =
    b"match 2\nboard shape 2 2\nrow ##\nrow #.\nturns no\nborder one 0\nmates\ntiles 3\ntile 0120\ntile 0001\ntile 2000\nend\n";
