//! The limits.

// The numbers are those of docs/FORMATS.md and of the README, but for those of entries and of fuel.
const LIMITS: [(u32, u32); 31] = [
    (match_limits::MOST_CELLS as u32, 256),
    (match_limits::MOST_PLAIN_CELLS as u32, 100),
    (match_limits::MOST_PLACES as u32, 1_024),
    (match_limits::LAST_CELL as u32, 255),
    (match_limits::MOST_TILES as u32, 256),
    (match_limits::LAST_TILE as u32, 255),
    (match_limits::MOST_LENGTH as u32, 100),
    (match_limits::MOST_SIDES as u32, 4),
    (match_limits::SIDES as u32, 4),
    (match_limits::MOST_TURNS as u32, 4),
    (match_limits::TURNS as u32, 4),
    (match_limits::LAST_SIDE as u32, 3),
    (match_limits::LAST_TURN as u32, 3),
    (match_limits::MOST_RULES as u32, 1_024),
    (match_limits::MOST_COLOURS as u32, 36),
    (match_limits::MOST_CLASSES as u32, 100),
    (match_limits::MOST_ENTRIES as u32, 200_000),
    (match_limits::MOST_ARRANGEMENTS, 1_000_000),
    (match_limits::LAST_ARRANGEMENT, 999_999),
    (match_limits::MOST_SYMMETRIES as u32, 1_024),
    (match_limits::LAST_SYMMETRY as u32, 1_023),
    (match_limits::MOST_LEMMAS, 1_000_000),
    (match_limits::LAST_LEMMA, 999_999),
    (match_limits::MOST_CHILDREN, 1_024),
    (match_limits::MOST_LEVELS as u32, 257),
    (match_limits::MOST_FUEL, 1_000_000),
    (match_limits::MOST_DEPTH as u32, 3),
    (match_limits::MOST_WORKERS as u32, 64),
    (match_limits::MOST_FORKS as u32, 6),
    (match_limits::MOST_BYTES, 1_073_741_824),
    (match_limits::MOST_DRAWN, 100),
];

#[test]
fn limits_of_formats(rt: HostRuntime) {
    for (limit, number) in LIMITS.iter() {
        assert!(rt; limit == number, "{limit} for {number}");
    }
}
