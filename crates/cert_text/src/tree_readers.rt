//! Reads trees, node by node in preorder (each node before its children).

ghost use Rattle.std.specs.Prelude.{◌≡◌, ◌+◌, ◌<◌, ◌≤◌, ◌^◌, ◌++◌, Err, OnOk, length, drop};
ghost use Rattle.match_limits.specs.declared.ranges.Ranges.{Ranges as RangesOf};
ghost use Rattle.match_limits.specs.Ranges.{AreRanges};
ghost use Rattle.text_words.specs.PlainWords.{Judges};
ghost use Rattle.text_words.specs.Place.{Gives, Reads, times, word_by};
ghost use Rattle.cert_tree.specs.Heads.{trees_in, first, AreOfTree};
ghost use Rattle.cert_text.specs.TreeText.{node_kind_in, tree_by};
ghost use Rattle.cert_text.specs.HeadReading.{most_of, rest_by, head_by, ReadsOnto, ReadAllOnto};

use cert_tree::Head;
use match_limits::{LAST_ARRANGEMENT, LAST_LEMMA, LAST_SYMMETRY, Ranges};
use text_words::{Asked, ReadFault, Scan, TextFault, TextKind};

// The kinds of node that have a letter.
#[derive(Clone, Copy)]
enum NodeKind {
    Cell,
    Tile,
    DeadCell,
    DeadTile,
    Found,
    Same,
    Image,
}

// How a message names the letters.
const NODE: Asked = Asked::OneOf("a node: c, t, d, e, f, s, or i");

fn node_kind_word(word: &[u8]) -> Result<NodeKind, TextKind>
    ensures { Judges (λ kind. kind) result (node_kind_in word.now) }
{
    match word {
        b"c" => Ok(NodeKind::Cell),
        b"t" => Ok(NodeKind::Tile),
        b"d" => Ok(NodeKind::DeadCell),
        b"e" => Ok(NodeKind::DeadTile),
        b"f" => Ok(NodeKind::Found),
        b"s" => Ok(NodeKind::Same),
        b"i" => Ok(NodeKind::Image),
        _ => Err(TextKind::Word),
    }
}

#[tactic(auto, unfolding(text_words::specs::Place::word_by))]
fn node_kind(scan: &mut Scan) -> Result<NodeKind, TextFault>
    ensures { Gives (λ kind. kind) result scan.new (word_by node_kind_in scan.old) }
{
    // The word is looked at where it is: in a `Result` beside a fault it would pass through memory.
    let Some(word) = scan.peek() else {
        scan.miss(NODE);
        return Err(scan.fault(TextKind::Word));
    };
    scan.accept(NODE, node_kind_word(word))
}

// The fault where a node would begin below the last level.
#[tactic(auto, unfolding(crate::specs::TreeText::tree_by))]
fn below_last(scan: &mut Scan) -> TextFault
    ensures { (ranges : RangesOf) → tree_by ranges 0 scan.old ≡ Err result }
{
    scan.miss(NODE);
    if scan.has_word() {
        scan.fault(TextKind::TooDeep)
    } else {
        scan.fault(TextKind::Word)
    }
}

// The greatest number that may follow the letter.
fn most_number(ranges: &Ranges, kind: NodeKind) -> u32
    ensures most { result ≡ most_of ranges.now kind }
    ensures small { result < 2 ^ 31 }
{
    match kind {
        NodeKind::Cell | NodeKind::Tile | NodeKind::DeadCell | NodeKind::DeadTile => {
            u32::from(ranges.last_cell)
        }
        NodeKind::Found => LAST_ARRANGEMENT,
        NodeKind::Same | NodeKind::Image => LAST_LEMMA,
    }
}

// Reads the rest of a head of this kind, after its first number.
#[tactic(auto, unfolding(crate::specs::HeadReading::rest_by))]
fn rest(scan: &mut Scan, ranges: &Ranges, kind: NodeKind, number: u32) -> Result<Head, TextFault>
    requires ranges { AreRanges ranges.now }
    requires number { number ≤ most_of ranges.now kind }
    ensures { Gives (λ head. head) result scan.new (rest_by ranges.now kind number scan.old) }
{
    match kind {
        NodeKind::Cell => {
            let children = scan.number(1, ranges.most_children)?;
            let cell = number as u16;
            Ok(Head::Cell { cell, children })
        }
        NodeKind::Tile => {
            let children = scan.number(1, ranges.most_children)?;
            let tile = number as u16;
            Ok(Head::Tile { tile, children })
        }
        NodeKind::DeadCell => Ok(Head::DeadCell(number as u16)),
        NodeKind::DeadTile => Ok(Head::DeadTile(number as u16)),
        NodeKind::Found => Ok(Head::Found(number)),
        NodeKind::Same => Ok(Head::Same(number)),
        NodeKind::Image => {
            let symmetry = scan.number(0, u32::from(LAST_SYMMETRY))? as u16;
            let lemma = number;
            Ok(Head::Image { symmetry, lemma })
        }
    }
}

// Reads the words of a node without its children.
#[tactic(auto, unfolding(crate::specs::HeadReading::head_by))]
fn head(scan: &mut Scan, ranges: &Ranges) -> Result<Head, TextFault>
    requires { AreRanges ranges.now }
    ensures { Gives (λ head. head) result scan.new (head_by ranges.now scan.old) }
{
    let kind = node_kind(scan)?;
    let number = scan.number(0, most_number(ranges, kind))?;
    rest(scan, ranges, kind, number)
}

// Reads a tree of up to `room` levels, and appends its heads.
#[cycle(trees)]
fn node(scan: &mut Scan, ranges: &Ranges, heads: &mut Vec<Head>, room: u16) -> Result<(), ReadFault>
    requires { AreRanges ranges.now }
    ensures { ReadsOnto result scan.new heads.old.items heads.new.items (tree_by ranges.now room scan.old) }
{
    if room == 0 {
        return Err(ReadFault::Text(below_last(scan)));
    }
    let head = head(scan, ranges)?;
    heads.push(head)?;
    nodes(scan, ranges, heads, room - 1, head.children())
}

// Reads `count` trees of up to `room` levels, the children of a node, and appends their heads.
#[cycle(trees)]
fn nodes(
    scan: &mut Scan,
    ranges: &Ranges,
    heads: &mut Vec<Head>,
    room: u16,
    count: u32,
) -> Result<(), ReadFault>
    requires { AreRanges ranges.now }
    ensures { ReadAllOnto result scan.new heads.old.items heads.new.items
        (times count (tree_by ranges.now room) scan.old) }
{
    for _ in 0..count {
        node(scan, ranges, heads, room)?;
    }
    Ok(())
}

/// Reads a tree with at most as many levels as these ranges allow, and appends its heads. The recursion is no deeper
/// than that.
pub fn tree(scan: &mut Scan, ranges: &Ranges, heads: &mut Vec<Head>) -> Result<(), ReadFault>
    requires { AreRanges ranges.now }
    ensures reads { Reads (λ _. first (trees_in (drop (length heads.old.items) heads.new.items))) result scan.new
        (tree_by ranges.now ranges.now.most_levels scan.old) }
    ensures tree { OnOk result (AreOfTree (drop (length heads.old.items) heads.new.items)) }
    ensures behind { OnOk result (heads.new.items ≡ heads.old.items ++ drop (length heads.old.items) heads.new.items) }
{
    node(scan, ranges, heads, ranges.most_levels)
}
