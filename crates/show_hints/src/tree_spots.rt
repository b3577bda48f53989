//! Nodes of a lemma's tree, by the words of its line.

// A node of a lemma's tree, in the order in which they stand.
#[derive(Clone, Copy)]
pub(crate) struct NodeSpot {
    // from 0
    pub(crate) number: usize,
    // the letter that it begins with; none where that is what is asked for
    letter: Option<u8>,
}

// The node in which a lemma's line has the word with this number, from 1, or that begins with it; none before the tree.
pub(crate) fn node_at(line: &[u8], word_number: usize, begins: bool) -> Option<NodeSpot> {
    let mut nodes = 0usize;
    let mut last = None;
    let mut in_tree = false;
    let before = word_number.saturating_sub(1);
    for word in line.split(|byte| *byte == b' ').take(before) {
        match word {
            b"tree" => in_tree = true,
            [letter @ b'a'..=b'z'] if in_tree => {
                nodes = nodes.saturating_add(1);
                last = Some(*letter);
            }
            _ => {}
        }
    }
    if !in_tree {
        return None;
    }
    if begins {
        return Some(NodeSpot {
            number: nodes,
            letter: None,
        });
    }
    let letter = last?;
    Some(NodeSpot {
        number: nodes.saturating_sub(1),
        letter: Some(letter),
    })
}

impl NodeSpot {
    // What such a node looks like.
    pub(crate) fn form(self) -> Option<&'static str> {
        match self.letter? {
            b'c' => Some("c CELL CHILDREN"),
            b't' => Some("t TILE CHILDREN"),
            b'd' => Some("d CELL"),
            b'e' => Some("e TILE"),
            b'f' => Some("f ARRANGEMENT"),
            b's' => Some("s LEMMA"),
            b'i' => Some("i LEMMA SYMMETRY"),
            _ => None,
        }
    }
}
