//! Options of an item that come in turn.

/// Options of an item that come in turn: the open ones from the first on that have a lower number than the end. Without
/// a first one there are none.
#[derive(Clone, Copy)]
pub(crate) struct Turn {
    pub(crate) item: u32,
    pub(crate) first: Option<u32>,
    pub(crate) end: u32,
}
