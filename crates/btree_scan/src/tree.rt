// Where a tree stands.

/// A sorted list in blocks, which is level 0. Above a level of more than one block stands the next,
/// with the first entry of each of its blocks.
#[derive(Clone, Copy, Debug, PartialEq, Eq)]
pub struct Tree {
    /// The first block of the list.
    pub first: u32,
    /// The number of entries, of 12 bytes each.
    pub entries: u32,
    /// The bytes that a block keeps, 4096 or 4080.
    pub payload: u32,
}
