//! Rows inside the engine: a cell for each name.

/// What a row has under a name, by the name's number. Terms stand elsewhere, so a row is copied as
/// plain numbers.
#[derive(Clone, Copy, Debug, PartialEq, Eq)]
pub enum Cell {
    /// Nothing.
    Free,
    /// The term of the data with that rank.
    Id(u32),
    /// The term of the plan with that number.
    Given(u32),
    /// The term that the BIND with that number gave last.
    Made(u32),
}

/// A position of a pattern.
#[derive(Clone, Copy, Debug, PartialEq, Eq)]
pub enum Position {
    /// The term of the plan with that number.
    Known(u32),
    /// The name with that number.
    Slot(usize),
}

/// A pattern whose terms and names are numbered.
#[derive(Clone, Copy, Debug, PartialEq, Eq)]
pub struct PatternSlots {
    pub subject: Position,
    pub predicate: Position,
    pub object: Position,
}
