/// What is wrong with an image, where it comes first on the walk.
#[derive(Clone, Copy, Debug, PartialEq, Eq)]
pub enum Damage {
    /// The word has a tag.
    TagSet { word: u32 },
    /// The link in the word leads to no row that it may lead to, or has a bit that it may not have.
    RowOutOfRange { word: u32 },
    /// The row's key isn't above the one before it, or outside the range of its edge.
    KeyOrder { row: u32 },
    /// The row's key is above all keys, or in another head's bucket.
    KeyPlace { row: u32 },
    /// The row was reached before.
    Shared { row: u32 },
    /// The word is fixed and not fresh, or an edge with a bit that it may not have.
    BadEdge { word: u32 },
    /// There was no memory.
    NoMemory,
}
