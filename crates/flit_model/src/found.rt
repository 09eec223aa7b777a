ghost use Rattle.std.specs.Prelude.{◌≡◌};
ghost use Rattle.flit_model.specs.Recovery.{image_layout};

use flit_words::{GREATEST_VERSION, Kind, Layout};

/// The words that a crash leaves of a list, a hash table or a tree.
#[derive(Debug, Drop)]
pub struct Image {
    pub kind: Kind,
    /// The heads: 1 for a list, 1 to `MOST_BUCKETS` for a hash table, 0 for a tree.
    pub buckets: u32,
    /// The rows that calls may be given, from 1 to `MOST_ROWS`.
    pub rows: u32,
    /// Whether each row has a word for a value.
    pub values: bool,
    /// The raw words, as many as the layout has.
    pub words: Vec<u64>,
}

/// What a lawful image holds.
#[derive(Debug, Drop)]
pub struct Recovered {
    /// The keys of the map, in rising order.
    pub keys: Vec<u32>,
    /// The value of each key, in the order of the keys; 0 for an image without values.
    pub values: Vec<u32>,
    /// The rows that a call may be given and that no link reaches, in rising order.
    pub free: Vec<u32>,
    pub image: Image,
}

/// The layout of an image with these numbers, without slots.
pub fn image_layout(kind: Kind, buckets: u32, rows: u32, values: bool) -> Layout
    ensures { result ≡ image_layout kind buckets rows values }
{
    Layout {
        kind,
        buckets,
        rows,
        slots: 0,
        workers: 1,
        limit: GREATEST_VERSION,
        values,
    }
}

impl Image {
    ghost use Rattle.std.specs.Prelude.{◌≡◌};
    ghost use Rattle.flit_model.specs.Recovery.{layout_of};

    /// The layout of the words, without slots.
    pub fn layout(&self) -> Layout
        ensures { result ≡ layout_of self.now }
    {
        image_layout(self.kind, self.buckets, self.rows, self.values)
    }
}
