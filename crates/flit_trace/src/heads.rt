use flit_words::Layout;

/// Where the tags of words are kept.
#[derive(Clone, Copy, Debug, PartialEq, Eq)]
pub enum Place {
    /// In a counter beside each word.
    Adjacent,
    /// In so many counters, which words share by their hash.
    Hashed(u32),
    /// In one bit of each word, with no counters.
    Packed,
    /// In one counter for each line of eight words.
    Lines,
}

/// What a trace says before its calls.
#[derive(Clone, Copy, Debug, PartialEq, Eq)]
pub struct Head {
    pub layout: Layout,
    pub place: Place,
}
