use tp_spec::List;

/// The end, in ticks, of an act that runs after a word, with its action's index.
#[derive(Clone, Copy, Debug, PartialEq, Eq)]
pub struct OpenEnd {
    pub action: u32,
    pub end: u64,
}

/// A schedule of a word: a tick for each group, and the end of each act that runs after the word,
/// in order of their starts.
#[derive(Drop)]
pub struct Latest {
    pub groups: List<u64>,
    pub ends: List<OpenEnd>,
}
