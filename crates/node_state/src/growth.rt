use tp_spec::{List, Mark};

/// What may come behind a word: the marks that make it a longer sound word, in order, and the rank
/// of each of these words (how many goal parts do not hold after it); and whether the word itself
/// may be a whole plan's: its last group closes, nothing runs after it, and each goal part holds.
#[derive(Drop)]
pub struct Growth {
    pub marks: List<Mark>,
    pub ranks: List<u32>,
    pub whole: bool,
}
