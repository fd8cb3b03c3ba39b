use tp_spec::Mark;

/// A child of a node: the mark behind the node's word, and the rank and the deadline (the last
/// clock, in ticks, at which it is live) of that longer word.
#[derive(Clone, Copy, Debug, PartialEq, Eq)]
pub struct Child {
    pub mark: Mark,
    pub rank: u32,
    pub deadline: u64,
}
