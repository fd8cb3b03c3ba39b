use crate::list::List;

/// What a run is held to: the most acts of a plan, the last tick of a plan, how many ticks before
/// its latest start an act is committed, and the most ids that the search gives to nodes, the
/// root's counted.
#[derive(Clone, Copy, Debug, PartialEq, Eq)]
pub struct Limits {
    pub actions: u32,
    pub horizon: u64,
    pub lead: u64,
    pub nodes: u32,
}

/// An act of a plan: an index into the problem's actions, its start tick, and its length in ticks
/// (0 of an instant action).
#[derive(Clone, Copy, Debug, PartialEq, Eq)]
pub struct Timed {
    pub action: u32,
    pub start: u64,
    pub length: u64,
}

/// The acts of a plan, in order by start, action and length, and the tick at which it ends.
#[derive(Drop)]
pub struct Plan {
    pub acts: List<Timed>,
    pub end: u64,
}

/// What may happen at a tick: a timed item, the end of a durative action, or the start of an
/// action, each by its index in the problem. Their order is the item order: timed items, ends,
/// starts, each kind by its number.
///
/// The snap actions of PDDL 2.1, section 5; the timed initial literals of PDDL 2.2.
#[derive(Clone, Copy, Debug, PartialEq, Eq, PartialOrd, Ord)]
pub enum Item {
    TimedAt(u32),
    End(u32),
    Start(u32),
}

/// One mark of a word: an item, and whether it opens a group of its own or joins the group before
/// it.
#[derive(Clone, Copy, Debug, PartialEq, Eq)]
pub struct Mark {
    pub fresh: bool,
    pub item: Item,
}
