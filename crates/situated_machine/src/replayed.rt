/// A rule of the situated machine that can be judged at a single event, from the state in which it
/// finds the machine. Rules are judged in the order of the cases below.
#[derive(Clone, Copy, Debug, PartialEq, Eq)]
pub enum Rule {
    /// No outcome stands.
    Outcome,
    /// What settles stands in a turn, and a deed is the first one of its actor's own turn.
    Turn,
    /// A Drop is of a node of the frontier, a Take of an open one, an Expand, Publish or Limit of
    /// one that its actor took.
    Id,
    /// A Take is of the least open node, by rank and then by id.
    Least,
    /// A Take's node has a live word.
    Live,
    /// No possible plan spells the word of an Expand or a Limit, and an Expand has exactly the
    /// marks that make it a live word.
    Marks,
    /// A Dispatch is of the act that is due.
    Commit,
    /// A Publish is of the plan of its word's least schedule, which is possible.
    Plan,
    /// An Expand gives no more ids than there may be; a Limit tells how many were given and how
    /// many marks there are, which are too many together.
    Number,
    /// A Tick, a deed or a Halt finds the machine settled, an Exhaust an empty frontier.
    Early,
}

/// What a replay finds of a history: how many events it has where none of them breaks a rule, else
/// the first event that does, counted from 0, and the first rule that this event breaks.
#[derive(Clone, Copy, Debug, PartialEq, Eq)]
pub enum Replayed {
    Run { events: u32 },
    Broken { event: u32, rule: Rule },
}
