use crate::list::List;
use crate::plan::{Mark, Plan, Timed};

/// Why a run was halted with no outcome of the search: the output failed, the script ended, or
/// memory was refused.
#[derive(Clone, Copy, Debug, PartialEq, Eq)]
pub enum Cause {
    Out,
    Script,
    Memory,
}

/// One event of the situated machine. Actor 0 is the dispatcher, the others are search workers.
#[derive(Drop)]
pub enum Event {
    /// A turn of an actor begins, with one reading of the clock, in ticks.
    Tick {
        actor: u32,
        reading: u64,
    },
    /// A node whose word begins no possible plan leaves the frontier.
    Drop {
        id: u32,
    },
    /// An act is committed.
    Dispatch {
        act: Timed,
    },
    /// An actor takes the least open node.
    Take {
        actor: u32,
        id: u32,
    },
    /// A taken node is replaced by one open node for each mark.
    Expand {
        actor: u32,
        id: u32,
        marks: List<Mark>,
    },
    /// A plan is published.
    Publish {
        actor: u32,
        id: u32,
        plan: Plan,
    },
    /// The search stops: with the marks of this node it would give more ids than it may.
    Limit {
        actor: u32,
        id: u32,
        made: u32,
        marks: u32,
    },
    /// No possible plan is left.
    Exhaust,
    /// The run stops with no outcome of the search.
    Halt {
        cause: Cause,
    },
}
