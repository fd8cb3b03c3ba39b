use tp_spec::Item;

/// What a plan is found to be: valid, or the first of its parts that is broken, in the order of the
/// cases below.
///
/// PDDL 2.1, section 6 (plan validity); the order is this project's own.
#[derive(Clone, Copy, Debug, PartialEq, Eq)]
pub enum Verdict {
    Valid,
    /// It has so many acts, which is more than the limit.
    TooLong { acts: u32 },
    /// An action starts a second time at one tick.
    TwiceAt { start: u64, action: u32 },
    /// An act's length is out of its action's range.
    LengthOut { start: u64, action: u32 },
    /// An act starts before an earlier one of its action ended.
    Overlap { start: u64, action: u32 },
    /// The end is neither 0 nor a happening, or lies behind the horizon, or before an act's end.
    EndOff { end: u64 },
    /// Two items of one tick interfere.
    Clash { tick: u64, a: Item, b: Item },
    /// An item's own conditions do not hold before its tick.
    Unmet { tick: u64, item: Item },
    /// A fluent's new value leaves 64 bits.
    Overflow { tick: u64, fluent: u32 },
    /// An invariant of an action that runs does not hold after a tick.
    Broken { tick: u64, action: u32 },
    /// A part of the goal does not hold at the end.
    GoalUnmet { part: u32 },
}
