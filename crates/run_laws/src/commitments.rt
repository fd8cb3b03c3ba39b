ghost use Rattle.run_laws.specs.Commitments.{CommitsGrow, PlansShrink, DispatchKeeps, DispatchKeepsLive, StartsAreCommitted, DeadlineIsNextStart, NothingIsDue};
ghost use Rattle.tp_laws.specs.Plans.{OfFormed};

/// The commitments of a run only grow, by acts that start at the clock or later, and no event makes
/// a plan possible that was not.
pub fn commitments_of_runs()
    ensures grow { OfFormed CommitsGrow }
    ensures shrink { OfFormed PlansShrink }
{}

/// A dispatch takes away exactly the possible plans that disagree with it, and keeps the word live
/// whose start it commits. The k-th start of an action is its k-th commitment in every possible
/// plan.
pub fn plans_of_dispatches()
    ensures keeps { OfFormed DispatchKeeps }
    ensures live { OfFormed DispatchKeepsLive }
    ensures starts { OfFormed StartsAreCommitted }
{}

/// The deadline of a live word is the tick, in its greatest schedule, of its first start that is no
/// commitment; so nothing is due while the best node's deadline is more than the lead ahead of the
/// clock, or past the horizon.
pub fn deadlines_and_dispatches()
    ensures next { OfFormed DeadlineIsNextStart }
    ensures none { OfFormed NothingIsDue }
{}
