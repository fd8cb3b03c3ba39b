ghost use Rattle.situated_machine.specs.Pinned.{WholeRun, EmptyRun, DueRun, AfterOutcome, OutOfTurn, NoSuchNode, OthersNode, NotLeast, TooLate, MissingMark, NothingDue, LaterPlan, NotFull, TooEarly};

/// Histories that are answered by the number of their events: the whole search for a plan of a
/// drive, and a start that is committed as soon as it is due.
pub fn replayed_runs()
    ensures whole { WholeRun }
    ensures empty { EmptyRun }
    ensures due { DueRun }
{}

/// The first broken rule where an event comes out of turn, after an outcome, or is of a node that
/// it cannot be of.
pub fn events_out_of_place()
    ensures after_outcome { AfterOutcome }
    ensures out_of_turn { OutOfTurn }
    ensures no_such_node { NoSuchNode }
    ensures others_node { OthersNode }
    ensures too_early { TooEarly }
{}

/// The first broken rule where a node is taken that is not the least open one, or is dead.
pub fn wrong_takes()
    ensures not_least { NotLeast }
    ensures too_late { TooLate }
{}

/// The first broken rule where a node is merged by other marks, an act is committed that is not
/// due, another plan is published, or the search stops although there are ids enough.
pub fn wrong_deeds()
    ensures missing_mark { MissingMark }
    ensures nothing_due { NothingDue }
    ensures later_plan { LaterPlan }
    ensures not_full { NotFull }
{}
