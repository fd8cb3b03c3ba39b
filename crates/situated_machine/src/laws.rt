ghost use Rattle.situated_machine.specs.Laws.{RunsAreFounded, FoundedAreRuns, OneAnswer, RunsReplayWhole, RunsAreNotBroken, KeptLeadToOrder, OneSetOfMarks, OneDueAct, OnePlan};
ghost use Rattle.tp_laws.specs.Plans.{OfFormed};

/// A history is a run exactly where none of its events breaks a rule, and each Drop and each
/// Exhaust stands where no plan that it gives up is possible.
pub fn rules_and_runs()
    ensures kept { OfFormed RunsAreFounded }
    ensures whole { OfFormed FoundedAreRuns }
{}

/// A history has at most one answer.
pub fn one_answer()
    ensures { OneAnswer }
{}

/// The answer to a run is the number of its events, and no run is broken anywhere.
pub fn answers_to_runs()
    ensures whole { OfFormed RunsReplayWhole }
    ensures unbroken { OfFormed RunsAreNotBroken }
{}

/// Behind a history whose events break no rule the commitments are in turn, in range and few, the
/// clock is within the horizon and one tick, ids tell nodes apart and are in bounds, and words were
/// live at first and are no longer than their ids; also where a Drop is not founded.
pub fn states_of_kept_histories()
    ensures { OfFormed KeptLeadToOrder }
{}

/// What a rule asks for is one thing alone: the live marks of a word, the act that is due, and the
/// plan of a word's least schedule.
pub fn what_rules_ask_is_one()
    ensures marks { OfFormed OneSetOfMarks }
    ensures due { OfFormed OneDueAct }
    ensures plan { OfFormed OnePlan }
{}
