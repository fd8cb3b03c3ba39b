ghost use Rattle.run_laws.specs.Histories.{EndsInParts, LegalInParts, RunsLeadToTrees, OpenNodesStand, TakesKeepIds};
ghost use Rattle.tp_laws.specs.Plans.{OfFormed};

/// A history in two parts leads where its second part leads from the state behind the first, and
/// its events are legal exactly where those of both parts are.
pub fn histories_in_parts()
    ensures ends { EndsInParts }
    ensures legal { LegalInParts }
{}

/// In each state of a run the commitments are in turn, in range and few, the clock is within the
/// horizon and one tick, ids tell nodes apart, words were live at first and are no longer than
/// their ids, the plans that are still possible are covered, and ids are in bounds.
pub fn states_of_runs()
    ensures { OfFormed RunsLeadToTrees }
{}

/// An open node stands, and keeps its id when it is taken.
pub fn takes_of_nodes()
    ensures open_stand { OpenNodesStand }
    ensures ids { TakesKeepIds }
{}
