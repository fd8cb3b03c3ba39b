ghost use Rattle.std.specs.Prelude.{◌≡◌, ◌&&◌, not};
ghost use Rattle.std.specs.List.{list_all};
ghost use Rattle.tp_spec.specs.Items.{is_durative_kind};
ghost use Rattle.tp_spec.specs.Lists.{is_empty};
ghost use Rattle.tp_spec.specs.Plain.{is_plain as is_plain_of, is_plain_action as is_plain_action_of, is_literal as is_literal_of};

use tp_spec::{Action, Cond, Kind, Problem};

/// Whether every action of a problem is instant, and there are no fluents, no timed items and no
/// comparisons.
pub fn is_plain(problem: &Problem) -> bool
    ensures { result ≡ is_plain_of problem.now }
{
    is_still(problem)
        && are_plain_actions(problem.actions.as_slice())
        && are_literals(problem.goal.as_slice())
}

/// Whether there are no fluents and no timed items.
fn is_still(problem: &Problem) -> bool
    ensures { result ≡ (is_empty problem.now.fluents && is_empty problem.now.timed) }
{
    problem.fluents.as_slice().is_empty() && problem.timed.as_slice().is_empty()
}

fn are_plain_actions(actions: &[Action]) -> bool
    ensures { result ≡ list_all is_plain_action_of actions.now }
{
    actions.iter().all(|action| is_plain_action(action))
}

fn is_plain_action(action: &Action) -> bool
    ensures { result ≡ is_plain_action_of action.now }
{
    is_instant(&action.kind) && are_literals(action.start_conds.as_slice())
}

fn is_instant(kind: &Kind) -> bool
    ensures { result ≡ not (is_durative_kind kind.now) }
{
    match kind {
        Kind::Instant => true,
        Kind::Durative { .. } => false,
    }
}

fn are_literals(conds: &[Cond]) -> bool
    ensures { result ≡ list_all is_literal_of conds.now }
{
    conds.iter().all(|cond| is_literal(cond))
}

fn is_literal(cond: &Cond) -> bool
    ensures { result ≡ is_literal_of cond.now }
{
    match cond {
        Cond::Lit { .. } => true,
        Cond::Compare { .. } => false,
    }
}
