ghost use Rattle.std.specs.Prelude.{◌≡◌, Bool, ◌==◌};
ghost use Rattle.std.specs.List.{list_any};
ghost use Rattle.grounder.specs.Sources.{source_of};
ghost use Rattle.grounder.specs.Rigid.{makes, writes, has_effect, is_static_predicate, is_static_function};

use crate::sources::Source;
use pddl_domain::Schema;
use pddl_meaning::Change;
use pddl_problem::Dated;

/// Whether an effect names this predicate.
fn makes(predicate: u32, change: &Change) -> bool
    ensures { result ≡ makes predicate change.now }
{
    match change {
        Change::Lit { atom, .. } => atom.head == predicate,
        Change::Update { .. } => false,
    }
}

/// Whether an effect writes this function.
fn writes(function: u32, change: &Change) -> bool
    ensures { result ≡ writes function change.now }
{
    match change {
        Change::Lit { .. } => false,
        Change::Update { target, .. } => target.head == function,
    }
}

fn any_makes(predicate: u32, changes: &[Change]) -> bool
    ensures { result ≡ list_any (makes predicate) changes.now }
{
    changes.iter().any(|change| makes(predicate, change))
}

fn any_writes(function: u32, changes: &[Change]) -> bool
    ensures { result ≡ list_any (writes function) changes.now }
{
    changes.iter().any(|change| writes(function, change))
}

fn action_makes(predicate: u32, schema: &Schema) -> bool
    ensures { result ≡ has_effect (makes predicate) schema.now }
{
    any_makes(predicate, schema.start_effects.as_slice())
        || any_makes(predicate, schema.end_effects.as_slice())
}

fn action_writes(function: u32, schema: &Schema) -> bool
    ensures { result ≡ has_effect (writes function) schema.now }
{
    any_writes(function, schema.start_effects.as_slice())
        || any_writes(function, schema.end_effects.as_slice())
}

fn some_action_makes(predicate: u32, actions: &[Schema]) -> bool
    ensures { result ≡ list_any (has_effect (makes predicate)) actions.now }
{
    actions.iter().any(|schema| action_makes(predicate, schema))
}

fn some_action_writes(function: u32, actions: &[Schema]) -> bool
    ensures { result ≡ list_any (has_effect (writes function)) actions.now }
{
    actions.iter().any(|schema| action_writes(function, schema))
}

fn is_dated(predicate: u32, timed: &[Dated]) -> bool
    ensures { result ≡ list_any (λ d. d.atom.head == predicate) timed.now }
{
    timed.iter().any(|dated| dated.atom.head == predicate)
}

/// Whether no effect and no timed literal names a predicate.
pub fn is_static_predicate(source: &Source, predicate: u32) -> bool
    ensures { result ≡ is_static_predicate (source_of source.now) predicate }
{
    !some_action_makes(predicate, source.domain.actions.as_slice())
        && !is_dated(predicate, source.task.timed.as_slice())
}

/// Whether no effect writes a function.
pub fn is_static_function(source: &Source, function: u32) -> bool
    ensures { result ≡ is_static_function (source_of source.now) function }
{
    !some_action_writes(function, source.domain.actions.as_slice())
}
