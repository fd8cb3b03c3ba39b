ghost use Rattle.std.specs.Prelude.{◌≡◌, ℕ, not, ◌&&◌, ◌||◌, length};
ghost use Rattle.std.specs.List.{list_any};
ghost use Rattle.tp_spec.specs.Items.{is_durative as lasts};
ghost use Rattle.tp_spec.specs.Words.{is_start_of, is_end_of};
ghost use Rattle.world_state.specs.Rows.{is_in_row, has_place, width, words_for, Loses, Takes};
ghost use Rattle.node_state.specs.Readings.{begins};

use tp_spec::{Item, Kind, Problem};
use world_state::BitRow;

/// Makes of what runs before a group what runs after it: what ran and did not end, and what started
/// and lasts.
pub(crate) fn run_on(running: &mut BitRow, problem: &Problem, group: &[Item])
    requires wide { width running.old ≡ words_for (length problem.now.actions) }
    ensures wide { width running.new ≡ width running.old }
    ensures runs { (a : ℕ) → is_in_row running.new a
        ≡ ((list_any (is_start_of a) group.now && lasts problem.now a)
        || (is_in_row running.old a && not (list_any (is_end_of a) group.now))) }
{
    take_ended(running, group);
    put_started(running, problem, group);
}

/// Takes out the actions that end in a group.
fn take_ended(running: &mut BitRow, group: &[Item])
    ensures { Loses running.old running.new (λ a. list_any (is_end_of a) group.now) }
{
    for item in group {
        take_one(running, *item);
    }
}

fn take_one(running: &mut BitRow, item: Item)
    ensures { Loses running.old running.new (λ a. is_end_of a item) }
{
    match item {
        Item::TimedAt(_) => {}
        Item::End(action) => running.remove(action),
        Item::Start(_) => {}
    }
}

/// Puts in the actions that start in a group and last.
fn put_started(running: &mut BitRow, problem: &Problem, group: &[Item])
    ensures { Takes running.old running.new (λ a. list_any (begins problem.now a) group.now) }
{
    for item in group {
        put_one(running, problem, *item);
    }
}

fn put_one(running: &mut BitRow, problem: &Problem, item: Item)
    ensures { Takes running.old running.new (λ a. begins problem.now a item) }
{
    match item {
        Item::TimedAt(_) => {}
        Item::End(_) => {}
        Item::Start(action) => {
            if is_durative(problem, action) {
                running.insert(action);
            }
        }
    }
}

/// Whether an action of the problem has a length.
fn is_durative(problem: &Problem, action: u32) -> bool
    ensures { result ≡ lasts problem.now action }
{
    match problem.action(action) {
        Some(found) => match found.kind {
            Kind::Instant => false,
            Kind::Durative { .. } => true,
        },
        None => false,
    }
}
