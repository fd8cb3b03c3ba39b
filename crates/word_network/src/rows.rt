ghost use Rattle.std.specs.Prelude.{◌≡◌, ◌+◌, ◌-◌, ◌<◌, ◌≤◌, ◌^◌, ◌++◌, ◌∷◌, [], length, map, IfOk, OnOk, pos, ◌-ℤ◌};
ghost use Rattle.std.specs.List.{flat_map};
ghost use Rattle.word_rows.specs.Rows.{rise_rows, length_rows, open_acts, place, end_of, least_length, most_length};
ghost use Rattle.word_network.specs.Parts.{act_of};

use crate::parts::WordAct;
use std::alloc::Global;
use tick_network::Row;
use tp_spec::{Kind, NoMemory, Problem};

/// All rows of a word, by the number of its groups and its acts.
pub fn rows_of_acts(
    alloc: Global,
    problem: &Problem,
    groups: u32,
    acts: &[WordAct],
) -> Result<Vec<Row>, NoMemory>
    requires groups { groups < 2 ^ 31 }
    requires acts { length acts.now < 2 ^ 31 }
    ensures { IfOk result (λ v. v.items ≡ rise_rows (groups - 1)
        ++ flat_map (length_rows problem.now groups (open_acts (map act_of acts.now)))
        (map act_of acts.now)) }
{
    let mut rows = rows_of_groups(alloc, groups)?;
    for act in acts {
        push_act(problem, groups, acts, act, &mut rows)?;
    }
    Ok(rows)
}

/// Each group stands before the next one; the last pair first, so that one look lowers them all.
fn rows_of_groups(alloc: Global, groups: u32) -> Result<Vec<Row>, NoMemory>
    ensures { IfOk result (λ v. v.items ≡ rise_rows (groups - 1)) }
{
    let mut rows = Vec::new(alloc);
    let mut left = groups.saturating_sub(1);
    while left > 0 {
        left -= 1;
        push_row(&mut rows, left, left + 1, -1)?;
    }
    Ok(rows)
}

/// Puts the rows of an act behind the others.
fn push_act(
    problem: &Problem,
    groups: u32,
    acts: &[WordAct],
    act: &WordAct,
    rows: &mut Vec<Row>,
) -> Result<(), NoMemory>
    requires groups { groups < 2 ^ 31 }
    requires acts { length acts.now < 2 ^ 31 }
    ensures { OnOk result (rows.new.items ≡ rows.old.items
        ++ length_rows problem.now groups (open_acts (map act_of acts.now)) (act_of act.now)) }
{
    let (least, most) = range_of(problem, act.action);
    let end = end_of_act(groups, acts, act);
    push_length(rows, act.opens, end, least, most)?;
    match act.closes {
        Some(_) => Ok(()),
        None => push_row(rows, groups.saturating_sub(1), end, 0),
    }
}

/// Puts the two rows on a length behind the others.
fn push_length(
    rows: &mut Vec<Row>,
    start: u32,
    end: u32,
    least: u64,
    most: u64,
) -> Result<(), NoMemory>
    requires least { least ≤ 2 ^ 40 }
    requires most { most ≤ 2 ^ 40 }
    ensures { OnOk result (rows.new.items ≡ rows.old.items
        ++ record { y = end; x = start; w = pos most }
        ∷ record { y = start; x = end; w = pos 0 -ℤ pos least } ∷ []) }
{
    push_row(rows, end, start, most as i64)?;
    push_row(rows, start, end, 0 - least as i64)
}

fn push_row(rows: &mut Vec<Row>, y: u32, x: u32, w: i64) -> Result<(), NoMemory>
    ensures { OnOk result (rows.new.items
        ≡ rows.old.items ++ record { y = y; x = x; w = w } ∷ []) }
{
    match rows.push(Row { y, x, w }) {
        Ok(()) => Ok(()),
        Err(_) => Err(NoMemory),
    }
}

/// The least and the greatest length of an action; both are 0 where it is instant.
fn range_of(problem: &Problem, action: u32) -> (u64, u64)
    ensures least { result.0 ≡ least_length problem.now action }
    ensures most { result.1 ≡ most_length problem.now action }
    ensures least_fits { result.0 ≤ 2 ^ 40 }
    ensures most_fits { result.1 ≤ 2 ^ 40 }
{
    match problem.actions.as_slice().get(action as usize) {
        Some(found) => match found.kind {
            Kind::Instant => (0, 0),
            Kind::Durative { least, most } => (least, most),
        },
        None => (0, 0),
    }
}

/// The variable of an act's end.
pub fn end_of_act(groups: u32, acts: &[WordAct], act: &WordAct) -> u32
    requires groups { groups < 2 ^ 31 }
    requires acts { length acts.now < 2 ^ 31 }
    ensures { result ≡ end_of groups (open_acts (map act_of acts.now)) (act_of act.now) }
{
    match act.closes {
        Some(group) => group,
        None => groups + place_of(acts, act.action),
    }
}

/// How many acts run.
pub fn open_count(acts: &[WordAct]) -> usize
    requires { length acts.now < 2 ^ 31 }
    ensures count { result ≡ length (open_acts (map act_of acts.now)) }
    ensures few { result < 2 ^ 31 }
{
    let mut count = 0;
    for act in acts {
        match act.closes {
            Some(_) => {}
            None => count += 1,
        }
    }
    count
}

/// Where the running act of an action stands among the running ones.
fn place_of(acts: &[WordAct], action: u32) -> u32
    requires { length acts.now < 2 ^ 31 }
    ensures place { result ≡ place action (open_acts (map act_of acts.now)) }
    ensures few { result < 2 ^ 31 }
{
    let mut passed = 0;
    for act in acts {
        match act.closes {
            Some(_) => {}
            None => {
                if act.action == action {
                    return passed;
                }
                passed += 1;
            }
        }
    }
    passed
}
