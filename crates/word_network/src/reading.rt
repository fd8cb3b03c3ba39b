ghost use Rattle.std.specs.Prelude.{◌≡◌, ◌+◌, ◌<◌, ◌≤◌, ◌^◌, ◌++◌, ◌∷◌, [], map, length, slice_index, take, IfOk, OnOk};
ghost use Rattle.word_rows.specs.Rows.{open_acts};
ghost use Rattle.word_network.specs.Parts.{act_of};
ghost use Rattle.word_network.specs.Schedules.{ends_from, last_of, timed_by};

use crate::parts::{WordAct, WordParts};
use crate::rows::end_of_act;
use crate::schedule::{Latest, OpenEnd};
use std::alloc::Global;
use tp_spec::{List, NoMemory, Plan, Timed};

/// The schedule that ticks of a word's variables are: those of its groups, and the ends of its
/// running acts.
pub fn latest_of(alloc: Global, parts: &WordParts, ticks: &[u64]) -> Result<Latest, NoMemory>
    requires { parts.now.groups + length (open_acts (map act_of parts.now.acts.items))
        ≤ length ticks.now }
    ensures groups { IfOk result (λ t. t.groups ≡ take parts.now.groups ticks.now) }
    ensures ends { IfOk result (λ t. t.ends ≡ ends_from
        (open_acts (map act_of parts.now.acts.items)) (slice_index ticks.now) parts.now.groups) }
{
    let Ok(groups) = Vec::from_slice(alloc, &ticks[..parts.groups as usize]) else {
        return Err(NoMemory);
    };
    let ends = ends_of(alloc, &parts.acts, ticks, parts.groups as usize)?;
    Ok(Latest {
        groups: List::of(groups),
        ends: List::of(ends),
    })
}

/// The ends of the running acts, whose variables come behind those of the groups.
fn ends_of(
    alloc: Global,
    acts: &[WordAct],
    ticks: &[u64],
    groups: usize,
) -> Result<Vec<OpenEnd>, NoMemory>
    requires { groups + length (open_acts (map act_of acts.now)) ≤ length ticks.now }
    ensures { IfOk result (λ v. v.items ≡ ends_from
        (open_acts (map act_of acts.now)) (slice_index ticks.now) groups) }
{
    let mut ends = Vec::new(alloc);
    let mut at = groups;
    for act in acts {
        match act.closes {
            Some(_) => {}
            None => {
                push_end(&mut ends, act.action, ticks[at])?;
                at += 1;
            }
        }
    }
    Ok(ends)
}

fn push_end(ends: &mut Vec<OpenEnd>, action: u32, end: u64) -> Result<(), NoMemory>
    ensures { OnOk result (ends.new.items
        ≡ ends.old.items ++ record { action = action; end = end } ∷ []) }
{
    match ends.push(OpenEnd { action, end }) {
        Ok(()) => Ok(()),
        Err(_) => Err(NoMemory),
    }
}

/// The plan that ticks of a word's variables are.
pub fn plan_by(alloc: Global, parts: &WordParts, ticks: &[u64]) -> Result<Plan, NoMemory>
    requires groups { parts.now.groups < 2 ^ 31 }
    requires acts { length parts.now.acts.items < 2 ^ 31 }
    ensures acts { IfOk result (λ r. r.acts ≡ map (timed_by parts.now.groups
        (open_acts (map act_of parts.now.acts.items)) (slice_index ticks.now))
        (map act_of parts.now.acts.items)) }
    ensures end { IfOk result (λ r. r.end ≡ last_of (slice_index ticks.now) parts.now.groups) }
{
    let acts = timed_acts(alloc, parts.groups, &parts.acts, ticks)?;
    let end = match parts.groups {
        0 => 0,
        groups => tick_at(ticks, groups - 1),
    };
    Ok(Plan {
        acts: List::of(acts),
        end,
    })
}

fn timed_acts(
    alloc: Global,
    groups: u32,
    acts: &[WordAct],
    ticks: &[u64],
) -> Result<Vec<Timed>, NoMemory>
    requires groups { groups < 2 ^ 31 }
    requires acts { length acts.now < 2 ^ 31 }
    ensures { IfOk result (λ v. v.items ≡ map (timed_by groups
        (open_acts (map act_of acts.now)) (slice_index ticks.now)) (map act_of acts.now)) }
{
    let mut timed = Vec::new(alloc);
    for act in acts {
        push_act(groups, acts, act, ticks, &mut timed)?;
    }
    Ok(timed)
}

fn push_act(
    groups: u32,
    acts: &[WordAct],
    act: &WordAct,
    ticks: &[u64],
    timed: &mut Vec<Timed>,
) -> Result<(), NoMemory>
    requires groups { groups < 2 ^ 31 }
    requires acts { length acts.now < 2 ^ 31 }
    ensures { OnOk result (timed.new.items ≡ timed.old.items ++ timed_by groups
        (open_acts (map act_of acts.now)) (slice_index ticks.now) (act_of act.now) ∷ []) }
{
    let start = tick_at(ticks, act.opens);
    let end = tick_at(ticks, end_of_act(groups, acts, act));
    let found = Timed {
        action: act.action,
        start,
        length: end.saturating_sub(start),
    };
    match timed.push(found) {
        Ok(()) => Ok(()),
        Err(_) => Err(NoMemory),
    }
}

/// The tick of a variable, and 0 past them all.
pub fn tick_at(ticks: &[u64], variable: u32) -> u64
    ensures { result ≡ slice_index ticks.now variable }
{
    match ticks.get(variable as usize) {
        Some(tick) => *tick,
        None => 0,
    }
}
