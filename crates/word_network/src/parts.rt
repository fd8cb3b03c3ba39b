ghost use Rattle.std.specs.Prelude.{◌≡◌, ◌+◌, ◌-◌, ◌<◌, ◌≤◌, ◌^◌, ◌++◌, ◌∷◌, [], ◌&&◌, ◌==◌, not, is_some, Some, None, if◌then◌else◌, length, map, IfOk, OnOk};
ghost use Rattle.tp_spec.specs.Items.{is_durative as lasts};
ghost use Rattle.tp_spec.specs.Words.{with_act, ended, timed_group};
ghost use Rattle.word_network.specs.Parts.{act_of, ArePartsOf};

use std::alloc::Global;
use tp_spec::{Item, Kind, Mark, NoMemory, Problem};

/// An act of a word: its action's index, the group in which it starts, and the one in which it
/// ends, or none while it runs.
#[derive(Clone, Copy, Debug, PartialEq, Eq)]
pub struct WordAct {
    pub action: u32,
    pub opens: u32,
    pub closes: Option<u32>,
}

/// What a network is made of: how many groups a word has, its acts in order of their starts, and
/// the groups of its timed items in order.
#[derive(Drop)]
pub struct WordParts {
    pub groups: u32,
    pub acts: Vec<WordAct>,
    pub timed: Vec<u32>,
}

/// Walks a word once.
pub fn parts_of(alloc: Global, problem: &Problem, word: &[Mark]) -> Result<WordParts, NoMemory>
    requires { length word.now < 2 ^ 31 }
    ensures parts { IfOk result (λ r. ArePartsOf problem.now word.now r) }
    ensures groups { IfOk result (λ r. r.groups < 2 ^ 31) }
    ensures acts { IfOk result (λ r. length r.acts.items < 2 ^ 31) }
{
    let mut groups: u32 = 0;
    let mut acts = Vec::new(alloc);
    let mut timed = Vec::new(alloc);
    for mark in word {
        if mark.fresh {
            groups += 1;
        }
        read_item(
            problem,
            &mut acts,
            &mut timed,
            groups.saturating_sub(1),
            mark.item,
        )?;
    }
    Ok(WordParts {
        groups,
        acts,
        timed,
    })
}

/// Reads an item of a group.
fn read_item(
    problem: &Problem,
    acts: &mut Vec<WordAct>,
    timed: &mut Vec<u32>,
    group: u32,
    item: Item,
) -> Result<(), NoMemory>
    ensures acts { OnOk result (map act_of acts.new.items
        ≡ with_act problem.now group item (map act_of acts.old.items)) }
    ensures timed { OnOk result (timed.new.items ≡ timed.old.items ++ timed_group group item) }
    ensures few { OnOk result (length acts.new.items ≤ length acts.old.items + 1) }
{
    match item {
        Item::TimedAt(_) => match timed.push(group) {
            Ok(()) => Ok(()),
            Err(_) => Err(NoMemory),
        },
        Item::End(action) => {
            end_act(acts, action, group);
            Ok(())
        }
        Item::Start(action) => start_act(acts, action, group, is_durative(problem, action)),
    }
}

fn start_act(
    acts: &mut Vec<WordAct>,
    action: u32,
    group: u32,
    lasting: bool,
) -> Result<(), NoMemory>
    ensures few { OnOk result (length acts.new.items ≡ length acts.old.items + 1) }
    ensures acts { OnOk result (map act_of acts.new.items ≡ map act_of acts.old.items
        ++ record {
          action = action;
          opens = group;
          closes = (if lasting then None else Some group);
        } ∷ []) }
{
    let closes = if lasting { None } else { Some(group) };
    match acts.push(WordAct {
        action,
        opens: group,
        closes,
    }) {
        Ok(()) => Ok(()),
        Err(_) => Err(NoMemory),
    }
}

/// The running act of an action ends.
fn end_act(acts: &mut [WordAct], action: u32, group: u32)
    ensures { map act_of acts.new ≡ ended action group (map act_of acts.old) }
{
    for i in 0..acts.len() {
        if runs(&acts[i], action) {
            acts[i].closes = Some(group);
            return;
        }
    }
}

fn runs(act: &WordAct, action: u32) -> bool
    ensures { result ≡ (not (is_some act.now.closes) && (act.now.action == action)) }
{
    act.closes.is_none() && act.action == action
}

/// Whether an action of the problem has a length.
fn is_durative(problem: &Problem, action: u32) -> bool
    ensures { result ≡ lasts problem.now action }
{
    match problem.actions.as_slice().get(action as usize) {
        Some(found) => match found.kind {
            Kind::Instant => false,
            Kind::Durative { .. } => true,
        },
        None => false,
    }
}
