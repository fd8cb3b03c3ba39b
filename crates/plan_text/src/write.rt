ghost use Rattle.std.specs.Prelude.{◌≡◌, ◌+◌, ◌^◌, ◌<◌, ◌==◌, ◌++◌, IfOk, OnOk, codes, decimal, drop, slice_get, if◌then◌else◌, [], take};
ghost use Rattle.std.specs.List.{flat_map};
ghost use Rattle.pddl_tokens.specs.Numbers.{IsScale};
ghost use Rattle.tp_spec.specs.Items.{is_durative};
ghost use Rattle.tp_spec.specs.Texts.{tick_text, name_text, act_text, plan_text};

use line_text::{push_bytes, push_tick};
use std::alloc::Global;
use tp_spec::{Action, Kind, NoMemory, Plan, Problem, Timed};

/// How many ticks are in the problem's unit of time.
pub fn scale_of(problem: &Problem) -> u32
    ensures scale { result ≡ problem.now.scale }
    ensures known { IsScale result }
    ensures some { 0 < result }
{
    problem.scale
}

/// The name of an action, by its index; none where there is no such action.
fn push_name(text: &mut Vec<u8>, problem: &Problem, action: u32) -> Result<(), NoMemory>
    ensures { OnOk result (text.new.items ≡ text.old.items ++ name_text problem.now action) }
{
    match problem.actions.as_slice().get(action as usize) {
        Some(action) => push_bytes(text, action.name.as_str().as_bytes()),
        None => Ok(()),
    }
}

/// Whether an action, by its index, is durative.
fn is_durative(problem: &Problem, action: u32) -> bool
    ensures { result ≡ is_durative problem.now action }
{
    match problem.actions.as_slice().get(action as usize) {
        Some(action) => matches!(&action.kind, Kind::Durative { .. }),
        None => false,
    }
}

/// Puts a length in brackets behind a text.
fn push_length(text: &mut Vec<u8>, scale: u32, length: u64) -> Result<(), NoMemory>
    requires { 0 < scale }
    ensures { OnOk result (text.new.items ≡ text.old.items
        ++ (codes " [" ++ tick_text scale length ++ codes "]")) }
{
    push_bytes(text, b" [")?;
    push_tick(text, scale, length)?;
    push_bytes(text, b"]")
}

/// Puts an act behind a text: `START: (NAME)`, and for a durative action ` [LENGTH]` behind it.
/// Where memory is refused, a part of it may stand there.
///
/// The form of PDDL plan lines.
pub fn push_act(text: &mut Vec<u8>, problem: &Problem, act: &Timed) -> Result<(), NoMemory>
    ensures { OnOk result (text.new.items ≡ text.old.items ++ act_text problem.now act.now) }
{
    let scale = scale_of(problem);
    push_tick(text, scale, act.start)?;
    push_bytes(text, b": (")?;
    push_name(text, problem, act.action)?;
    push_bytes(text, b")")?;
    if is_durative(problem, act.action) {
        push_length(text, scale, act.length)
    } else {
        Ok(())
    }
}

/// Puts acts behind a text, a line each.
fn push_acts(text: &mut Vec<u8>, problem: &Problem, acts: &[Timed]) -> Result<(), NoMemory>
    ensures { OnOk result (text.new.items ≡ text.old.items
        ++ flat_map (λ x. act_text problem.now x ++ codes "\n") acts.now) }
{
    for act in acts {
        push_act(text, problem, act)?;
        push_bytes(text, b"\n")?;
    }
    Ok(())
}

/// The text of a plan: a line `plan`, a line for each act in order, and a line `end` with the tick
/// at which it ends.
pub fn write_plan(alloc: Global, problem: &Problem, plan: &Plan) -> Result<Vec<u8>, NoMemory>
    ensures { IfOk result (λ t. t.items ≡ plan_text problem.now plan.now) }
{
    let mut text = Vec::new(alloc);
    push_bytes(&mut text, b"plan\n")?;
    push_acts(&mut text, problem, plan.acts.as_slice())?;
    push_bytes(&mut text, b"end ")?;
    push_tick(&mut text, scale_of(problem), plan.end)?;
    push_bytes(&mut text, b"\n")?;
    Ok(text)
}
