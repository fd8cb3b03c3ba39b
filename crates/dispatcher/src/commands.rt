ghost use Rattle.std.specs.Prelude.{◌≡◌, IfOk};
ghost use Rattle.dispatcher.specs.Sending.{GivesSent, GivesOne};
ghost use Rattle.tp_spec.specs.Texts.{command_text as command_line};

use line_text::push_bytes;
use plan_text::push_act;
use std::alloc::Global;
use tp_spec::{NoMemory, Problem, Timed};
use tp_world::{SendFault, Sink};

/// The command line of an act: `do START: (NAME)`, for a durative action ` [LENGTH]` behind it, and
/// a line feed. START and LENGTH are in the problem's unit of time.
pub fn command_text(alloc: Global, problem: &Problem, act: &Timed) -> Result<Vec<u8>, NoMemory>
    ensures { IfOk result (λ t. t.items ≡ command_line problem.now act.now) }
{
    let mut text = Vec::new(alloc);
    push_bytes(&mut text, b"do ")?;
    push_act(&mut text, problem, act)?;
    push_bytes(&mut text, b"\n")?;
    Ok(text)
}

/// Sends the command line of one act, in one put.
fn send_one<O: Sink>(
    alloc: Global,
    problem: &Problem,
    out: &mut O,
    act: &Timed,
) -> Result<(), SendFault>
    ensures { GivesOne problem.now act.now (O.view out.old) (O.view out.new) result }
{
    match command_text(alloc, problem, act) {
        Ok(line) => out.put(&line),
        Err(NoMemory) => Err(SendFault::NoMemory),
    }
}

/// Sends the command line of each act, one put an act, in order, up to the first that is refused.
/// `Failed` where its put failed, behind some of its bytes or none; `NoMemory` where memory was
/// refused for it, and then none of its bytes went out.
pub fn send<O: Sink>(
    alloc: Global,
    problem: &Problem,
    out: &mut O,
    acts: &[Timed],
) -> Result<(), SendFault>
    ensures { GivesSent problem.now acts.now (O.view out.old) (O.view out.new) result }
{
    for act in acts {
        match send_one(alloc, problem, out, act) {
            Ok(()) => {}
            Err(fault) => return Err(fault),
        }
    }
    Ok(())
}
