ghost use Rattle.std.specs.Prelude.{◌≡◌, ◌^◌, ◌<◌, ◌==◌, length, not, IfOk};
ghost use Rattle.std.specs.List.{filter};
ghost use Rattle.script_text.specs.Playable.{IsPlayable};
ghost use Rattle.script_text.specs.Reading.{Steps, Turns};
ghost use Rattle.script_text.specs.Scripts.{is_holder, turn, IsScript};

use crate::script::{ScriptFault, ScriptLine, Verb};
use crate::words::line_of;
use line_text::cut_line;
use std::alloc::Global;
use tp_spec::List;

/// Whether an actor is among those who hold a job.
fn is_holder(holders: &[u32], actor: u32) -> bool
    ensures { result ≡ is_holder holders.now actor }
{
    holders.iter().any(|holder| *holder == actor)
}

/// Takes an actor out of those who hold a job.
fn release(holders: &mut Vec<u32>, actor: u32)
    ensures { holders.new.items ≡ filter (λ a. not (a == actor)) holders.old.items }
{
    holders.retain(|holder| *holder != actor);
}

/// Who holds a job behind a line, where `holders` held one before it; or the fault of the line.
fn turn(number: u32, holders: &mut Vec<u32>, verb: Verb, actor: u32) -> Result<(), ScriptFault>
    ensures { Turns (turn number holders.old.items verb actor) result holders.new.items }
{
    match verb {
        Verb::Take => {
            if is_holder(holders, actor) {
                return Err(ScriptFault::Holding { number });
            }
            match holders.push(actor) {
                Ok(()) => Ok(()),
                Err(_) => Err(ScriptFault::NoMemory),
            }
        }
        Verb::Merge => {
            if !is_holder(holders, actor) {
                return Err(ScriptFault::Idle { number });
            }
            release(holders, actor);
            Ok(())
        }
        Verb::Look => Ok(()),
    }
}

/// What the line of this number says, or its fault; `holders` are then those who hold a job behind
/// it.
fn next_line(number: u32, holders: &mut Vec<u32>, text: &[u8]) -> Result<ScriptLine, ScriptFault>
    ensures { Steps number holders.old.items text.now result holders.new.items }
{
    match line_of(text) {
        Some(line) => match turn(number, holders, line.verb, line.actor) {
            Ok(()) => Ok(line),
            Err(fault) => Err(fault),
        },
        None => Err(ScriptFault::Line { number }),
    }
}

/// The lines of a script, or the fault of the first line that has one.
fn lines_of(alloc: Global, text: &[u8]) -> Result<List<ScriptLine>, ScriptFault>
    requires { length text.now < 2 ^ 31 }
    ensures { IsScript text.now result }
{
    let mut lines = List::new(alloc);
    let mut holders = Vec::new(alloc);
    let mut number = 1;
    let mut rest = text;
    'lines: loop {
        match cut_line(rest) {
            Some((piece, behind)) => {
                match next_line(number, &mut holders, piece) {
                    Ok(line) => {
                        if lines.push(line).is_err() {
                            return Err(ScriptFault::NoMemory);
                        }
                    }
                    Err(fault) => return Err(fault),
                }
                number += 1;
                rest = behind;
            }
            None => {
                if rest.is_empty() {
                    return Ok(lines);
                }
                return Err(ScriptFault::Line { number });
            }
        }
    }
}

/// Reads a script: lines `READING VERB ACTOR` with one space between, each ended by a line feed.
/// READING is 1 to 20 digits with a value below 2^64, in ticks; VERB is `take`, `merge` or `look`;
/// ACTOR is one digit, 0 to 8 for `look` and 1 to 8 for the others. The empty text is a script.
///
/// A fault is that of the first line that has one: `Line` where it has not this form, also a last
/// piece without a line feed, whatever it says; else `Holding` or `Idle`. `NoMemory` where memory
/// was refused.
pub fn read_script(alloc: Global, text: &[u8]) -> Result<List<ScriptLine>, ScriptFault>
    requires { length text.now < 2 ^ 31 }
    ensures read { IsScript text.now result }
    ensures playable { IfOk result (λ lines. IsPlayable lines) }
{
    lines_of(alloc, text)
}
