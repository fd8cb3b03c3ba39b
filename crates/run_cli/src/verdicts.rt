ghost use Rattle.std.specs.Prelude.{◌≡◌, ◌++◌, Some, IfOk, OnOk, codes, decimal};
ghost use Rattle.line_text.specs.Written.{item_text};
ghost use Rattle.run_cli.specs.VerdictTexts.{verdict_text, ground_line, plan_line};

use line_text::{push_bytes, push_item, push_number};
use plan_text::PlanFault;
use plan_validator::Verdict;
use std::alloc::Global;
use tp_spec::{Item, LineFault, NoMemory};

/// A line of words and a number, with what follows it.
pub fn numbered(alloc: Global, words: &[u8], number: u64, end: &[u8]) -> Result<Vec<u8>, NoMemory>
    ensures { IfOk result (λ t. t.items ≡ words.now ++ decimal number ++ end.now) }
{
    let mut text = Vec::new(alloc);
    push_bytes(&mut text, words)?;
    push_number(&mut text, number)?;
    push_bytes(&mut text, end)?;
    Ok(text)
}

/// A line of words and two numbers.
fn twice_numbered(alloc: Global, words: &[u8], first: u64, second: u32) -> Result<Vec<u8>, NoMemory>
    ensures { IfOk result (λ t. t.items ≡ words.now ++ decimal first ++ codes " " ++ decimal second
        ++ codes "\n") }
{
    let mut text = numbered(alloc, words, first, b" ")?;
    push_number(&mut text, u64::from(second))?;
    push_bytes(&mut text, b"\n")?;
    Ok(text)
}

fn clash_text(alloc: Global, tick: u64, a: Item, b: Item) -> Result<Vec<u8>, NoMemory>
    ensures { IfOk result (λ t. t.items ≡ codes "invalid Clash " ++ decimal tick ++ codes " "
        ++ item_text a ++ codes " " ++ item_text b ++ codes "\n") }
{
    let mut text = numbered(alloc, b"invalid Clash ", tick, b" ")?;
    push_item(&mut text, a)?;
    push_bytes(&mut text, b" ")?;
    push_item(&mut text, b)?;
    push_bytes(&mut text, b"\n")?;
    Ok(text)
}

fn unmet_text(alloc: Global, tick: u64, item: Item) -> Result<Vec<u8>, NoMemory>
    ensures { IfOk result (λ t. t.items ≡ codes "invalid Unmet " ++ decimal tick ++ codes " "
        ++ item_text item ++ codes "\n") }
{
    let mut text = numbered(alloc, b"invalid Unmet ", tick, b" ")?;
    push_item(&mut text, item)?;
    push_bytes(&mut text, b"\n")?;
    Ok(text)
}

fn valid_text(alloc: Global) -> Result<Vec<u8>, NoMemory>
    ensures { IfOk result (λ t. t.items ≡ codes "valid\n") }
{
    let mut text = Vec::new(alloc);
    push_bytes(&mut text, b"valid\n")?;
    Ok(text)
}

/// What is printed of a verdict: the line `valid`, or `invalid` with its name and its numbers in
/// order. Ticks are printed as ticks at every scale, a timed item, an end and a start as `Tk`, `Ea`
/// and `Sa` by their indices.
pub fn verdict_text(alloc: Global, verdict: Verdict) -> Result<Vec<u8>, NoMemory>
    ensures { IfOk result (λ t. t.items ≡ verdict_text verdict) }
{
    match verdict {
        Verdict::Valid => valid_text(alloc),
        Verdict::TooLong { acts } => {
            numbered(alloc, b"invalid TooLong ", u64::from(acts), b"\n")
        }
        Verdict::TwiceAt { start, action } => {
            twice_numbered(alloc, b"invalid TwiceAt ", start, action)
        }
        Verdict::LengthOut { start, action } => {
            twice_numbered(alloc, b"invalid LengthOut ", start, action)
        }
        Verdict::Overlap { start, action } => {
            twice_numbered(alloc, b"invalid Overlap ", start, action)
        }
        Verdict::EndOff { end } => numbered(alloc, b"invalid EndOff ", end, b"\n"),
        Verdict::Clash { tick, a, b } => clash_text(alloc, tick, a, b),
        Verdict::Unmet { tick, item } => unmet_text(alloc, tick, item),
        Verdict::Overflow { tick, fluent } => {
            twice_numbered(alloc, b"invalid Overflow ", tick, fluent)
        }
        Verdict::Broken { tick, action } => {
            twice_numbered(alloc, b"invalid Broken ", tick, action)
        }
        Verdict::GoalUnmet { part } => {
            numbered(alloc, b"invalid GoalUnmet ", u64::from(part), b"\n")
        }
    }
}

/// The line for a ground text that is refused, with the number that `read_problem_text` tells.
pub fn ground_line(alloc: Global, fault: LineFault) -> Result<Vec<u8>, NoMemory>
    ensures { IfOk result (λ t. ground_line fault ≡ Some t.items) }
{
    match fault {
        LineFault::Line { number } => {
            numbered(alloc, b"refused ground ", u64::from(number), b" Line\n")
        }
        LineFault::NoMemory => Err(NoMemory),
    }
}

/// The line for a plan file that is refused, with its first line that has a fault.
pub fn plan_line(alloc: Global, fault: PlanFault) -> Result<Vec<u8>, NoMemory>
    ensures { IfOk result (λ t. plan_line fault ≡ Some t.items) }
{
    let (line, end): (u32, &[u8]) = match fault {
        PlanFault::Shape { line } => (line, b" Shape\n"),
        PlanFault::UnknownAction { line } => (line, b" UnknownAction\n"),
        PlanFault::NotWhole { line } => (line, b" NotWhole\n"),
        PlanFault::TooLarge { line } => (line, b" TooLarge\n"),
        PlanFault::NoMemory => return Err(NoMemory),
    };
    numbered(alloc, b"refused plan ", u64::from(line), end)
}
