ghost use Rattle.std.specs.Prelude.{◌≡◌, ℕ, ◌+◌, ◌^◌, ◌<◌, map, length, [], ◌∷◌, ◌++◌, Ok, Err, Some, None, IfOk, OnOk, IfErr, IsTrue, nat_lt, drop, if◌then◌else◌};
ghost use Rattle.std.specs.List.{list_all};
ghost use Rattle.std.specs.List.Sorted.{IsPermutation};
ghost use Rattle.std.specs.Option.{option_map};
ghost use Rattle.tp_spec.specs.Lists.{each_next};
ghost use Rattle.tp_spec.specs.Courses.{act_before};
ghost use Rattle.plan_text.specs.Acts.{act_of, amount_of, Gives};
ghost use Rattle.plan_text.specs.Files.{Numbered, seen, is_skipped, is_remark, first_remark, kept, words, is_head, is_end, headless, endless, end_line, at_number, acts_of, reach, lasts, whole, end_of, with_end, body_plan, written_plan, IsFaultOf, IsReading, IsBounded};

use crate::act_line::{act_of, is_utf8};
use crate::amount::{Amount, amount_of};
use crate::fault::{Fault, PlanFault};
use crate::pieces::{cut, is_all_blank, plain, spaced, uncommented};
use crate::write::scale_of;
use std::alloc::Global;
use tp_spec::{List, NoMemory, Plan, Problem, Timed};

/// A line with its number, from 1.
#[derive(Clone, Copy)]
struct Line<'a> {
    number: u32,
    text: &'a [u8],
}

/// Whether nothing but white space is left of a line without its comment.
fn is_skipped(line: &[u8]) -> bool
    ensures { result ≡ is_skipped line.now }
{
    is_all_blank(uncommented(line))
}

/// Whether a line has a comment alone, and is not UTF-8.
fn is_remark(line: &[u8]) -> bool
    ensures { result ≡ is_remark line.now }
{
    !is_utf8(line) && is_skipped(line)
}

/// The number of the first line that has a comment alone and is not UTF-8.
fn first_remark(text: &[u8]) -> Option<u32>
    requires { length text.now < 2 ^ 31 }
    ensures { result ≡ first_remark text.now }
{
    let mut number = 1;
    let mut rest = text;
    loop {
        match cut(b'\n', rest) {
            Some((line, behind)) => {
                if is_remark(line) {
                    return Some(number);
                }
                number += 1;
                rest = behind;
            }
            None => {
                if is_remark(rest) {
                    return Some(number);
                }
                return None;
            }
        }
    }
}

/// Puts a line behind the others, unless nothing is left of it.
fn keep<'a>(lines: &mut Vec<Line<'a>>, number: u32, text: &'a [u8]) -> Result<(), NoMemory>
    ensures { OnOk result (map seen lines.new.items ≡ map seen lines.old.items
        ++ (if is_skipped text.now then [] else record { number = number; text = text.now } ∷ [])) }
{
    if is_skipped(text) {
        return Ok(());
    }
    match lines.push(Line { number, text }) {
        Ok(()) => Ok(()),
        Err(_) => Err(NoMemory),
    }
}

/// The lines of a text that say something.
fn kept(alloc: Global, text: &[u8]) -> Result<Vec<Line<'_>>, NoMemory>
    requires { length text.now < 2 ^ 31 }
    ensures { IfOk result (λ v. map seen v.items ≡ kept text.now) }
{
    let mut lines = Vec::new(alloc);
    let mut number = 1;
    let mut rest = text;
    loop {
        match cut(b'\n', rest) {
            Some((line, behind)) => {
                keep(&mut lines, number, line)?;
                number += 1;
                rest = behind;
            }
            None => {
                keep(&mut lines, number, rest)?;
                return Ok(lines);
            }
        }
    }
}

/// The words of a line in lower case, with one space between them, without its comment.
fn words(alloc: Global, line: &[u8]) -> Result<Vec<u8>, NoMemory>
    ensures { IfOk result (λ t. t.items ≡ words line.now) }
{
    let text = plain(alloc, line)?;
    spaced(alloc, &text)
}

/// Whether a line is `plan`.
fn is_head(alloc: Global, line: &[u8]) -> Result<bool, NoMemory>
    ensures { IfOk result (λ b. b ≡ is_head line.now) }
{
    if !is_utf8(line) {
        return Ok(false);
    }
    let words = words(alloc, line)?;
    Ok(words.as_slice() == b"plan".as_slice())
}

/// Whether a line begins with the word `end` and has another one.
fn is_end(alloc: Global, line: &[u8]) -> Result<bool, NoMemory>
    ensures { IfOk result (λ b. b ≡ is_end line.now) }
{
    if !is_utf8(line) {
        return Ok(false);
    }
    let words = words(alloc, line)?;
    Ok(words.as_slice().starts_with(b"end "))
}

/// Lines without a first one that is `plan`.
fn headless<'a, 'b>(alloc: Global, lines: &'b [Line<'a>]) -> Result<&'b [Line<'a>], NoMemory>
    ensures { IfOk result (λ r. map seen r.now ≡ headless (map seen lines.now)) }
{
    match lines {
        [first, rest @ ..] => {
            if is_head(alloc, first.text)? {
                Ok(rest)
            } else {
                Ok(lines)
            }
        }
        [] => Ok(lines),
    }
}

/// Lines without a last one that is `end ..`, and that one.
fn split_end<'a, 'b>(
    alloc: Global,
    lines: &'b [Line<'a>],
) -> Result<(&'b [Line<'a>], Option<Line<'a>>), NoMemory>
    ensures body { IfOk result (λ r. map seen r.0.now ≡ endless (map seen lines.now)) }
    ensures end { IfOk result (λ r. option_map seen r.1 ≡ end_line (map seen lines.now)) }
{
    match lines {
        [front @ .., last] => {
            if is_end(alloc, last.text)? {
                Ok((front, Some(*last)))
            } else {
                Ok((lines, None))
            }
        }
        [] => Ok((lines, None)),
    }
}

/// The act of a line, or the fault with the line's number.
fn act_at(alloc: Global, problem: &Problem, line: &Line<'_>) -> Result<Timed, PlanFault>
    ensures act { IfOk result (λ x. act_of problem.now line.now.text.now ≡ Ok x) }
    ensures short { IfOk result (λ x. x.start + x.length < 2 ^ 63) }
    ensures fault { IfErr result (IsFaultOf
        (at_number line.now.number (act_of problem.now line.now.text.now))) }
{
    match act_of(alloc, problem, line.text) {
        Ok(act) => Ok(act),
        Err(fault) => Err(fault.at_line(line.number)),
    }
}

/// The acts of lines, in the order in which they stand.
fn acts_of(alloc: Global, problem: &Problem, lines: &[Line<'_>]) -> Result<Vec<Timed>, PlanFault>
    ensures acts { IfOk result (λ v. acts_of problem.now (map seen lines.now) ≡ Ok v.items) }
    ensures short { IfOk result (λ v. IsTrue (list_all lasts v.items)) }
    ensures fault { IfErr result (IsFaultOf (acts_of problem.now (map seen lines.now))) }
{
    let mut acts = Vec::new(alloc);
    for line in lines {
        let act = act_at(alloc, problem, line)?;
        if acts.push(act).is_err() {
            return Err(PlanFault::NoMemory);
        }
    }
    Ok(acts)
}

/// The greatest start and length together, 0 where there is no act.
fn reach(acts: &[Timed]) -> u64
    requires { IsTrue (list_all lasts acts.now) }
    ensures { result ≡ reach acts.now }
{
    let mut most = 0;
    for act in acts {
        most = most.max(act.start + act.length);
    }
    most
}

/// A number of ticks that is whole and small enough.
fn whole(amount: Amount) -> Result<u64, Fault>
    ensures { result ≡ whole (Ok amount) }
{
    match amount {
        Amount::Ticks(ticks) => Ok(ticks),
        Amount::Parted => Err(Fault::NotWhole),
        Amount::Far => Err(Fault::TooLarge),
    }
}

/// What stands behind the first four bytes of a text.
fn behind_end(words: &[u8]) -> &[u8]
    ensures { result.now ≡ drop 4 words.now }
{
    match words {
        [_, _, _, _, numeral @ ..] => numeral,
        _ => &[],
    }
}

/// The tick of a line `end NUMERAL`.
fn end_of(alloc: Global, problem: &Problem, line: &[u8]) -> Result<u64, Fault>
    ensures { Gives result (end_of problem.now line.now) }
{
    let words = words(alloc, line)?;
    let Ok(numeral) = Vec::from_slice(alloc, behind_end(&words)) else {
        return Err(Fault::NoMemory);
    };
    match amount_of(scale_of(problem), numeral) {
        Ok(amount) => whole(amount),
        Err(fault) => Err(fault),
    }
}

/// Where a plan ends: where its last line says so, or else where its last act ends.
fn end_by(
    alloc: Global,
    problem: &Problem,
    line: Option<Line<'_>>,
    acts: &[Timed],
) -> Result<u64, PlanFault>
    requires { IsTrue (list_all lasts acts.now) }
    ensures end { IfOk result (λ e. with_end problem.now (option_map seen line.entry) (Ok acts.now)
        ≡ Ok (record { acts = acts.now; end = e })) }
    ensures fault { IfErr result (IsFaultOf
        (with_end problem.now (option_map seen line.entry) (Ok acts.now))) }
{
    match line {
        None => Ok(reach(acts)),
        Some(line) => match end_of(alloc, problem, line.text) {
            Ok(end) => Ok(end),
            Err(fault) => Err(fault.at_line(line.number)),
        },
    }
}

/// The plan of lines, its acts as they stand there.
fn body_plan(
    alloc: Global,
    problem: &Problem,
    lines: &[Line<'_>],
) -> Result<(Vec<Timed>, u64), PlanFault>
    ensures plan { IfOk result (λ r. body_plan problem.now (map seen lines.now)
        ≡ Ok (record { acts = r.0.items; end = r.1 })) }
    ensures fault { IfErr result (IsFaultOf (body_plan problem.now (map seen lines.now))) }
{
    let (body, last) = split_end(alloc, lines)?;
    let acts = acts_of(alloc, problem, body)?;
    let end = end_by(alloc, problem, last, &acts)?;
    Ok((acts, end))
}

/// The plan of a text, its acts as they stand there.
fn written_plan(
    alloc: Global,
    problem: &Problem,
    text: &[u8],
) -> Result<(Vec<Timed>, u64), PlanFault>
    requires { length text.now < 2 ^ 31 }
    ensures plan { IfOk result (λ r.
        written_plan problem.now text.now
        ≡ Ok (record { acts = r.0.items; end = r.1 })) }
    ensures fault { IfErr result (IsFaultOf (written_plan problem.now text.now)) }
{
    let lines = kept(alloc, text)?;
    let body = headless(alloc, &lines)?;
    let read = body_plan(alloc, problem, body);
    match first_remark(text) {
        None => read,
        Some(line) => match read {
            Ok(_) => Err(PlanFault::Shape { line }),
            Err(fault) => Err(fault.sooner(line)),
        },
    }
}

/// Puts acts in order by start, action and length.
fn put_in_order(acts: &mut Vec<Timed>) -> Result<(), NoMemory>
    ensures same { IsPermutation acts.old.items acts.new.items }
    ensures in_order { OnOk result (IsTrue (each_next act_before acts.new.items)) }
{
    match acts.sort_by_key(|act| (act.start, act.action, act.length)) {
        Ok(()) => Ok(()),
        Err(_) => Err(NoMemory),
    }
}

/// The plan of a text of less than 2^31 bytes in the form of plan files: a line for each act,
/// before them maybe a line `plan`, and behind them maybe a line `end NUMERAL`, without which the
/// plan ends with its last act. Comments and lines of white space are passed over, and the acts are
/// put in order. Or the fault of the first line that has one.
///
/// The lines of plans as planners for PDDL 2.1 write them and the validator VAL reads them.
pub fn read_plan(alloc: Global, problem: &Problem, text: &[u8]) -> Result<Plan, PlanFault>
    requires { length text.now < 2 ^ 31 }
    ensures reads { IsReading problem.now text.now result }
    ensures bounded { IfOk result (IsBounded problem.now text.now) }
{
    let (mut acts, end) = written_plan(alloc, problem, text)?;
    put_in_order(&mut acts)?;
    Ok(Plan {
        acts: List::of(acts),
        end,
    })
}
