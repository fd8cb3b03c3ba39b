ghost use Rattle.std.specs.Prelude.{◌≡◌, Some, IfOk};
ghost use Rattle.problem_files.specs.Lines.{numbered, text_line, part_line, count_end, fault_line};

use crate::fault::PddlFileFault;
use grounder::CountKind;
use itoa::Buffer;
use line_text::push_bytes;
use pddl_parts::PddlFault;
use pddl_tokens::TextFault;
use std::alloc::Global;
use tp_spec::NoMemory;

/// Words, a number and the end of a line.
fn numbered(alloc: Global, words: &[u8], number: u128, end: &[u8]) -> Result<Vec<u8>, NoMemory>
    ensures { IfOk result (λ t. t.items ≡ numbered words.now number end.now) }
{
    let mut text = Vec::new(alloc);
    let mut buffer = Buffer::new();
    push_bytes(&mut text, words)?;
    push_bytes(&mut text, buffer.format(number).as_bytes())?;
    push_bytes(&mut text, end)?;
    Ok(text)
}

/// The line of a fault of a text, behind these words.
fn text_line(alloc: Global, words: &[u8], fault: TextFault) -> Result<Vec<u8>, NoMemory>
    ensures { IfOk result (λ t. text_line words.now fault ≡ Some t.items) }
{
    let (at, end): (u32, &[u8]) = match fault {
        TextFault::NotUtf8 { at } => (at, b" NotUtf8\n"),
        TextFault::Unclosed { at } => (at, b" Unclosed\n"),
        TextFault::Unopened { at } => (at, b" Unopened\n"),
        TextFault::TooDeep { at } => (at, b" TooDeep\n"),
        TextFault::NoMemory => return Err(NoMemory),
    };
    numbered(alloc, words, u128::from(at), end)
}

/// The line of a fault of a domain or a problem, behind these words.
fn part_line(alloc: Global, words: &[u8], fault: PddlFault) -> Result<Vec<u8>, NoMemory>
    ensures { IfOk result (λ t. part_line words.now fault ≡ Some t.items) }
{
    let (at, end): (u32, &[u8]) = match fault {
        PddlFault::Shape { at } => (at, b" Shape\n"),
        PddlFault::LeftOut { at } => (at, b" LeftOut\n"),
        PddlFault::Unknown { at } => (at, b" Unknown\n"),
        PddlFault::Arity { at } => (at, b" Arity\n"),
        PddlFault::Twice { at } => (at, b" Twice\n"),
        PddlFault::Cycle { at } => (at, b" Cycle\n"),
        PddlFault::NotWhole { at } => (at, b" NotWhole\n"),
        PddlFault::TooLarge { at } => (at, b" TooLarge\n"),
        PddlFault::ClashingTimed { at } => (at, b" ClashingTimed\n"),
        PddlFault::OtherDomain { at } => (at, b" OtherDomain\n"),
        PddlFault::NoMemory => return Err(NoMemory),
    };
    numbered(alloc, words, u128::from(at), end)
}

/// The end of the line of a count past its limit.
fn count_end(kind: CountKind) -> &'static [u8]
    ensures { result.now ≡ count_end kind }
{
    match kind {
        CountKind::Substitutions => b" TooManySubstitutions\n",
        CountKind::Actions => b" TooManyActions\n",
        CountKind::Facts => b" TooManyFacts\n",
        CountKind::Fluents => b" TooManyFluents\n",
        CountKind::Timed => b" TooManyTimed\n",
    }
}

/// The line that is printed of a fault, with its line feed: the file that is refused, the place and
/// the fault's name. The place is the offset of the byte, from 0, or the count past its limit. It
/// has no line of a refusal of memory, which is answered by `NoMemory`.
pub fn fault_line(alloc: Global, fault: &PddlFileFault) -> Result<Vec<u8>, NoMemory>
    ensures { IfOk result (λ t. fault_line fault.now ≡ Some t.items) }
{
    match *fault {
        PddlFileFault::DomainText(fault) => text_line(alloc, b"refused domain ", fault),
        PddlFileFault::Domain(fault) => part_line(alloc, b"refused domain ", fault),
        PddlFileFault::ProblemText(fault) => text_line(alloc, b"refused problem ", fault),
        PddlFileFault::Problem(fault) => part_line(alloc, b"refused problem ", fault),
        PddlFileFault::TooMany { kind, count } => {
            numbered(alloc, b"refused problem ", count, count_end(kind))
        }
        PddlFileFault::NoMemory => Err(NoMemory),
    }
}
