ghost use Rattle.std.specs.Prelude.{IfOk, IfSome, IfNone};
ghost use Rattle.std.specs.List.{list_all};
ghost use Rattle.trace_text.specs.Traces.{listed, act_text, mark_text};
ghost use Rattle.trace_text.specs.Grammar.{fits_act, fits_mark};
ghost use Rattle.trace_text.specs.Cuts.{IsRead, NoneRead};

use crate::cuts::{cut_act, cut_mark};
use std::alloc::Global;
use tp_spec::{List, Mark, NoMemory, Timed};

/// The marks that a text is, each behind a space; none where it is something else.
pub fn marks_of(alloc: Global, text: &[u8]) -> Result<Option<List<Mark>>, NoMemory>
    ensures some { IfOk result (λ found. IfSome found
        (IsRead (listed mark_text) (list_all fits_mark) text.now)) }
    ensures none { IfOk result (λ found. IfNone found
        (NoneRead (listed mark_text) (list_all fits_mark) text.now)) }
{
    let mut marks = List::new(alloc);
    let mut rest = text;
    'marks: loop {
        if rest.is_empty() {
            return Ok(Some(marks));
        }
        match cut_mark(rest) {
            Some((mark, behind)) => {
                marks.push(mark)?;
                rest = behind;
            }
            None => return Ok(None),
        }
    }
}

/// The acts that a text is, each behind a space; none where it is something else.
pub fn acts_of(alloc: Global, text: &[u8]) -> Result<Option<List<Timed>>, NoMemory>
    ensures some { IfOk result (λ found. IfSome found
        (IsRead (listed act_text) (list_all fits_act) text.now)) }
    ensures none { IfOk result (λ found. IfNone found
        (NoneRead (listed act_text) (list_all fits_act) text.now)) }
{
    let mut acts = List::new(alloc);
    let mut rest = text;
    'acts: loop {
        if rest.is_empty() {
            return Ok(Some(acts));
        }
        match cut_act(rest) {
            Some((act, behind)) => {
                acts.push(act)?;
                rest = behind;
            }
            None => return Ok(None),
        }
    }
}
