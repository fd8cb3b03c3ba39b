use pddl_domain::{Bound, Domain, Head, Schema, Sort};
use pddl_meaning::{Atom, Change, Condition, Object, Value};
use pddl_problem::{Dated, Given, Task};
use pddl_tokens::{Form, Forms, Head as Look, head_of};
use std::alloc::Global;

/// Puts the bytes of a word behind a text; of those that are not printed, `%` and two digits in
/// base 16.
fn show_word(alloc: Global, out: &mut String, word: &[u8]) -> anyhow::Result<()> {
    for c in word {
        if c.is_ascii_graphic() && *c != b'%' {
            out.push(char::from(*c))?;
        } else {
            out.push_str(format!(in alloc; "%{c:02x}")?.as_str())?;
        }
    }
    Ok(())
}

/// Puts forms behind a text, with a blank before each word and parenthesis.
#[cycle(show)]
fn show_forms(alloc: Global, out: &mut String, forms: &[Form]) -> anyhow::Result<()> {
    let mut rest = forms;
    'forms: loop {
        match head_of(rest) {
            Look::Missing => return Ok(()),
            Look::Word(word, more) => {
                let at = word.at;
                out.push_str(format!(in alloc; " {at}:")?.as_str())?;
                show_word(alloc, out, word.text.as_slice())?;
                rest = more;
            }
            Look::List {
                at,
                close,
                parts,
                rest: more,
            } => {
                out.push_str(format!(in alloc; " ({at}")?.as_str())?;
                show_forms(alloc, out, parts)?;
                out.push_str(format!(in alloc; " ){close}")?.as_str())?;
                rest = more;
            }
        }
    }
}

/// The number of a text's bytes, and what it holds.
pub fn shown_forms(alloc: Global, forms: &Forms) -> anyhow::Result<String> {
    let mut out = format!(in alloc; "{} bytes:", forms.bytes)?;
    show_forms(alloc, &mut out, forms.forms.as_slice())?;
    Ok(out)
}

fn shown_atom(alloc: Global, atom: &Atom) -> anyhow::Result<String> {
    let terms = atom.terms.as_slice();
    Ok(format!(in alloc; "{} {terms:?}", atom.head)?)
}

/// A value that is one number or the value of one function, as most are.
fn shown_value(alloc: Global, value: &Value) -> anyhow::Result<String> {
    match value {
        Value::Number(number) => Ok(format!(in alloc; "{number}")?),
        Value::Call(atom) => shown_atom(alloc, atom),
        Value::Sum(..) | Value::Difference(..) => Ok("an operation".to_string(alloc)?),
    }
}

fn shown_condition(alloc: Global, condition: &Condition) -> anyhow::Result<String> {
    match condition {
        Condition::Lit { positive, atom } => {
            let atom = shown_atom(alloc, atom)?;
            Ok(format!(in alloc; "{positive} {atom}")?)
        }
        Condition::Same {
            positive,
            left,
            right,
        } => Ok(format!(in alloc; "{positive} {left:?} = {right:?}")?),
        Condition::Compare { op, left, right } => {
            let left = shown_value(alloc, left)?;
            let right = shown_value(alloc, right)?;
            Ok(format!(in alloc; "{left} {op:?} {right}")?)
        }
    }
}

fn shown_change(alloc: Global, change: &Change) -> anyhow::Result<String> {
    match change {
        Change::Lit { positive, atom } => {
            let atom = shown_atom(alloc, atom)?;
            Ok(format!(in alloc; "{positive} {atom}")?)
        }
        Change::Update { how, target, value } => {
            let target = shown_atom(alloc, target)?;
            let value = shown_value(alloc, value)?;
            Ok(format!(in alloc; "{how:?} {target} {value}")?)
        }
    }
}

fn show_conditions(
    alloc: Global,
    out: &mut String,
    label: &str,
    conditions: &[Condition],
) -> anyhow::Result<()> {
    for condition in conditions {
        let shown = shown_condition(alloc, condition)?;
        out.push_str(format!(in alloc; ", {label} {shown}")?.as_str())?;
    }
    Ok(())
}

fn show_changes(
    alloc: Global,
    out: &mut String,
    label: &str,
    changes: &[Change],
) -> anyhow::Result<()> {
    for change in changes {
        let shown = shown_change(alloc, change)?;
        out.push_str(format!(in alloc; ", {label} {shown}")?.as_str())?;
    }
    Ok(())
}

fn show_bounds(alloc: Global, out: &mut String, bounds: &[Bound]) -> anyhow::Result<()> {
    for bound in bounds {
        let shown = match bound {
            Bound::Least(value) => {
                let value = shown_value(alloc, value)?;
                format!(in alloc; ", least {value}")?
            }
            Bound::Most(value) => {
                let value = shown_value(alloc, value)?;
                format!(in alloc; ", most {value}")?
            }
        };
        out.push_str(&shown)?;
    }
    Ok(())
}

fn show_action(alloc: Global, out: &mut String, action: &Schema) -> anyhow::Result<()> {
    let sorts = action.sorts.as_slice();
    let head = format!(in alloc; "; action {} {sorts:?}", action.name.as_str())?;
    out.push_str(&head)?;
    match &action.bounds {
        None => out.push_str(", instant")?,
        Some(bounds) => show_bounds(alloc, out, bounds.as_slice())?,
    }
    show_conditions(alloc, out, "at start", action.start_conds.as_slice())?;
    show_conditions(alloc, out, "over all", action.all_conds.as_slice())?;
    show_conditions(alloc, out, "at end", action.end_conds.as_slice())?;
    show_changes(alloc, out, "start", action.start_effects.as_slice())?;
    show_changes(alloc, out, "end", action.end_effects.as_slice())
}

fn show_heads(alloc: Global, out: &mut String, kind: &str, heads: &[Head]) -> anyhow::Result<()> {
    for head in heads {
        let sorts = head.sorts.as_slice();
        let shown = format!(in alloc; "; {kind} {} {sorts:?}", head.name.as_str())?;
        out.push_str(&shown)?;
    }
    Ok(())
}

fn show_objects(
    alloc: Global,
    out: &mut String,
    kind: &str,
    objects: &[Object],
) -> anyhow::Result<()> {
    for object in objects {
        let shown = format!(in alloc; "; {kind} {} {}", object.name.as_str(), object.sort)?;
        out.push_str(&shown)?;
    }
    Ok(())
}

fn show_sorts(alloc: Global, out: &mut String, sorts: &[Sort]) -> anyhow::Result<()> {
    for sort in sorts {
        let shown = format!(in alloc; "; type {} {}", sort.name.as_str(), sort.parent)?;
        out.push_str(&shown)?;
    }
    Ok(())
}

fn show_actions(alloc: Global, out: &mut String, actions: &[Schema]) -> anyhow::Result<()> {
    for action in actions {
        show_action(alloc, out, action)?;
    }
    Ok(())
}

/// What a domain says.
pub fn shown_domain(alloc: Global, domain: &Domain) -> anyhow::Result<String> {
    let mut out = format!(in alloc; "domain {}", domain.name.as_str())?;
    show_sorts(alloc, &mut out, domain.types.as_slice())?;
    show_objects(alloc, &mut out, "constant", domain.constants.as_slice())?;
    show_heads(alloc, &mut out, "predicate", domain.predicates.as_slice())?;
    show_heads(alloc, &mut out, "function", domain.functions.as_slice())?;
    show_actions(alloc, &mut out, domain.actions.as_slice())?;
    Ok(out)
}

fn show_facts(alloc: Global, out: &mut String, facts: &[Atom]) -> anyhow::Result<()> {
    for fact in facts {
        let atom = shown_atom(alloc, fact)?;
        out.push_str(format!(in alloc; "; fact {atom}")?.as_str())?;
    }
    Ok(())
}

fn show_values(alloc: Global, out: &mut String, values: &[Given]) -> anyhow::Result<()> {
    for given in values {
        let target = shown_atom(alloc, &given.target)?;
        out.push_str(format!(in alloc; "; value {target} = {}", given.value)?.as_str())?;
    }
    Ok(())
}

fn show_timed(alloc: Global, out: &mut String, timed: &[Dated]) -> anyhow::Result<()> {
    for dated in timed {
        let atom = shown_atom(alloc, &dated.atom)?;
        let shown = format!(in alloc; "; at {} {} {atom}", dated.tick, dated.positive)?;
        out.push_str(&shown)?;
    }
    Ok(())
}

/// What a problem says.
pub fn shown_task(alloc: Global, task: &Task) -> anyhow::Result<String> {
    let mut out = "problem".to_string(alloc)?;
    show_objects(alloc, &mut out, "object", task.objects.as_slice())?;
    show_facts(alloc, &mut out, task.init.as_slice())?;
    show_values(alloc, &mut out, task.values.as_slice())?;
    show_timed(alloc, &mut out, task.timed.as_slice())?;
    show_conditions(alloc, &mut out, "goal", task.goal.as_slice())?;
    Ok(out)
}
