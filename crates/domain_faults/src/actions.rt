ghost use Rattle.std.specs.Prelude.{◌≡◌, IfOk, OnOk, []};
ghost use Rattle.pddl_tokens.specs.Numbers.{IsScale};
ghost use Rattle.pddl_tokens.specs.Trees.{trees_of};
ghost use Rattle.pddl_parts.specs.First.{first};
ghost use Rattle.pddl_parts.specs.Settings.{setting_of};
ghost use Rattle.domain_faults.specs.Actions.{key_of, place_of, stage_of, stage_behind, with_key, keyword_faults, part_word_faults, whole_effect_faults, whole_condition_faults, value_faults, part_list_faults, end_part_faults, has_duration, missing_faults, parts_faults, variables_of, unnamed_faults, action_faults, with_action, acted_faults, with_acted, actions_faults};

use crate::durations::duration_fault;
use crate::heads::variables_fault;
use crate::parts::{ActionKind, is_action, is_key, kind_of, part_of};
use crate::places::{past_effect_fault, past_timed_fault};
use pddl_parts::{
    Context, Fault, Kind, Names, Place, Rule, Scope, TimedPart, condition_fault, earlier,
    effect_fault, enter_item, fault, is_thing, misfit_list, misfit_word, name_fault, timed_fault,
    unfit_word, with_items,
};
use pddl_tokens::{Form, Head, Word, head_of};
use std::alloc::Global;
use tp_spec::NoMemory;

/// The parts of an action.
#[derive(Clone, Copy, Debug, PartialEq, Eq)]
pub enum Key {
    Parameters,
    Duration,
    Condition,
    Effect,
}

/// What is to stand among the parts of an action.
#[derive(Clone, Copy, Debug, PartialEq, Eq)]
pub enum Stage {
    /// A keyword.
    Keyword,
    /// The part behind its keyword.
    Value(Key),
    /// A part that came before, which is not looked into.
    Skipped,
}

fn key_of(text: &[u8]) -> Key
    ensures { result ≡ key_of text.now }
{
    if text == b":parameters".as_slice() {
        Key::Parameters
    } else if text == b":duration".as_slice() {
        Key::Duration
    } else if text == b":effect".as_slice() {
        Key::Effect
    } else {
        Key::Condition
    }
}

/// Where the value of a keyword stands.
fn place_of(key: Key) -> Place
    ensures { result ≡ place_of key }
{
    match key {
        Key::Duration => Place::Duration,
        Key::Parameters | Key::Condition | Key::Effect => Place::Elsewhere,
    }
}

fn stage_of(kind: ActionKind, seen: &Names, text: &[u8]) -> Stage
    ensures { result ≡ stage_of kind seen.now text.now }
{
    if is_key(kind, text) {
        if seen.has(text) {
            Stage::Skipped
        } else {
            Stage::Value(key_of(text))
        }
    } else {
        Stage::Keyword
    }
}

fn stage_behind(kind: ActionKind, seen: &Names, stage: Stage, text: &[u8]) -> Stage
    ensures { result ≡ stage_behind kind seen.now stage text.now }
{
    match stage {
        Stage::Keyword => stage_of(kind, seen, text),
        Stage::Value(_) | Stage::Skipped => Stage::Keyword,
    }
}

/// Enters a keyword.
fn enter_key(
    alloc: Global,
    kind: ActionKind,
    seen: &mut Names,
    stage: Stage,
    word: &Word,
) -> Result<(), NoMemory>
    ensures { OnOk result (seen.new ≡ with_key kind seen.old stage word.now.text) }
{
    match stage {
        Stage::Keyword => {
            let key = is_key(kind, word.text.as_slice());
            enter_item(alloc, key, seen, word)?;
            Ok(())
        }
        Stage::Value(_) | Stage::Skipped => Ok(()),
    }
}

fn keyword_fault(kind: ActionKind, seen: &Names, word: &Word) -> Option<Fault>
    ensures { result ≡ first (keyword_faults kind seen.now word.now.at word.now.text) }
{
    let text = word.text.as_slice();
    if is_key(kind, text) {
        if seen.has(text) {
            fault(Kind::Twice, word.at)
        } else {
            None
        }
    } else {
        misfit_word(word)
    }
}

fn part_word_fault(kind: ActionKind, seen: &Names, stage: Stage, word: &Word) -> Option<Fault>
    ensures { result ≡ first (part_word_faults kind seen.now stage word.now.at word.now.text) }
{
    match stage {
        Stage::Keyword => keyword_fault(kind, seen, word),
        Stage::Value(key) => unfit_word(place_of(key), word),
        Stage::Skipped => None,
    }
}

/// The first fault of an action's effect.
#[tactic(auto, using(pddl_parts::proofs::Firsts::first_append))]
fn whole_effect_fault(
    alloc: Global,
    kind: ActionKind,
    context: &Context<'_>,
    at: u32,
    close: u32,
    parts: &[Form],
) -> Result<Option<Fault>, NoMemory>
    requires { IsScale context.now.scale }
    ensures { IfOk result (λ fault. fault
        ≡ first (whole_effect_faults kind (setting_of context.now) at close
        (trees_of parts.now))) }
{
    match kind {
        ActionKind::Instant => {
            let effect = effect_fault(context, at, close, parts);
            let past = past_effect_fault(alloc, at, parts)?;
            Ok(earlier(effect, past))
        }
        ActionKind::Durative => {
            let timed = timed_fault(TimedPart::Effect, context, at, close, parts);
            let start = past_timed_fault(alloc, b"start", parts)?;
            let end = past_timed_fault(alloc, b"end", parts)?;
            Ok(earlier(timed, earlier(start, end)))
        }
    }
}

/// The first fault of an action's condition.
fn whole_condition_fault(
    kind: ActionKind,
    context: &Context<'_>,
    at: u32,
    close: u32,
    parts: &[Form],
) -> Option<Fault>
    requires { IsScale context.now.scale }
    ensures { result ≡ first (whole_condition_faults kind (setting_of context.now) at close
        (trees_of parts.now)) }
{
    match kind {
        ActionKind::Instant => condition_fault(context, at, close, parts),
        ActionKind::Durative => timed_fault(TimedPart::Condition, context, at, close, parts),
    }
}

/// The first fault of the list behind a keyword.
fn value_fault(
    alloc: Global,
    kind: ActionKind,
    context: &Context<'_>,
    key: Key,
    at: u32,
    close: u32,
    parts: &[Form],
) -> Result<Option<Fault>, NoMemory>
    requires { IsScale context.now.scale }
    ensures { IfOk result (λ fault. fault
        ≡ first (value_faults kind (setting_of context.now) key at close
        (trees_of parts.now))) }
{
    match key {
        Key::Parameters => variables_fault(alloc, &context.scope.types, close, parts),
        Key::Duration => Ok(duration_fault(&context.in_duration(), at, close, parts)),
        Key::Condition => Ok(whole_condition_fault(kind, context, at, close, parts)),
        Key::Effect => whole_effect_fault(alloc, kind, context, at, close, parts),
    }
}

/// The first fault of a list among the parts of an action.
fn part_list_fault(
    alloc: Global,
    kind: ActionKind,
    context: &Context<'_>,
    stage: Stage,
    at: u32,
    close: u32,
    parts: &[Form],
) -> Result<Option<Fault>, NoMemory>
    requires { IsScale context.now.scale }
    ensures { IfOk result (λ fault. fault
        ≡ first (part_list_faults kind (setting_of context.now) stage at close
        (trees_of parts.now))) }
{
    match stage {
        Stage::Keyword => Ok(misfit_list(at, parts)),
        Stage::Value(key) => { value_fault(alloc, kind, context, key, at, close, parts) }
        Stage::Skipped => Ok(None),
    }
}

fn end_part_fault(stage: Stage, close: u32) -> Option<Fault>
    ensures { result ≡ first (end_part_faults stage close) }
{
    match stage {
        Stage::Keyword => None,
        Stage::Value(_) | Stage::Skipped => fault(Kind::Shape, close),
    }
}

fn has_duration(kind: ActionKind, seen: &Names) -> bool
    ensures { result ≡ has_duration kind seen.now }
{
    match kind {
        ActionKind::Instant => true,
        ActionKind::Durative => seen.has(b":duration"),
    }
}

fn missing_fault(kind: ActionKind, seen: &Names, close: u32) -> Option<Fault>
    ensures { result ≡ first (missing_faults kind seen.now close) }
{
    if seen.has(b":parameters") && has_duration(kind, seen) {
        None
    } else {
        fault(Kind::Shape, close)
    }
}

/// The first fault of the parts of an action.
#[tactic(auto, using(pddl_parts::proofs::Firsts::first_onto))]
fn parts_fault(
    alloc: Global,
    kind: ActionKind,
    context: &Context<'_>,
    close: u32,
    forms: &[Form],
) -> Result<Option<Fault>, NoMemory>
    requires { IsScale context.now.scale }
    ensures { IfOk result (λ fault. fault
        ≡ first (parts_faults kind (setting_of context.now) close [] Stage.Keyword
        (trees_of forms.now))) }
{
    let mut best = None;
    let mut seen = Names::new(alloc);
    let mut stage = Stage::Keyword;
    let mut rest = forms;
    'parts: loop {
        match head_of(rest) {
            Head::Missing => {
                best = earlier(best, end_part_fault(stage, close));
                return Ok(earlier(best, missing_fault(kind, &seen, close)));
            }
            Head::Word(word, more) => {
                best = earlier(best, part_word_fault(kind, &seen, stage, word));
                let behind = stage_behind(kind, &seen, stage, word.text.as_slice());
                enter_key(alloc, kind, &mut seen, stage, word)?;
                stage = behind;
                rest = more;
            }
            Head::List {
                at,
                close,
                parts,
                rest: more,
            } => {
                let list = part_list_fault(alloc, kind, context, stage, at, close, parts)?;
                best = earlier(best, list);
                stage = Stage::Keyword;
                rest = more;
            }
        }
    }
}

/// The variables of an action, its parameters, in the order of the text; `members` stand behind the
/// action's name.
pub fn variables_of(alloc: Global, kind: ActionKind, members: &[Form]) -> Result<Names, NoMemory>
    ensures { IfOk result (λ names. names ≡ variables_of kind (trees_of members.now)) }
{
    let rule = Rule {
        variables: true,
        any_type: false,
    };
    with_items(
        alloc,
        rule,
        Names::new(alloc),
        part_of(kind, b":parameters", members),
    )
}

/// The first fault of an action behind its name.
fn unnamed_fault(
    alloc: Global,
    kind: ActionKind,
    scope: &Scope,
    scale: u32,
    close: u32,
    members: &[Form],
) -> Result<Option<Fault>, NoMemory>
    requires { IsScale scale }
    ensures { IfOk result (λ fault. fault
        ≡ first (unnamed_faults kind scope.now scale close (trees_of members.now))) }
{
    let variables = variables_of(alloc, kind, members)?;
    let context = Context {
        scope,
        variables: &variables,
        scale,
        place: Place::Elsewhere,
    };
    parts_fault(alloc, kind, &context, close, members)
}

/// The first fault of an action, whose name is entered.
#[tactic(auto, using(pddl_parts::proofs::Firsts::first_append))]
fn action_fault(
    alloc: Global,
    kind: ActionKind,
    scope: &Scope,
    scale: u32,
    names: &mut Names,
    close: u32,
    members: &[Form],
) -> Result<Option<Fault>, NoMemory>
    requires { IsScale scale }
    ensures fault { IfOk result (λ fault. fault
        ≡ first (action_faults kind scope.now scale names.old close (trees_of members.now))) }
    ensures names { OnOk result (names.new ≡ with_action names.old (trees_of members.now)) }
{
    match head_of(members) {
        Head::Missing => Ok(fault(Kind::Shape, close)),
        Head::Word(word, rest) => {
            let again = enter_item(alloc, is_thing(word), names, word)?;
            let parts = unnamed_fault(alloc, kind, scope, scale, close, rest)?;
            Ok(earlier(name_fault(word), earlier(again, parts)))
        }
        Head::List {
            at,
            parts: list,
            rest,
            ..
        } => {
            let parts = unnamed_fault(alloc, kind, scope, scale, close, rest)?;
            Ok(earlier(misfit_list(at, list), parts))
        }
    }
}

/// The first fault of a section, where it is an action, whose name is entered.
fn acted_fault(
    alloc: Global,
    scope: &Scope,
    scale: u32,
    names: &mut Names,
    close: u32,
    parts: &[Form],
) -> Result<Option<Fault>, NoMemory>
    requires { IsScale scale }
    ensures fault { IfOk result (λ fault. fault
        ≡ first (acted_faults scope.now scale names.old close (trees_of parts.now))) }
    ensures names { OnOk result (names.new ≡ with_acted names.old (trees_of parts.now)) }
{
    match head_of(parts) {
        Head::Missing | Head::List { .. } => Ok(None),
        Head::Word(head, members) => {
            let text = head.text.as_slice();
            if is_action(text) {
                action_fault(alloc, kind_of(text), scope, scale, names, close, members)
            } else {
                Ok(None)
            }
        }
    }
}

/// The first fault of the actions among the sections of a domain.
#[tactic(auto, using(pddl_parts::proofs::Firsts::first_onto))]
pub fn actions_fault(
    alloc: Global,
    scope: &Scope,
    scale: u32,
    sections: &[Form],
) -> Result<Option<Fault>, NoMemory>
    requires { IsScale scale }
    ensures { IfOk result (λ fault. fault
        ≡ first (actions_faults scope.now scale [] (trees_of sections.now))) }
{
    let mut best = None;
    let mut names = Names::new(alloc);
    let mut rest = sections;
    'sections: loop {
        match head_of(rest) {
            Head::Missing => return Ok(best),
            Head::Word(_, more) => rest = more,
            Head::List {
                close,
                parts,
                rest: more,
                ..
            } => {
                let acted = acted_fault(alloc, scope, scale, &mut names, close, parts)?;
                best = earlier(best, acted);
                rest = more;
            }
        }
    }
}
