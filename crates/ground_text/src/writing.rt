ghost use Rattle.std.specs.Prelude.{◌≡◌, ◌++◌, OnOk, IfOk, decimal as decimal_of, codes};
ghost use Rattle.std.specs.Fmt.{signed_decimal};
ghost use Rattle.tp_spec.specs.declared.problem.Kind.TheVariants.{Instant, Durative};
ghost use Rattle.ground_text.specs.Texts.{listed, expr_text, op_text, cond_text, how_text, effect_text, body_text, action_text, merged, timed_text, value_text, name_text, counted, header_text, problem_text};

use line_text::{push_bytes, push_number, push_signed};
use std::alloc::Global;
use tp_spec::{
    Action, Cond, Effect, Expr, How, Kind, List, Name, NoMemory, Op, Problem, TimedItem,
};

#[tactic(auto, unfolding(crate::specs::Texts::expr_text))]
fn put_expr(out: &mut Vec<u8>, expr: &Expr) -> Result<(), NoMemory>
    ensures { OnOk result (out.new.items ≡ out.old.items ++ expr_text expr.now) }
{
    match expr {
        Expr::Number(number) => push_signed(out, *number),
        Expr::Fluent(fluent) => {
            push_bytes(out, b"n")?;
            push_number(out, u64::from(*fluent))
        }
        Expr::Sum(left, right) => {
            push_bytes(out, b"(+ ")?;
            put_expr(out, left.get())?;
            push_bytes(out, b" ")?;
            put_expr(out, right.get())?;
            push_bytes(out, b")")
        }
        Expr::Difference(left, right) => {
            push_bytes(out, b"(- ")?;
            put_expr(out, left.get())?;
            push_bytes(out, b" ")?;
            put_expr(out, right.get())?;
            push_bytes(out, b")")
        }
    }
}

fn op_word(op: Op) -> &'static [u8]
    ensures { result.now ≡ op_text op }
{
    match op {
        Op::Less => b"<",
        Op::LessEq => b"<=",
        Op::Equal => b"=",
        Op::MoreEq => b">=",
        Op::More => b">",
    }
}

#[tactic(auto, unfolding(crate::specs::Texts::cond_text))]
fn put_cond(out: &mut Vec<u8>, cond: &Cond) -> Result<(), NoMemory>
    ensures { OnOk result (out.new.items ≡ out.old.items ++ cond_text cond.now) }
{
    match cond {
        Cond::Lit { fact, positive } => {
            if *positive {
                push_bytes(out, b"+")?;
            } else {
                push_bytes(out, b"-")?;
            }
            push_number(out, u64::from(*fact))
        }
        Cond::Compare { op, left, right } => {
            push_bytes(out, b"(")?;
            push_bytes(out, op_word(*op))?;
            push_bytes(out, b" ")?;
            put_expr(out, left)?;
            push_bytes(out, b" ")?;
            put_expr(out, right)?;
            push_bytes(out, b")")
        }
    }
}

fn how_word(how: How) -> &'static [u8]
    ensures { result.now ≡ how_text how }
{
    match how {
        How::Increase => b"inc",
        How::Decrease => b"dec",
        How::Assign => b"set",
    }
}

#[tactic(auto, unfolding(crate::specs::Texts::effect_text))]
fn put_effect(out: &mut Vec<u8>, effect: &Effect) -> Result<(), NoMemory>
    ensures { OnOk result (out.new.items ≡ out.old.items ++ effect_text effect.now) }
{
    match effect {
        Effect::Add(fact) => {
            push_bytes(out, b"+")?;
            push_number(out, u64::from(*fact))
        }
        Effect::Delete(fact) => {
            push_bytes(out, b"-")?;
            push_number(out, u64::from(*fact))
        }
        Effect::Change { how, fluent, value } => {
            push_bytes(out, b"(")?;
            push_bytes(out, how_word(*how))?;
            push_bytes(out, b" ")?;
            push_number(out, u64::from(*fluent))?;
            push_bytes(out, b" ")?;
            put_expr(out, value)?;
            push_bytes(out, b")")
        }
    }
}

/// Writes conditions, each behind a space.
#[tactic(auto, unfolding(crate::specs::Texts::listed))]
fn put_conds(out: &mut Vec<u8>, conds: &[Cond]) -> Result<(), NoMemory>
    ensures { OnOk result (out.new.items ≡ out.old.items ++ listed cond_text conds.now) }
{
    for cond in conds {
        push_bytes(out, b" ")?;
        put_cond(out, cond)?;
    }
    Ok(())
}

/// Writes effects, each behind a space.
#[tactic(auto, unfolding(crate::specs::Texts::listed))]
fn put_effects(out: &mut Vec<u8>, effects: &[Effect]) -> Result<(), NoMemory>
    ensures { OnOk result (out.new.items ≡ out.old.items ++ listed effect_text effects.now) }
{
    for effect in effects {
        push_bytes(out, b" ")?;
        put_effect(out, effect)?;
    }
    Ok(())
}

/// Writes numbers, each behind a space.
#[tactic(auto, unfolding(crate::specs::Texts::listed))]
fn put_indices(out: &mut Vec<u8>, indices: &[u32]) -> Result<(), NoMemory>
    ensures { OnOk result (out.new.items ≡ out.old.items ++ listed decimal_of indices.now) }
{
    for index in indices {
        push_bytes(out, b" ")?;
        push_number(out, u64::from(*index))?;
    }
    Ok(())
}

fn put_value(out: &mut Vec<u8>, value: Option<i64>) -> Result<(), NoMemory>
    ensures { OnOk result (out.new.items ≡ out.old.items ++ value_text value) }
{
    match value {
        None => push_bytes(out, b"-"),
        Some(number) => push_signed(out, number),
    }
}

/// Writes values, each behind a space.
#[tactic(auto, unfolding(crate::specs::Texts::listed))]
fn put_values(out: &mut Vec<u8>, values: &[Option<i64>]) -> Result<(), NoMemory>
    ensures { OnOk result (out.new.items ≡ out.old.items ++ listed value_text values.now) }
{
    for value in values {
        push_bytes(out, b" ")?;
        put_value(out, *value)?;
    }
    Ok(())
}

#[tactic(auto, unfolding(crate::specs::Texts::name_text))]
fn put_name(out: &mut Vec<u8>, name: &Name) -> Result<(), NoMemory>
    ensures { OnOk result (out.new.items ≡ out.old.items ++ name_text name.now) }
{
    push_bytes(out, name.as_str().as_bytes())?;
    push_bytes(out, b"\n")
}

/// What follows the name of an instant action.
#[tactic(auto, unfolding(crate::specs::Texts::body_text))]
fn put_instant(out: &mut Vec<u8>, action: &Action) -> Result<(), NoMemory>
    ensures { OnOk result (out.new.items ≡ out.old.items ++ body_text Instant action.now) }
{
    push_bytes(out, b"instant\ncs")?;
    put_conds(out, action.start_conds.as_slice())?;
    push_bytes(out, b"\nes")?;
    put_effects(out, action.start_effects.as_slice())?;
    push_bytes(out, b"\n")
}

/// The line of a durative action's length.
fn put_length(out: &mut Vec<u8>, least: u64, most: u64) -> Result<(), NoMemory>
    ensures { OnOk result (out.new.items ≡ out.old.items
        ++ (codes "length " ++ decimal_of least ++ codes " " ++ decimal_of most)) }
{
    push_bytes(out, b"length ")?;
    push_number(out, least)?;
    push_bytes(out, b" ")?;
    push_number(out, most)
}

/// The lines of a durative action's conditions, each begun by a line feed.
fn put_all_conds(out: &mut Vec<u8>, action: &Action) -> Result<(), NoMemory>
    ensures { OnOk result (out.new.items ≡ out.old.items
        ++ (codes "\ncs" ++ listed cond_text action.now.start_conds ++ codes "\nco"
        ++ listed cond_text action.now.all_conds ++ codes "\nce"
        ++ listed cond_text action.now.end_conds)) }
{
    push_bytes(out, b"\ncs")?;
    put_conds(out, action.start_conds.as_slice())?;
    push_bytes(out, b"\nco")?;
    put_conds(out, action.all_conds.as_slice())?;
    push_bytes(out, b"\nce")?;
    put_conds(out, action.end_conds.as_slice())
}

/// The lines of a durative action's effects, each begun by a line feed.
fn put_all_effects(out: &mut Vec<u8>, action: &Action) -> Result<(), NoMemory>
    ensures { OnOk result (out.new.items ≡ out.old.items
        ++ (codes "\nes" ++ listed effect_text action.now.start_effects ++ codes "\nee"
        ++ listed effect_text action.now.end_effects)) }
{
    push_bytes(out, b"\nes")?;
    put_effects(out, action.start_effects.as_slice())?;
    push_bytes(out, b"\nee")?;
    put_effects(out, action.end_effects.as_slice())
}

/// What follows the name of a durative action.
#[tactic(auto, unfolding(crate::specs::Texts::body_text))]
fn put_durative(out: &mut Vec<u8>, least: u64, most: u64, action: &Action) -> Result<(), NoMemory>
    ensures { OnOk result (out.new.items ≡ out.old.items
        ++ body_text (Durative least most) action.now) }
{
    put_length(out, least, most)?;
    put_all_conds(out, action)?;
    put_all_effects(out, action)?;
    push_bytes(out, b"\n")
}

/// The block of an action.
#[tactic(auto, unfolding(crate::specs::Texts::action_text))]
fn put_action(out: &mut Vec<u8>, action: &Action) -> Result<(), NoMemory>
    ensures { OnOk result (out.new.items ≡ out.old.items ++ action_text action.now) }
{
    push_bytes(out, b"act ")?;
    push_bytes(out, action.name.as_str().as_bytes())?;
    push_bytes(out, b"\n")?;
    match action.kind {
        Kind::Instant => put_instant(out, action),
        Kind::Durative { least, most } => put_durative(out, least, most, action),
    }
}

/// One literal behind a space.
fn put_literal(out: &mut Vec<u8>, literal: &Effect) -> Result<(), NoMemory>
    ensures { OnOk result
        (out.new.items ≡ out.old.items ++ (codes " " ++ effect_text literal.now)) }
{
    push_bytes(out, b" ")?;
    put_effect(out, literal)
}

/// The literals of a timed item in order of their facts, each behind a space.
#[tactic(auto, using(crate::proofs::Merging::merged_adds), unfolding(crate::specs::Texts::listed))]
fn put_literals(out: &mut Vec<u8>, adds: &[u32], deletes: &[u32]) -> Result<(), NoMemory>
    ensures { OnOk result (out.new.items ≡ out.old.items
        ++ listed effect_text (merged adds.now deletes.now)) }
{
    let mut adds = adds;
    let mut deletes = deletes;
    'literals: loop {
        match adds {
            [add, more_adds @ ..] => match deletes {
                [delete, more_deletes @ ..] => {
                    if *add < *delete {
                        put_literal(out, &Effect::Add(*add))?;
                        adds = more_adds;
                    } else {
                        put_literal(out, &Effect::Delete(*delete))?;
                        deletes = more_deletes;
                    }
                }
                [] => {
                    put_literal(out, &Effect::Add(*add))?;
                    adds = more_adds;
                }
            },
            [] => match deletes {
                [delete, more_deletes @ ..] => {
                    put_literal(out, &Effect::Delete(*delete))?;
                    deletes = more_deletes;
                }
                [] => return Ok(()),
            },
        }
    }
}

/// The line of a timed item.
#[tactic(auto, unfolding(crate::specs::Texts::timed_text))]
fn put_timed(out: &mut Vec<u8>, item: &TimedItem) -> Result<(), NoMemory>
    ensures { OnOk result (out.new.items ≡ out.old.items ++ timed_text item.now) }
{
    push_bytes(out, b"at ")?;
    push_number(out, item.tick)?;
    put_literals(out, item.adds.as_slice(), item.deletes.as_slice())?;
    push_bytes(out, b"\n")
}

/// A count of names, and as many lines.
#[tactic(auto, unfolding(crate::specs::Texts::counted))]
fn put_names(out: &mut Vec<u8>, names: &[Name]) -> Result<(), NoMemory>
    ensures { OnOk result (out.new.items ≡ out.old.items ++ counted name_text names.now) }
{
    push_number(out, names.len() as u64)?;
    push_bytes(out, b"\n")?;
    for name in names {
        put_name(out, name)?;
    }
    Ok(())
}

/// A count of actions, and as many blocks.
#[tactic(auto, unfolding(crate::specs::Texts::counted))]
fn put_actions(out: &mut Vec<u8>, actions: &[Action]) -> Result<(), NoMemory>
    ensures { OnOk result (out.new.items ≡ out.old.items ++ counted action_text actions.now) }
{
    push_number(out, actions.len() as u64)?;
    push_bytes(out, b"\n")?;
    for action in actions {
        put_action(out, action)?;
    }
    Ok(())
}

/// A count of timed items, and as many lines.
#[tactic(auto, unfolding(crate::specs::Texts::counted))]
fn put_timed_items(out: &mut Vec<u8>, items: &[TimedItem]) -> Result<(), NoMemory>
    ensures { OnOk result (out.new.items ≡ out.old.items ++ counted timed_text items.now) }
{
    push_number(out, items.len() as u64)?;
    push_bytes(out, b"\n")?;
    for item in items {
        put_timed(out, item)?;
    }
    Ok(())
}

/// The first two lines, but for the end of the second.
#[tactic(auto, unfolding(crate::specs::Texts::header_text))]
pub fn put_header(out: &mut Vec<u8>, scale: u32) -> Result<(), NoMemory>
    ensures { OnOk result (out.new.items ≡ out.old.items ++ header_text scale) }
{
    push_bytes(out, b"ground 1\nscale ")?;
    push_number(out, u64::from(scale))?;
    Ok(())
}

/// The lines of the scale and of the names.
fn put_names_of(out: &mut Vec<u8>, problem: &Problem) -> Result<(), NoMemory>
    ensures { OnOk result (out.new.items ≡ out.old.items
        ++ (header_text problem.now.scale ++ codes "\nfacts " ++ counted name_text problem.now.facts
        ++ codes "fluents " ++ counted name_text problem.now.fluents)) }
{
    put_header(out, problem.scale)?;
    push_bytes(out, b"\nfacts ")?;
    put_names(out, problem.facts.as_slice())?;
    push_bytes(out, b"fluents ")?;
    put_names(out, problem.fluents.as_slice())
}

/// The lines of the actions and of the timed items.
pub fn put_items(out: &mut Vec<u8>, actions: &[Action], timed: &[TimedItem]) -> Result<(), NoMemory>
    ensures { OnOk result (out.new.items ≡ out.old.items
        ++ (codes "actions " ++ counted action_text actions.now ++ codes "timed "
        ++ counted timed_text timed.now)) }
{
    push_bytes(out, b"actions ")?;
    put_actions(out, actions)?;
    push_bytes(out, b"timed ")?;
    put_timed_items(out, timed)
}

/// The lines of what holds at the start and of the goal.
pub fn put_states(
    out: &mut Vec<u8>,
    init: &[u32],
    values: &[Option<i64>],
    goal: &[Cond],
) -> Result<(), NoMemory>
    ensures { OnOk result (out.new.items ≡ out.old.items
        ++ (codes "init" ++ listed decimal_of init.now ++ codes "\nvalues"
        ++ listed value_text values.now ++ codes "\ngoal" ++ listed cond_text goal.now)) }
{
    push_bytes(out, b"init")?;
    put_indices(out, init)?;
    push_bytes(out, b"\nvalues")?;
    put_values(out, values)?;
    push_bytes(out, b"\ngoal")?;
    put_conds(out, goal)
}

/// The lines of a problem.
#[tactic(auto, unfolding(crate::specs::Texts::problem_text))]
fn put_problem(out: &mut Vec<u8>, problem: &Problem) -> Result<(), NoMemory>
    ensures { OnOk result (out.new.items ≡ out.old.items ++ problem_text problem.now) }
{
    put_names_of(out, problem)?;
    put_items(out, problem.actions.as_slice(), problem.timed.as_slice())?;
    put_states(
        out,
        problem.init.as_slice(),
        problem.values.as_slice(),
        problem.goal.as_slice(),
    )?;
    push_bytes(out, b"\nend\n")
}

/// The one canonical text of a problem: ASCII lines, each ended by a line feed.
pub fn write_problem(alloc: Global, problem: &Problem) -> Result<Vec<u8>, NoMemory>
    ensures { IfOk result (λ v. v.items ≡ problem_text problem.now) }
{
    let mut out = Vec::new(alloc);
    put_problem(&mut out, problem)?;
    Ok(out)
}
