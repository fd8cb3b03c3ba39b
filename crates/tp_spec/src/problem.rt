ghost use Rattle.std.specs.Prelude.{◌≡◌, slice_get};
ghost use Rattle.std.specs.Option.{option_copied};
ghost use Rattle.tp_spec.specs.Items.{conditions, invariants};
ghost use Rattle.tp_spec.specs.WellFormed.{IsWellFormed};

use crate::expr::Expr;
use crate::list::{List, Name};
use crate::plan::Item;
use std::marker::Model;

/// How two numbers are compared.
#[derive(Clone, Copy, Debug, PartialEq, Eq)]
pub enum Op {
    Less,
    LessEq,
    Equal,
    MoreEq,
    More,
}

/// A condition: a fact, by its index, that is to hold or not to hold, or a comparison.
#[derive(Drop)]
pub enum Cond {
    Lit { fact: u32, positive: bool },
    Compare { op: Op, left: Expr, right: Expr },
}

/// How an effect changes a fluent.
#[derive(Clone, Copy, Debug, PartialEq, Eq)]
pub enum How {
    Increase,
    Decrease,
    Assign,
}

/// An effect: it adds or deletes a fact, or changes a fluent, each by its index.
#[derive(Drop)]
pub enum Effect {
    Add(u32),
    Delete(u32),
    Change { how: How, fluent: u32, value: Expr },
}

/// Whether an action is instant, or else the least and the most ticks of its length.
#[derive(Clone, Copy, Debug, PartialEq, Eq)]
pub enum Kind {
    Instant,
    Durative { least: u64, most: u64 },
}

/// A ground action, with what is asked before its start, while it runs and before its end, and what
/// its start and its end do. An instant action has a start alone.
///
/// PDDL 2.1, section 5 (durative actions with discretised effects).
#[derive(Drop)]
pub struct Action {
    pub name: Name,
    pub kind: Kind,
    pub start_conds: List<Cond>,
    pub all_conds: List<Cond>,
    pub end_conds: List<Cond>,
    pub start_effects: List<Effect>,
    pub end_effects: List<Effect>,
}

/// All timed initial literals of one tick: the facts that become true, and those that become false.
///
/// PDDL 2.2, section 3 (timed initial literals).
#[derive(Drop)]
pub struct TimedItem {
    pub tick: u64,
    pub adds: List<u32>,
    pub deletes: List<u32>,
}

/// A ground problem that meets all rules of the canonical ground text, as `IsWellFormed` says.
/// Conditions and effects name facts, fluents and actions by their indices; `init` lists the facts
/// that are true at the start, `values` the value of each fluent at the start, or none.
#[derive(Drop)]
pub struct Problem {
    pub scale: u32,
    pub facts: List<Name>,
    pub fluents: List<Name>,
    pub actions: List<Action>,
    pub timed: List<TimedItem>,
    pub init: List<u32>,
    pub values: List<Option<i64>>,
    pub goal: List<Cond>,
}

impl Model for Problem {
    ghost use Rattle.tp_spec.specs.WellFormed.{Ground, IsWellFormed};
    ghost use Rattle.tp_spec.specs.contracts.expr.Expr as expr;
    ghost use Rattle.std.specs.Coded.{codes};

    ghost Value = { Ground };

    ghost coded = { Prim.hlevel (codes, expr.the_row.coded) };

    ghost view = { λ p. record {
      scale = p.scale;
      facts = p.facts;
      fluents = p.fluents;
      actions =
          p.actions;
      timed = p.timed;
      init = p.init;
      values = p.values;
      goal = p.goal;
    } };

    ghost invariant = { λ p. IsWellFormed (record {
      scale = p.scale;
      facts = p.facts;
      fluents = p.fluents;
      actions = p.actions;
      timed =
          p.timed;
      init = p.init;
      values = p.values;
      goal = p.goal;
    }) };
}

impl Problem {
    /// Each problem keeps the rules of the canonical ground text. A proof learns this by itself
    /// only where a field is read, else by this call, which does nothing.
    pub fn keeps_the_rules(&self)
        ensures { IsWellFormed self.now }
    {
        let _scale = self.scale;
    }

    /// An action by its number, none where the problem has fewer.
    pub fn action(&self, number: u32) -> Option<&Action>
        ensures { option_copied result ≡ slice_get self.now.actions number }
    {
        self.actions.as_slice().get(number as usize)
    }

    /// A timed item by its number, none where the problem has fewer.
    pub fn timed_item(&self, number: u32) -> Option<&TimedItem>
        ensures { option_copied result ≡ slice_get self.now.timed number }
    {
        self.timed.as_slice().get(number as usize)
    }

    /// The conditions that are written for an item: of a timed item none, of the start or the end
    /// of an action those before it; none for a number that the problem does not have.
    pub fn conditions(&self, item: Item) -> &[Cond]
        ensures { result.now ≡ conditions self.now item }
    {
        match item {
            Item::TimedAt(_) => &[],
            Item::End(number) => match self.action(number) {
                Some(action) => action.end_conds.as_slice(),
                None => &[],
            },
            Item::Start(number) => match self.action(number) {
                Some(action) => action.start_conds.as_slice(),
                None => &[],
            },
        }
    }

    /// What is asked of each state while an action runs; nothing for a number that the problem does
    /// not have.
    pub fn invariants(&self, number: u32) -> &[Cond]
        ensures { result.now ≡ invariants self.now number }
    {
        match self.action(number) {
            Some(action) => action.all_conds.as_slice(),
            None => &[],
        }
    }
}
