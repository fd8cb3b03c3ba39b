ghost use Rattle.std.specs.Int.{bit_at};
ghost use Rattle.std.specs.Prelude.{◌≡◌, ℕ, ◌%◌, true, false, ◌++◌, ◌∷◌, [], ◌&&◌, IfOk, OnOk};
ghost use Rattle.std.specs.List.{list_all, list_any};
ghost use Rattle.std.specs.Option.{option_copied};
ghost use Rattle.tp_spec.specs.declared.problem.Problem.{Problem as Ground};
ghost use Rattle.tp_spec.specs.Interference.{asks, interfere as interferes};
ghost use Rattle.world_state.specs.declared.rows.BitRow.{BitRow as Row};
ghost use Rattle.node_state.specs.Judges.{item_of};
ghost use Rattle.node_state.specs.Footprints.{footprint_get, quiet_by, writes, AreApart, AreFootprints, AreFootprintsOf, Covers, IsFootprintOn};

use crate::judge::item;
use crate::ranks::{all_write_in, are_of_facts, effects_of_action};
use std::alloc::Global;
use tp_spec::{Cond, Effect, Item, NoMemory, Problem};
use world_state::BitRow;

/// What the start or the end of an action asks and writes, each fact as the bit of its number
/// modulo 64; whether it changes no fluent, and whether all that it writes are facts of which the
/// goal does not speak.
#[derive(Clone, Copy)]
pub(crate) struct Footprint {
    asked: u64,
    written: u64,
    plain: bool,
    quiet: bool,
}

/// The footprints of the ends and the starts of all actions, each by its number.
#[derive(Drop)]
pub(crate) struct Footprints {
    ends: Vec<Footprint>,
    starts: Vec<Footprint>,
}

impl Footprints {
    /// The footprints of a problem, with the row of the facts of which its goal does not speak.
    pub(crate) fn of(
        alloc: Global,
        problem: &Problem,
        free: &BitRow,
    ) -> Result<Footprints, NoMemory>
        ensures { IfOk result (λ t. AreFootprints problem.now free.now t) }
    {
        let ends = footprints_of(alloc, problem, free, false)?;
        let starts = footprints_of(alloc, problem, free, true)?;
        Ok(Footprints { ends, starts })
    }

    /// Whether two items change no fluent and their bits do not meet, so that they do not
    /// interfere; false tells nothing.
    pub(crate) fn are_apart(&self, a: Item, b: Item) -> bool
        ensures { (p : Ground) (free : Row) → AreFootprints p free self.now → result ≡ true
            → interferes p a b ≡ false }
    {
        match self.get(a) {
            None => false,
            Some(first) => match self.get(b) {
                None => false,
                Some(second) => do_not_meet(first, second),
            },
        }
    }

    /// Whether the goal speaks of nothing that a group with an item more writes.
    pub(crate) fn are_quiet(&self, group: &[Item], item: Item) -> bool
        ensures { result ≡ (list_all (quiet_by self.now) group.now && quiet_by self.now item) }
    {
        self.is_group_quiet(group) && self.is_quiet(item)
    }

    fn is_group_quiet(&self, group: &[Item]) -> bool
        ensures { result ≡ list_all (quiet_by self.now) group.now }
    {
        group.iter().all(|item| self.is_quiet(*item))
    }

    /// Whether the goal speaks of nothing that the start or the end of an action writes.
    fn is_quiet(&self, item: Item) -> bool
        ensures { result ≡ quiet_by self.now item }
    {
        match self.get(item) {
            None => false,
            Some(footprint) => footprint.quiet,
        }
    }

    /// The footprint of an item, none for a timed item.
    fn get(&self, item: Item) -> Option<&Footprint>
        ensures { option_copied result ≡ footprint_get self.now item }
    {
        match item {
            Item::TimedAt(_) => None,
            Item::End(action) => self.ends.get(action as usize),
            Item::Start(action) => self.starts.get(action as usize),
        }
    }
}

/// Whether neither changes a fluent or writes what the other asks or writes.
fn do_not_meet(a: &Footprint, b: &Footprint) -> bool
    ensures { result ≡ true → AreApart a.now b.now }
{
    if !(a.plain && b.plain) {
        return false;
    }
    a.written & b.asked == 0 && a.written & b.written == 0 && b.written & a.asked == 0
}

/// The footprints of the starts or of the ends of all actions.
fn footprints_of(
    alloc: Global,
    problem: &Problem,
    free: &BitRow,
    starts: bool,
) -> Result<Vec<Footprint>, NoMemory>
    ensures { IfOk result (λ v. AreFootprintsOf problem.now free.now (item_of starts) v.items) }
{
    problem.keeps_the_rules();
    let mut footprints = Vec::new(alloc);
    for index in 0..problem.actions.as_slice().len() {
        let item = item(starts, index as u32);
        let footprint = footprint_on(
            free,
            problem.conditions(item),
            effects_of_action(problem, item),
        );
        push_footprint(&mut footprints, footprint)?;
    }
    Ok(footprints)
}

fn push_footprint(footprints: &mut Vec<Footprint>, footprint: Footprint) -> Result<(), NoMemory>
    ensures { OnOk result (footprints.new.items ≡ footprints.old.items ++ footprint ∷ []) }
{
    match footprints.push(footprint) {
        Ok(()) => Ok(()),
        Err(_) => Err(NoMemory),
    }
}

/// The footprint of an item with these conditions and effects.
fn footprint_on(free: &BitRow, conds: &[Cond], effects: &[Effect]) -> Footprint
    ensures { IsFootprintOn free.now conds.now effects.now result }
{
    Footprint {
        asked: asked_bits(conds),
        written: written_bits(effects),
        plain: are_of_facts(effects),
        quiet: all_write_in(free, effects),
    }
}

/// The bits of the facts that conditions ask.
fn asked_bits(conds: &[Cond]) -> u64
    ensures { Covers result (λ f. list_any (asks f) conds.now) }
{
    let mut bits = 0;
    for cond in conds {
        bits |= asked_bit(cond);
    }
    bits
}

fn asked_bit(cond: &Cond) -> u64
    ensures { Covers result (λ f. asks f cond.now) }
{
    match cond {
        Cond::Lit { fact, .. } => bit_of(*fact),
        Cond::Compare { .. } => 0,
    }
}

/// The bits of the facts that effects add or delete.
fn written_bits(effects: &[Effect]) -> u64
    ensures { Covers result (λ f. list_any (writes f) effects.now) }
{
    let mut bits = 0;
    for effect in effects {
        bits |= written_bit(effect);
    }
    bits
}

fn written_bit(effect: &Effect) -> u64
    ensures { Covers result (λ f. writes f effect.now) }
{
    match effect {
        Effect::Add(fact) => bit_of(*fact),
        Effect::Delete(fact) => bit_of(*fact),
        Effect::Change { .. } => 0,
    }
}

/// The bit of a fact: that of its number modulo 64.
fn bit_of(fact: u32) -> u64
    ensures { bit_at result (fact % 64) ≡ 1 }
{
    1 << (fact % 64)
}
