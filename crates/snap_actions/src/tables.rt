ghost use Rattle.std.specs.Prelude.{◌≡◌, ℕ, [], ◌∷◌, ◌++◌, length, slice_get, Some, IfOk, OnOk};
ghost use Rattle.std.specs.List.{list_any};
ghost use Rattle.std.specs.Option.{option_copied};
ghost use Rattle.tp_spec.specs.Interference.{asks, cond_reads, reads};
ghost use Rattle.tp_spec.specs.Items.{timed_effects};
ghost use Rattle.world_state.specs.Rows.{words_for, Takes};
ghost use Rattle.snap_actions.specs.Tables.{table_get, AreEmpty, AreItemRows, AreRowsWithin, AreTables, TookConds, TookEffects};

use std::alloc::Global;
use tp_spec::{Cond, Effect, Expr, How, Item, NoMemory, Problem, TimedItem};
use world_state::BitRow;

/// What one item asks, reads and does: rows of facts that its conditions ask and its effects add
/// and delete, and rows of fluents that its conditions and right sides read, that it increases or
/// decreases, and that it assigns.
#[derive(Debug, Drop)]
pub(crate) struct ItemRows {
    pub(crate) asked: BitRow,
    pub(crate) added: BitRow,
    pub(crate) deleted: BitRow,
    pub(crate) read: BitRow,
    pub(crate) stepped: BitRow,
    pub(crate) assigned: BitRow,
}

/// The rows of each item of a problem: its timed items, the ends and the starts of its actions,
/// each by its number.
#[derive(Debug, Drop)]
pub struct Items {
    timed: Vec<ItemRows>,
    ends: Vec<ItemRows>,
    starts: Vec<ItemRows>,
}

/// The tables of a problem's items.
pub fn items_of(alloc: Global, problem: &Problem) -> Result<Items, NoMemory>
    ensures { IfOk result (λ t. AreTables problem.now t) }
{
    problem.keeps_the_rules();
    let timed = rows_of_timed(alloc, problem)?;
    let ends = rows_of_ends(alloc, problem)?;
    let starts = rows_of_starts(alloc, problem)?;
    Ok(Items {
        timed,
        ends,
        starts,
    })
}

impl Items {
    /// The rows of an item, none where its problem has no such item.
    pub(crate) fn rows(&self, item: Item) -> Option<&ItemRows>
        ensures { option_copied result ≡ table_get self.now item }
    {
        match item {
            Item::TimedAt(number) => self.timed.get(number as usize),
            Item::End(action) => self.ends.get(action as usize),
            Item::Start(action) => self.starts.get(action as usize),
        }
    }
}

/// The rows of each timed item.
fn rows_of_timed(alloc: Global, problem: &Problem) -> Result<Vec<ItemRows>, NoMemory>
    ensures len { IfOk result (λ v. length v.items ≡ length problem.now.timed) }
    ensures each { IfOk result (λ v. (k : ℕ) (rows : ItemRows) → slice_get v.items k ≡ Some rows
        → AreItemRows problem.now (Item.TimedAt k) rows) }
{
    let facts = problem.facts.as_slice().len();
    let fluents = problem.fluents.as_slice().len();
    let mut rows = Vec::new(alloc);
    for item in problem.timed.as_slice() {
        let item_rows = ItemRows::of_timed(alloc, facts, fluents, item)?;
        push_rows(&mut rows, item_rows)?;
    }
    Ok(rows)
}

/// The rows of the end of each action.
fn rows_of_ends(alloc: Global, problem: &Problem) -> Result<Vec<ItemRows>, NoMemory>
    ensures len { IfOk result (λ v. length v.items ≡ length problem.now.actions) }
    ensures each { IfOk result (λ v. (a : ℕ) (rows : ItemRows) → slice_get v.items a ≡ Some rows
        → AreItemRows problem.now (Item.End a) rows) }
{
    let facts = problem.facts.as_slice().len();
    let fluents = problem.fluents.as_slice().len();
    let mut rows = Vec::new(alloc);
    for action in problem.actions.as_slice() {
        let conds = action.end_conds.as_slice();
        let effects = action.end_effects.as_slice();
        let item_rows = ItemRows::of(alloc, facts, fluents, conds, effects)?;
        push_rows(&mut rows, item_rows)?;
    }
    Ok(rows)
}

/// The rows of the start of each action.
fn rows_of_starts(alloc: Global, problem: &Problem) -> Result<Vec<ItemRows>, NoMemory>
    ensures len { IfOk result (λ v. length v.items ≡ length problem.now.actions) }
    ensures each { IfOk result (λ v. (a : ℕ) (rows : ItemRows) → slice_get v.items a ≡ Some rows
        → AreItemRows problem.now (Item.Start a) rows) }
{
    let facts = problem.facts.as_slice().len();
    let fluents = problem.fluents.as_slice().len();
    let mut rows = Vec::new(alloc);
    for action in problem.actions.as_slice() {
        let conds = action.start_conds.as_slice();
        let effects = action.start_effects.as_slice();
        let item_rows = ItemRows::of(alloc, facts, fluents, conds, effects)?;
        push_rows(&mut rows, item_rows)?;
    }
    Ok(rows)
}

/// Puts the rows of one item more behind the others.
fn push_rows(rows: &mut Vec<ItemRows>, item_rows: ItemRows) -> Result<(), NoMemory>
    ensures { OnOk result (rows.new.items ≡ rows.old.items ++ item_rows ∷ []) }
{
    match rows.push(item_rows) {
        Ok(()) => Ok(()),
        Err(_) => Err(NoMemory),
    }
}

impl ItemRows {
    /// The rows of an item that asks and does nothing, of a problem with so many facts and fluents.
    fn empty(alloc: Global, facts: usize, fluents: usize) -> Result<ItemRows, NoMemory>
        ensures { IfOk result (λ r. AreEmpty (words_for facts) (words_for fluents) r) }
    {
        Ok(ItemRows {
            asked: BitRow::empty(alloc, facts)?,
            added: BitRow::empty(alloc, facts)?,
            deleted: BitRow::empty(alloc, facts)?,
            read: BitRow::empty(alloc, fluents)?,
            stepped: BitRow::empty(alloc, fluents)?,
            assigned: BitRow::empty(alloc, fluents)?,
        })
    }

    /// The rows of an item with these conditions and effects.
    fn of(
        alloc: Global,
        facts: usize,
        fluents: usize,
        conds: &[Cond],
        effects: &[Effect],
    ) -> Result<ItemRows, NoMemory>
        ensures { IfOk result (λ r. AreRowsWithin (words_for facts) (words_for fluents) r conds.now
            effects.now) }
    {
        let mut rows = ItemRows::empty(alloc, facts, fluents)?;
        rows.ask_all(conds);
        rows.include_all(effects);
        Ok(rows)
    }

    /// The rows of a timed item.
    fn of_timed(
        alloc: Global,
        facts: usize,
        fluents: usize,
        timed: &TimedItem,
    ) -> Result<ItemRows, NoMemory>
        ensures { IfOk result (λ r. AreRowsWithin (words_for facts) (words_for fluents) r []
            (timed_effects timed.now)) }
    {
        let mut rows = ItemRows::empty(alloc, facts, fluents)?;
        rows.added.insert_each(timed.adds.as_slice());
        rows.deleted.insert_each(timed.deletes.as_slice());
        Ok(rows)
    }

    /// Takes in what conditions ask and read.
    fn ask_all(&mut self, conds: &[Cond])
        ensures { TookConds self.old self.new (λ f. list_any (asks f) conds.now)
            (λ x. list_any (cond_reads x) conds.now) }
    {
        for cond in conds {
            self.ask(cond);
        }
    }

    /// Takes in what a condition asks and reads.
    fn ask(&mut self, cond: &Cond)
        ensures { TookConds self.old self.new (λ f. asks f cond.now) (λ x. cond_reads x cond.now) }
    {
        match cond {
            Cond::Lit { fact, .. } => self.asked.insert(*fact),
            Cond::Compare { left, right, .. } => {
                insert_read(&mut self.read, left);
                insert_read(&mut self.read, right);
            }
        }
    }

    /// Takes in what effects add, delete, read and change.
    fn include_all(&mut self, effects: &[Effect])
        ensures { TookEffects self.old self.new effects.now }
    {
        for effect in effects {
            self.include(effect);
        }
    }

    /// Takes in what an effect adds, deletes, reads and changes.
    fn include(&mut self, effect: &Effect)
        ensures { TookEffects self.old self.new (effect.now ∷ []) }
    {
        match effect {
            Effect::Add(fact) => self.added.insert(*fact),
            Effect::Delete(fact) => self.deleted.insert(*fact),
            Effect::Change { how, fluent, value } => {
                insert_read(&mut self.read, value);
                match how {
                    How::Increase => self.stepped.insert(*fluent),
                    How::Decrease => self.stepped.insert(*fluent),
                    How::Assign => self.assigned.insert(*fluent),
                }
            }
        }
    }
}

/// Puts the fluents that an expression reads into a row.
fn insert_read(row: &mut BitRow, expr: &Expr)
    ensures { Takes row.old row.new (λ x. reads x expr.now) }
{
    match expr {
        Expr::Number(_) => {}
        Expr::Fluent(fluent) => row.insert(*fluent),
        Expr::Sum(left, right) => {
            insert_read(row, left.get());
            insert_read(row, right.get());
        }
        Expr::Difference(left, right) => {
            insert_read(row, left.get());
            insert_read(row, right.get());
        }
    }
}
