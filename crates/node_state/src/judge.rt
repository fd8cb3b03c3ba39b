ghost use Rattle.std.specs.Prelude.{◌≡◌, ℕ, ◌<◌, nat_lt, ◌*◌, true, false, [], ◌∷◌, ◌++◌, not, ◌&&◌, length, map, IfOk, IfSome, OnOk, IsTrue, MatchOption};
ghost use Rattle.std.specs.List.{AllByRecursion, list_all, list_any, range_with_len};
ghost use Rattle.tp_spec.specs.Lists.{is_empty};
ghost use Rattle.tp_spec.specs.Items.{all_items, item_before, own};
ghost use Rattle.tp_spec.specs.States.{holds as holds_in};
ghost use Rattle.tp_spec.specs.Interference.{interfere as interferes};
ghost use Rattle.tp_spec.specs.Words.{Progress, Sound, closes, progress, in_turn as comes_in_turn, is_end_of, may_join as joins};
ghost use Rattle.tp_laws.specs.Plans.{begins_timed as has_first};
ghost use Rattle.world_state.specs.Rows.{is_in_row};
ghost use Rattle.world_state.specs.View.{meaning};
ghost use Rattle.node_state.specs.Growths.{IsGrowthOf};
ghost use Rattle.tp_spec.specs.declared.plan.Item.TheVariants.{TimedAt, End, Start};
ghost use Rattle.node_state.specs.Readings.{progress_of, IsClosed, IsReadingOf};
ghost use Rattle.tp_spec.specs.Items.{number as number_of};
ghost use Rattle.node_state.specs.Judges.{item_of, IsCover};
ghost use Rattle.node_state.specs.Ranks.{unmet_before};
ghost use Rattle.node_state.specs.Levels.{is_fresh_at, AreLevels, IsLevel};
ghost use Rattle.node_state.specs.Founds.{ends_in_goal, unmet_with, Grew, TookMarks};

use crate::asked::{goal_holds, unmet_in};
use crate::footprints::Footprints;
use crate::growth::Growth;
use crate::levels::{Level, descend};
use crate::ones::{next_one, next_word};
use crate::ranks::{free_facts, unmet_by_effects};
use crate::reading::Reading;
use crate::wants::Wants;
use snap_actions::{Items, interfere, items_of};
use std::alloc::Global;
use std::marker::Model;
use tp_spec::{Cond, Item, List, Mark, NoMemory, Problem};
use world_state::{BitRow, State, apply, can};

/// How many marks have room before their list grows.
const ROOM: usize = 16;

/// Marks, and how many goal parts do not hold behind each of them.
#[derive(Drop)]
pub(crate) struct Found {
    pub(crate) marks: Vec<Mark>,
    pub(crate) ranks: Vec<u32>,
}

/// A problem with the tables of its items, by which marks are judged.
#[derive(Drop)]
pub(crate) struct Judge<'p> {
    alloc: Global,
    problem: &'p Problem,
    items: Items,
    wants: Wants,
    start: Reading,
    free: BitRow,
    footprints: Footprints,
}

impl<'p> Model for Judge<'p> {
    ghost use Rattle.tp_spec.specs.declared.problem.Problem.{Problem as Ground};
    ghost use Rattle.tp_spec.specs.contracts.expr.Expr as expr;
    ghost use Rattle.std.specs.Coded.{codes};
    ghost use Rattle.node_state.specs.Judges.{IsJudgeOf};

    ghost Value = { Ground };

    ghost coded = { Prim.hlevel (codes, expr.the_row.coded) };

    ghost view = { λ j. j.problem.now };

    ghost invariant = { λ j. IsJudgeOf j.problem.now j.items j.wants j.start j.free j.footprints };
}

impl<'p> Judge<'p> {
    /// A judge of a problem's marks.
    pub(crate) fn new(alloc: Global, problem: &'p Problem) -> Result<Judge<'p>, NoMemory>
        ensures { IfOk result (λ j. j ≡ problem.now) }
    {
        let items = items_of(alloc, problem)?;
        let wants = Wants::of(alloc, problem)?;
        let start = Reading::at_start(alloc, problem)?;
        let free = free_facts(alloc, problem)?;
        let footprints = Footprints::of(alloc, problem, &free)?;
        Ok(Judge {
            alloc,
            problem,
            items,
            wants,
            start,
            free,
            footprints,
        })
    }

    /// What may come behind the empty word.
    pub(crate) fn first_growth(&self, word: &[Mark]) -> Result<Growth, NoMemory>
        requires { word.now ≡ [] }
        ensures { IfOk result (λ g. IsGrowthOf self.now word.now g) }
    {
        let (growth, _next) = self.growth(&self.start, word)?;
        Ok(growth)
    }

    /// The last of some levels, which is taken from them, or else the level of the first group.
    pub(crate) fn top(&self, levels: &mut Vec<Level>, word: &[Mark]) -> Result<Level, NoMemory>
        requires levels { AreLevels self.now word.now levels.old.items }
        requires open { AllByRecursion (λ l. is_fresh_at word.now l.start ≡ true)
            levels.old.items }
        requires some { is_empty word.now ≡ false }
        requires sound { Sound self.now word.now }
        ensures levels { AreLevels self.now word.now levels.new.items }
        ensures top { IfOk result (λ l. IsLevel self.now word.now l) }
        ensures open { IfOk result (λ l. is_fresh_at word.now l.start ≡ true) }
    {
        match levels.pop() {
            Some(top) => Ok(top),
            None => Ok(Level {
                start: 0,
                timed: 0,
                reading: self.start.copy(self.alloc)?,
            }),
        }
    }

    /// Reads a word on from the group of a level, and puts each level that is left behind the
    /// others.
    pub(crate) fn descend(
        &self,
        levels: &mut Vec<Level>,
        top: Level,
        word: &[Mark],
    ) -> Result<Level, NoMemory>
        requires levels { AreLevels self.now word.now levels.old.items }
        requires top { IsLevel self.now word.now top }
        requires open { is_fresh_at word.now top.start ≡ true }
        requires sound { Sound self.now word.now }
        ensures levels { AreLevels self.now word.now levels.new.items }
        ensures top { IfOk result (λ l. IsLevel self.now word.now l) }
        ensures progress { IfOk result (λ l. progress_of l.reading ≡ progress self.now word.now) }
    {
        descend(self.alloc, self.problem, &self.wants, levels, top, word)
    }

    /// What may come behind a word that was read, and the reading with its last group closed, if
    /// this may be closed.
    pub(crate) fn growth(
        &self,
        reading: &Reading,
        word: &[Mark],
    ) -> Result<(Growth, Option<Reading>), NoMemory>
        requires reading { IsReadingOf self.now reading.now }
        requires progress { progress_of reading.now ≡ progress self.now word.now }
        ensures growth { IfOk result (λ r. IsGrowthOf self.now word.now r.0) }
        ensures closed { IfOk result (λ r. IfSome r.1
            (λ n. IsClosed self.now (progress_of reading.now) n)) }
    {
        let mut found = Found::none(self.alloc)?;
        self.offer_joining(reading, &mut found)?;
        let Some(next) = self.closed(reading)? else {
            return Ok((found.into_growth(false), None));
        };
        self.offer_opening(&next, &mut found)?;
        let whole = self.is_whole(&next, word);
        Ok((found.into_growth(whole), Some(next)))
    }

    /// A word with its last group closed, none exactly where this may not be closed.
    fn closed(&self, reading: &Reading) -> Result<Option<Reading>, NoMemory>
        requires { IsReadingOf self.now reading.now }
        ensures { IfOk result (λ r. MatchOption r
            (closes self.now (progress_of reading.now) ≡ false)
            (λ n. IsClosed self.now (progress_of reading.now) n)) }
    {
        reading.closed(self.alloc, self.problem, &self.wants)
    }

    /// Takes in the marks that may join a word's last group.
    fn offer_joining(&self, reading: &Reading, found: &mut Found) -> Result<(), NoMemory>
        requires { IsReadingOf self.now reading.now }
        ensures { OnOk result (TookMarks self.now (progress_of reading.now) false found.old
            found.new) }
    {
        if is_without(&reading.group) {
            return Ok(());
        }
        self.offer_all(reading, false, found)?;
        Ok(())
    }

    /// Takes in the marks that may open a group, by the reading with the last group closed.
    fn offer_opening(&self, closed: &Reading, found: &mut Found) -> Result<(), NoMemory>
        requires { IsReadingOf self.now closed.now }
        ensures { OnOk result ((c : Progress) → IsClosed self.now c closed.now
            → TookMarks self.now c true found.old found.new) }
    {
        self.offer_all(closed, true, found)?;
        Ok(())
    }

    /// Whether a word whose last group was closed is whole.
    fn is_whole(&self, closed: &Reading, word: &[Mark]) -> bool
        requires { IsReadingOf self.now closed.now }
        ensures { result ≡ (ends_in_goal self.now (progress_of closed.now)
            && not (is_empty word.now && has_first self.now)) }
    {
        self.is_end(closed) && !(word.is_empty() && begins_timed(self.problem))
    }

    /// Whether nothing runs after a word whose last group was closed, and each goal part holds.
    fn is_end(&self, closed: &Reading) -> bool
        requires { IsReadingOf self.now closed.now }
        ensures { result ≡ ends_in_goal self.now (progress_of closed.now) }
    {
        none_run(self.problem, &closed.running) && goal_holds(self.problem, &closed.before)
    }

    /// Takes in all marks of items that may join a word's last group, in item order, fresh ones or
    /// not.
    fn offer_all(&self, reading: &Reading, fresh: bool, found: &mut Found) -> Result<(), NoMemory>
        requires { IsReadingOf self.now reading.now }
        ensures { OnOk result (Grew self.now (progress_of reading.now) fresh found.old found.new
            (all_items self.now)) }
    {
        let unmet = self.unmet(reading);
        self.offer_timed(reading, fresh, unmet, found)?;
        self.offer_ends(reading, fresh, unmet, found)?;
        self.offer_starts(reading, fresh, unmet, found)
    }

    /// How many goal parts do not hold before a word's last group.
    fn unmet(&self, reading: &Reading) -> u32
        ensures { result ≡ unmet_before self.now (progress_of reading.now) }
    {
        unmet_in(self.problem, &reading.before)
    }

    /// Takes in the mark of the next timed item, if that may join; no other one may.
    fn offer_timed(
        &self,
        reading: &Reading,
        fresh: bool,
        unmet: u32,
        found: &mut Found,
    ) -> Result<(), NoMemory>
        requires reading { IsReadingOf self.now reading.now }
        requires unmet { unmet ≡ unmet_before self.now (progress_of reading.now) }
        ensures { OnOk result (Grew self.now (progress_of reading.now) fresh found.old found.new
            (map TimedAt (range_with_len 0 (length self.now.timed)))) }
    {
        let problem = self.problem;
        if reading.timed as usize >= problem.timed.as_slice().len() {
            return Ok(());
        }
        self.offer(reading, fresh, unmet, Item::TimedAt(reading.timed), found)?;
        Ok(())
    }

    fn offer_ends(
        &self,
        reading: &Reading,
        fresh: bool,
        unmet: u32,
        found: &mut Found,
    ) -> Result<(), NoMemory>
        requires reading { IsReadingOf self.now reading.now }
        requires unmet { unmet ≡ unmet_before self.now (progress_of reading.now) }
        ensures { OnOk result (Grew self.now (progress_of reading.now) fresh found.old found.new
            (map End (range_with_len 0 (length self.now.actions)))) }
    {
        self.offer_row(reading, fresh, unmet, &reading.running, false, found)?;
        Ok(())
    }

    fn offer_starts(
        &self,
        reading: &Reading,
        fresh: bool,
        unmet: u32,
        found: &mut Found,
    ) -> Result<(), NoMemory>
        requires reading { IsReadingOf self.now reading.now }
        requires unmet { unmet ≡ unmet_before self.now (progress_of reading.now) }
        ensures { OnOk result (Grew self.now (progress_of reading.now) fresh found.old found.new
            (map Start (range_with_len 0 (length self.now.actions)))) }
    {
        self.offer_row(reading, fresh, unmet, &reading.candidates, true, found)?;
        Ok(())
    }

    /// Takes in the marks of the starts or the ends of all actions that may join; none may whose
    /// action is not in the row.
    fn offer_row(
        &self,
        reading: &Reading,
        fresh: bool,
        unmet: u32,
        row: &BitRow,
        starts: bool,
        found: &mut Found,
    ) -> Result<(), NoMemory>
        requires reading { IsReadingOf self.now reading.now }
        requires covers { IsCover self.now (progress_of reading.now) starts row.now }
        requires unmet { unmet ≡ unmet_before self.now (progress_of reading.now) }
        ensures { OnOk result (Grew self.now (progress_of reading.now) fresh found.old found.new
            (map (item_of starts) (range_with_len 0 (length self.now.actions)))) }
    {
        let problem = self.problem;
        problem.keeps_the_rules();
        let blocks = problem.actions.as_slice().len().div_ceil(64);
        let mut block = next_word(row, 0, blocks);
        while block < blocks {
            self.offer_block(reading, fresh, unmet, row, starts, block, found)?;
            block = next_word(row, block + 1, blocks);
        }
        Ok(())
    }

    /// The same for a block of 64 actions.
    fn offer_block(
        &self,
        reading: &Reading,
        fresh: bool,
        unmet: u32,
        row: &BitRow,
        starts: bool,
        block: usize,
        found: &mut Found,
    ) -> Result<(), NoMemory>
        requires small { block < 1048576 }
        requires reading { IsReadingOf self.now reading.now }
        requires covers { IsCover self.now (progress_of reading.now) starts row.now }
        requires unmet { unmet ≡ unmet_before self.now (progress_of reading.now) }
        ensures { OnOk result (Grew self.now (progress_of reading.now) fresh found.old found.new
            (map (item_of starts) (range_with_len (64 * block) 64))) }
    {
        let word = row.word(block);
        let mut bit = next_one(word, 0);
        while bit < 64 {
            let action = 64 * block as u32 + bit;
            self.offer_member(reading, fresh, unmet, item(starts, action), found)?;
            bit = next_one(word, bit + 1);
        }
        Ok(())
    }

    /// Takes in the mark of an item of a row, if that may join. Most items that may not fail by the
    /// second of their conditions, as the first one chose the row: that is judged at once.
    fn offer_member(
        &self,
        reading: &Reading,
        fresh: bool,
        unmet: u32,
        item: Item,
        found: &mut Found,
    ) -> Result<(), NoMemory>
        requires reading { IsReadingOf self.now reading.now }
        requires unmet { unmet ≡ unmet_before self.now (progress_of reading.now) }
        ensures { OnOk result (Grew self.now (progress_of reading.now) fresh found.old found.new
            (item ∷ [])) }
    {
        if self.fails_early(reading, item) {
            return Ok(());
        }
        self.offer(reading, fresh, unmet, item, found)?;
        Ok(())
    }

    /// Whether the second condition of an item is a literal that does not hold.
    fn fails_early(&self, reading: &Reading, item: Item) -> bool
        ensures { result ≡ true → joins self.now (progress_of reading.now) item ≡ false }
    {
        is_second_broken(self.problem, &reading.before, item)
    }

    /// Takes in the mark of an item, if that may join.
    fn offer(
        &self,
        reading: &Reading,
        fresh: bool,
        unmet: u32,
        item: Item,
        found: &mut Found,
    ) -> Result<(), NoMemory>
        requires reading { IsReadingOf self.now reading.now }
        requires unmet { unmet ≡ unmet_before self.now (progress_of reading.now) }
        ensures { OnOk result (Grew self.now (progress_of reading.now) fresh found.old found.new
            (item ∷ [])) }
    {
        if !self.may_join(reading, item) {
            return Ok(());
        }
        let rank = self.rank_with(reading, unmet, item)?;
        found.put(Mark { fresh, item }, rank)
    }

    /// How many goal parts do not hold after a word's last group with an item more, which may join
    /// it; all of them where there is no state after it.
    fn rank_with(&self, reading: &Reading, unmet: u32, item: Item) -> Result<u32, NoMemory>
        requires reading { IsReadingOf self.now reading.now }
        requires joins { IsTrue (joins self.now (progress_of reading.now) item) }
        requires unmet { unmet ≡ unmet_before self.now (progress_of reading.now) }
        ensures { IfOk result (λ n. n ≡ unmet_with self.now (progress_of reading.now) item) }
    {
        if self.leaves_goal(reading, item) {
            return Ok(unmet);
        }
        match self.rank_by_effects(reading, item) {
            Some(rank) => Ok(rank),
            None => self.rank_by_state(reading, item),
        }
    }

    /// Whether the goal speaks of nothing that a group with an item more writes.
    fn leaves_goal(&self, reading: &Reading, item: Item) -> bool
        ensures { result ≡ true → unmet_before self.now (progress_of reading.now)
            ≡ unmet_with self.now (progress_of reading.now) item }
    {
        self.footprints.are_quiet(&reading.group, item)
    }

    /// The same by what the items write, where none of them changes a fluent.
    fn rank_by_effects(&self, reading: &Reading, item: Item) -> Option<u32>
        ensures { IfSome result (λ n. n ≡ unmet_with self.now (progress_of reading.now) item) }
    {
        unmet_by_effects(self.problem, reading, item)
    }

    /// The same over the state after the longer group.
    fn rank_by_state(&self, reading: &Reading, item: Item) -> Result<u32, NoMemory>
        requires reading { IsReadingOf self.now reading.now }
        requires joins { IsTrue (joins self.now (progress_of reading.now) item) }
        ensures { IfOk result (λ n. n ≡ unmet_with self.now (progress_of reading.now) item) }
    {
        let problem = self.problem;
        problem.keeps_the_rules();
        let longer = with_item(self.alloc, &reading.group, item)?;
        match apply(self.alloc, problem, &reading.before, &longer)? {
            Some(after) => Ok(unmet_in(problem, &after)),
            None => Ok(problem.goal.as_slice().len() as u32),
        }
    }

    /// Whether an item may join a word's last group.
    fn may_join(&self, reading: &Reading, item: Item) -> bool
        ensures { result ≡ joins self.now (progress_of reading.now) item }
    {
        if !is_next(self.problem, reading, item) {
            return false;
        }
        if !can(self.problem, &reading.before, item) {
            return false;
        }
        self.is_apart(&reading.group, item)
    }

    /// Whether an item interferes with none of a group.
    fn is_apart(&self, group: &[Item], item: Item) -> bool
        ensures { result ≡ list_all (λ j. not (interferes self.now j item)) group.now }
    {
        for other in group {
            if self.disturb(*other, item) {
                return false;
            }
        }
        true
    }

    /// Whether two items interfere: where their footprints do not tell, by their rows.
    fn disturb(&self, a: Item, b: Item) -> bool
        ensures { result ≡ interferes self.now a b }
    {
        if self.footprints.are_apart(a, b) {
            return false;
        }
        interfere(&self.items, a, b)
    }
}

impl Found {
    /// No marks, with room for some: most words have few that may follow.
    fn none(alloc: Global) -> Result<Found, NoMemory>
        ensures marks { IfOk result (λ f. f.marks.items ≡ []) }
        ensures ranks { IfOk result (λ f. f.ranks.items ≡ []) }
    {
        let Ok(marks) = Vec::with_capacity(alloc, ROOM) else {
            return Err(NoMemory);
        };
        let Ok(ranks) = Vec::with_capacity(alloc, ROOM) else {
            return Err(NoMemory);
        };
        Ok(Found { marks, ranks })
    }

    /// These marks and ranks, and whether the word is whole.
    fn into_growth(self, whole: bool) -> Growth
        ensures marks { result.marks ≡ self.marks.items }
        ensures ranks { result.ranks ≡ self.ranks.items }
        ensures whole { result.whole ≡ whole }
    {
        let Found { marks, ranks } = self;
        Growth {
            marks: List::of(marks),
            ranks: List::of(ranks),
            whole,
        }
    }

    /// Puts a mark behind the others.
    fn put(&mut self, mark: Mark, rank: u32) -> Result<(), NoMemory>
        ensures marks { OnOk result (self.new.marks.items ≡ self.old.marks.items ++ mark ∷ []) }
        ensures ranks { OnOk result (self.new.ranks.items ≡ self.old.ranks.items ++ rank ∷ []) }
    {
        if self.marks.push(mark).is_err() {
            return Err(NoMemory);
        }
        if self.ranks.push(rank).is_err() {
            return Err(NoMemory);
        }
        Ok(())
    }
}

/// Whether no action runs: a row that has a number meets itself.
fn none_run(problem: &Problem, running: &BitRow) -> bool
    requires { (a : ℕ) → is_in_row running.now a ≡ true
        → IsTrue (nat_lt a (length problem.now.actions)) }
    ensures { result ≡ list_all (λ a. not (is_in_row running.now a))
        (range_with_len 0 (length problem.now.actions)) }
{
    !running.meets(running)
}

/// Whether a timed item stands at tick 0.
fn begins_timed(problem: &Problem) -> bool
    ensures { result ≡ has_first problem.now }
{
    match problem.timed_item(0) {
        Some(item) => item.tick == 0,
        None => false,
    }
}

/// Whether the second condition of an item is a literal that does not hold.
fn is_second_broken(problem: &Problem, state: &State, item: Item) -> bool
    ensures { result ≡ true → own problem.now (meaning state.now) item ≡ false }
{
    match problem.conditions(item).get(1) {
        Some(cond) => is_broken_literal(state, cond),
        None => false,
    }
}

/// Whether a condition is a literal that does not hold.
fn is_broken_literal(state: &State, cond: &Cond) -> bool
    ensures { result ≡ true → holds_in (meaning state.now) cond.now ≡ false }
{
    match cond {
        Cond::Lit { fact, positive } => state.has(*fact) != *positive,
        Cond::Compare { .. } => false,
    }
}

/// Whether an item may come next by what came before, and comes behind its group's items.
fn is_next(problem: &Problem, reading: &Reading, item: Item) -> bool
    ensures { result ≡ (comes_in_turn problem.now (progress_of reading.now) item
        && list_all (λ j. item_before j item) reading.now.group.items) }
{
    in_turn(problem, reading, item) && is_behind(&reading.group, item)
}

/// Whether an item comes behind all items of a group in the item order.
fn is_behind(group: &[Item], item: Item) -> bool
    ensures { result ≡ list_all (λ j. item_before j item) group.now }
{
    group.iter().all(|other| is_before(*other, item))
}

/// Whether a group has no item.
fn is_without(group: &[Item]) -> bool
    ensures { result ≡ is_empty group.now }
{
    group.is_empty()
}

/// A group with an item more.
fn with_item(alloc: Global, group: &[Item], item: Item) -> Result<Vec<Item>, NoMemory>
    ensures { IfOk result (λ v. v.items ≡ group.now ++ item ∷ []) }
{
    let Ok(mut longer) = Vec::from_slice(alloc, group) else {
        return Err(NoMemory);
    };
    match longer.push(item) {
        Ok(()) => Ok(longer),
        Err(_) => Err(NoMemory),
    }
}

/// Whether an item may come next by what came before: a timed item in order, an end of what runs, a
/// start of what does not.
fn in_turn(problem: &Problem, reading: &Reading, item: Item) -> bool
    ensures { result ≡ comes_in_turn problem.now (progress_of reading.now) item }
{
    match item {
        Item::TimedAt(number) => {
            number == reading.timed && (number as usize) < problem.timed.as_slice().len()
        }
        Item::End(action) => reading.running.has(action) && !ends_in(&reading.group, action),
        Item::Start(action) => {
            (action as usize) < problem.actions.as_slice().len()
                && (!reading.running.has(action) || ends_in(&reading.group, action))
        }
    }
}

/// The start or the end of an action.
pub(crate) fn item(starts: bool, action: u32) -> Item
    ensures { result ≡ item_of starts action }
{
    if starts {
        Item::Start(action)
    } else {
        Item::End(action)
    }
}

/// An item's number among those of its kind.
fn number(item: Item) -> u32
    ensures { result ≡ number_of item }
{
    match item {
        Item::TimedAt(number) => number,
        Item::End(number) => number,
        Item::Start(number) => number,
    }
}

/// Whether an action ends in a group.
fn ends_in(group: &[Item], action: u32) -> bool
    ensures { result ≡ list_any (is_end_of action) group.now }
{
    group.iter().any(|item| is_end(*item, action))
}

fn is_end(item: Item, action: u32) -> bool
    ensures { result ≡ is_end_of action item }
{
    match item {
        Item::TimedAt(_) => false,
        Item::End(other) => action == other,
        Item::Start(_) => false,
    }
}

/// Whether an item comes before another in the item order.
fn is_before(item: Item, other: Item) -> bool
    ensures { result ≡ item_before item other }
{
    match item {
        Item::TimedAt(number) => match other {
            Item::TimedAt(behind) => number < behind,
            Item::End(_) => true,
            Item::Start(_) => true,
        },
        Item::End(number) => match other {
            Item::TimedAt(_) => false,
            Item::End(behind) => number < behind,
            Item::Start(_) => true,
        },
        Item::Start(number) => match other {
            Item::TimedAt(_) => false,
            Item::End(_) => false,
            Item::Start(behind) => number < behind,
        },
    }
}
