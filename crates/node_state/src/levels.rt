ghost use Rattle.std.specs.Prelude.{List, ◌≡◌, ◌+◌, ◌≤◌, ◌<◌, true, take, length, slice_get, Some, OnOk, IfOk, IfSome, IsTrue};
ghost use Rattle.std.specs.List.{AllByRecursion, list_all};
ghost use Rattle.tp_spec.specs.declared.plan.Mark.{Mark};
ghost use Rattle.tp_spec.specs.declared.problem.Problem.{Problem as Ground};
ghost use Rattle.tp_spec.specs.Words.{Sound, closes, may_join, past_group, progress, with_item};
ghost use Rattle.node_state.specs.Candidates.{AreWants};
ghost use Rattle.node_state.specs.Readings.{progress_of, IsClosed, IsReadingOf};
ghost use Rattle.node_state.specs.Levels.{fits, is_fresh_at, opened_of, AreLevels, IsLevel, IsReadTo};

use crate::reading::Reading;
use crate::wants::Wants;
use std::alloc::Global;
use std::mem;
use tp_spec::{Item, Mark, NoMemory, Problem};

/// Where a group of a word begins: how many marks and how many timed items come before it, and the
/// reading from there, with some items of the group.
#[derive(Drop)]
pub(crate) struct Level {
    pub(crate) start: usize,
    pub(crate) timed: u32,
    pub(crate) reading: Reading,
}

/// How many marks two words have in common at their fronts.
fn common(a: &[Mark], b: &[Mark]) -> usize
    ensures first { result ≤ length a.now }
    ensures second { result ≤ length b.now }
    ensures same { take result a.now ≡ take result b.now }
{
    for (index, _mark) in a.iter().enumerate() {
        if !is_at(b, index, mark_at(a, index)) {
            return index;
        }
    }
    a.len()
}

/// Whether a word has this mark at an index.
fn is_at(word: &[Mark], index: usize, mark: Mark) -> bool
    ensures { IsTrue result → slice_get word.now index ≡ Some mark }
{
    match word.get(index) {
        Some(other) => *other == mark,
        None => false,
    }
}

/// How many of the first levels begin with a group of a word, of whose marks so many are those of
/// the levels' word.
fn fitting(levels: &[Level], word: &[Mark], common: usize) -> usize
    ensures few { result ≤ length levels.now }
    ensures fit { IsTrue (list_all (fits word.now common) (take result levels.now)) }
{
    for (index, level) in levels.iter().enumerate() {
        if !is_fit(level, word, common) {
            return index;
        }
    }
    levels.len()
}

fn is_fit(level: &Level, word: &[Mark], common: usize) -> bool
    ensures { result ≡ fits word.now common level.now }
{
    level.start <= common && opens(word, level.start)
}

/// Whether a word has a fresh mark at an index.
fn opens(word: &[Mark], index: usize) -> bool
    ensures { result ≡ is_fresh_at word.now index }
{
    match word.get(index) {
        Some(mark) => mark.fresh,
        None => false,
    }
}

/// Makes of the levels of one word the first ones of them that serve another.
pub(crate) fn move_to(
    alloc: Global,
    levels: &mut Vec<Level>,
    kept: &mut Vec<Mark>,
    word: &[Mark],
) -> Result<(), NoMemory>
    ensures levels { (p : Ground) → AreLevels p kept.old.items levels.old.items
        → AreLevels p kept.new.items levels.new.items }
    ensures word { OnOk result (kept.new.items ≡ word.now) }
    ensures open { OnOk result (AllByRecursion (λ l. is_fresh_at word.now l.start ≡ true)
        levels.new.items) }
{
    let Ok(copy) = Vec::from_slice(alloc, word) else {
        return Err(NoMemory);
    };
    let front = common(kept, word);
    let count = fitting(levels, word, front);
    levels.truncate(count);
    *kept = copy;
    Ok(())
}

/// Puts the level of a word's last group behind the others, and that of the group that the next
/// mark may open, by the reading with the last group closed.
pub(crate) fn keep(
    levels: &mut Vec<Level>,
    top: Level,
    closed: Option<Reading>,
    word: &[Mark],
) -> Result<(), NoMemory>
    ensures { (p : Ground) → AreLevels p word.now levels.old.items → IsLevel p word.now top
        → progress_of top.reading ≡ progress p word.now
        → IfSome closed (λ r. IsClosed p (progress_of top.reading) r)
        → AreLevels p word.now levels.new.items }
{
    put(levels, top)?;
    let Some(reading) = closed else {
        return Ok(());
    };
    let next = Level {
        start: word.len(),
        timed: reading.timed,
        reading,
    };
    put(levels, next)?;
    Ok(())
}

/// Puts a level behind the others.
fn put(levels: &mut Vec<Level>, level: Level) -> Result<(), NoMemory>
    ensures { (p : Ground) (w : List Mark) → AreLevels p w levels.old.items → IsLevel p w level
        → AreLevels p w levels.new.items }
{
    match levels.push(level) {
        Ok(()) => Ok(()),
        Err(_) => Err(NoMemory),
    }
}

/// Reads a word on from the group of a level, and puts each level that is left behind the others.
pub(crate) fn descend(
    alloc: Global,
    problem: &Problem,
    wants: &Wants,
    levels: &mut Vec<Level>,
    top: Level,
    word: &[Mark],
) -> Result<Level, NoMemory>
    requires wants { AreWants problem.now wants.now }
    requires levels { AreLevels problem.now word.now levels.old.items }
    requires top { IsLevel problem.now word.now top }
    requires opens { IsTrue (is_fresh_at word.now top.start) }
    requires sound { Sound problem.now word.now }
    ensures levels { AreLevels problem.now word.now levels.new.items }
    ensures top { IfOk result (λ l. IsLevel problem.now word.now l) }
    ensures progress { IfOk result (λ l. progress_of l.reading
        ≡ progress problem.now word.now) }
{
    let mut top = top;
    top.begin(problem, word)?;
    for index in top.start + 1..word.len() {
        top.read(alloc, problem, wants, levels, word, index)?;
    }
    Ok(top)
}

/// The mark of a word at an index.
fn mark_at(word: &[Mark], index: usize) -> Mark
    requires { index < length word.now }
    ensures { slice_get word.now index ≡ Some result }
{
    match word.get(index) {
        Some(mark) => *mark,
        None => unreachable!(),
    }
}

impl Level {
    /// Reads the first mark of its group.
    fn begin(&mut self, problem: &Problem, word: &[Mark]) -> Result<(), NoMemory>
        requires level { IsLevel problem.now word.now self.old }
        requires opens { IsTrue (is_fresh_at word.now self.old.start) }
        requires sound { Sound problem.now word.now }
        ensures start { self.new.start ≡ self.old.start }
        ensures level { OnOk result (IsReadTo problem.now word.now (self.old.start + 1)
            self.new) }
    {
        let mark = mark_at(word, self.start);
        self.restart();
        self.include(problem, mark.item)?;
        Ok(())
    }

    /// Forgets the items of its group.
    fn restart(&mut self)
        ensures start { self.new.start ≡ self.old.start }
        ensures timed { self.new.timed ≡ self.old.timed }
        ensures progress { progress_of self.new.reading ≡ opened_of self.old }
        ensures before { self.new.reading.before ≡ self.old.reading.before }
        ensures running { self.new.reading.running ≡ self.old.reading.running }
        ensures candidates { self.new.reading.candidates ≡ self.old.reading.candidates }
    {
        self.reading.group.clear();
        self.reading.timed = self.timed;
    }

    /// Puts an item that may join into its group.
    fn include(&mut self, problem: &Problem, item: Item) -> Result<(), NoMemory>
        requires reading { IsReadingOf problem.now self.old.reading }
        requires joins { IsTrue (may_join problem.now (progress_of self.old.reading) item) }
        ensures start { self.new.start ≡ self.old.start }
        ensures timed { self.new.timed ≡ self.old.timed }
        ensures progress { OnOk result (progress_of self.new.reading
            ≡ with_item (progress_of self.old.reading) item) }
        ensures reading { OnOk result (IsReadingOf problem.now self.new.reading) }
    {
        self.reading.include(problem, item)?;
        Ok(())
    }

    /// Reads the mark of a word at an index; the level of the group before is put behind the others
    /// where it opens a group.
    fn read(
        &mut self,
        alloc: Global,
        problem: &Problem,
        wants: &Wants,
        levels: &mut Vec<Level>,
        word: &[Mark],
        index: usize,
    ) -> Result<(), NoMemory>
        requires inside { index < length word.now }
        requires wants { AreWants problem.now wants.now }
        requires levels { AreLevels problem.now word.now levels.old.items }
        requires level { IsReadTo problem.now word.now index self.old }
        requires sound { Sound problem.now word.now }
        ensures levels { AreLevels problem.now word.now levels.new.items }
        ensures level { OnOk result (IsReadTo problem.now word.now (index + 1) self.new) }
    {
        let mark = mark_at(word, index);
        if mark.fresh {
            self.open(alloc, problem, wants, levels, word, index)?;
            self.include(problem, mark.item)?;
            return Ok(());
        }
        self.include(problem, mark.item)?;
        Ok(())
    }

    /// Begins the group that a fresh mark at an index opens, and puts the level of the group before
    /// behind the others.
    fn open(
        &mut self,
        alloc: Global,
        problem: &Problem,
        wants: &Wants,
        levels: &mut Vec<Level>,
        word: &[Mark],
        index: usize,
    ) -> Result<(), NoMemory>
        requires inside { index < length word.now }
        requires wants { AreWants problem.now wants.now }
        requires levels { AreLevels problem.now word.now levels.old.items }
        requires level { IsReadTo problem.now word.now index self.old }
        requires closes { IsTrue (closes problem.now (progress_of self.old.reading)) }
        ensures levels { AreLevels problem.now word.now levels.new.items }
        ensures level { OnOk result (IsLevel problem.now word.now self.new) }
        ensures progress { OnOk result (progress_of self.new.reading
            ≡ past_group problem.now (progress_of self.old.reading)) }
    {
        let Some(reading) = self.reading.closed(alloc, problem, wants)? else {
            unreachable!()
        };
        let next = Level {
            start: index,
            timed: reading.timed,
            reading,
        };
        let before = mem::replace(self, next);
        if levels.push(before).is_err() {
            return Err(NoMemory);
        }
        Ok(())
    }
}
