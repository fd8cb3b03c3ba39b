ghost use Rattle.std.specs.Prelude.{◌≡◌, ◌/◌, ℕ, false, not, ◌&&◌, ◌||◌, ◌==◌, ◌↔◌, length, slice_index, IfOk, IsTrue};
ghost use Rattle.std.specs.List.{list_any};
ghost use Rattle.world_state.specs.Rows.{has_bit, is_in_row, has_place, width, words_for, InBoth, IsWithin, Takes, Loses};

use std::alloc::Global;
use tp_spec::NoMemory;

/// A set of numbers, of facts or of fluents, as a row of bits, 64 to a word. Numbers behind its
/// last word are not in it.
#[derive(Debug, Drop)]
pub struct BitRow {
    words: Vec<u64>,
}

impl BitRow {
    /// The empty set, with room for the numbers below `count`.
    pub fn empty(alloc: Global, count: usize) -> Result<BitRow, NoMemory>
        ensures width { IfOk result (λ r. width r ≡ words_for count) }
        ensures none { IfOk result (λ r. (f : ℕ) → is_in_row r f ≡ false) }
    {
        match vec![in alloc; 0u64; count.div_ceil(64)] {
            Ok(words) => Ok(BitRow { words }),
            Err(_) => Err(NoMemory),
        }
    }

    /// The set of these numbers, without those behind the last word of a row for numbers below
    /// `count`.
    pub fn of(alloc: Global, count: usize, members: &[u32]) -> Result<BitRow, NoMemory>
        ensures width { IfOk result (λ r. width r ≡ words_for count) }
        ensures has { IfOk result (λ r. (f : ℕ)
            → is_in_row r f
            ≡ (has_place (words_for count) f && list_any (λ g. f == g) members.now)) }
    {
        let mut row = BitRow::empty(alloc, count)?;
        row.insert_each(members);
        Ok(row)
    }

    /// Puts a number in. One behind the last word changes nothing.
    pub fn insert(&mut self, number: u32)
        ensures width { width self.new ≡ width self.old }
        ensures has { (f : ℕ) → is_in_row self.new f
            ≡ (is_in_row self.old f || (has_place (width self.old) f && f == number)) }
    {
        let index = number as usize / 64;
        if index < self.words.len() {
            self.words[index] |= 1 << (number % 64);
        }
    }

    /// Takes a number out. One behind the last word changes nothing.
    pub fn remove(&mut self, number: u32)
        ensures { Loses self.old self.new (λ f. f == number) }
    {
        let index = number as usize / 64;
        if index < self.words.len() {
            self.words[index] &= !(1 << (number % 64));
        }
    }

    /// Puts numbers in, but for those behind the last word.
    pub fn insert_each(&mut self, members: &[u32])
        ensures { Takes self.old self.new (λ f. list_any (λ g. f == g) members.now) }
    {
        for member in members {
            self.insert(*member);
        }
    }

    /// Takes numbers out.
    pub fn remove_each(&mut self, members: &[u32])
        ensures { Loses self.old self.new (λ f. list_any (λ g. f == g) members.now) }
    {
        for member in members {
            self.remove(*member);
        }
    }

    /// An equal row.
    pub fn copy(&self, alloc: Global) -> Result<BitRow, NoMemory>
        ensures { IfOk result (λ r. r.words.items ≡ self.now.words.items) }
    {
        match Vec::from_slice(alloc, &self.words) {
            Ok(words) => Ok(BitRow { words }),
            Err(_) => Err(NoMemory),
        }
    }

    /// Whether a number is in it.
    pub fn has(&self, number: u32) -> bool
        ensures { result ≡ is_in_row self.now number }
    {
        word_at(&self.words, number as usize / 64) & (1 << (number % 64)) != 0
    }

    /// Its word at an index, the bits of 64 numbers from `64 * index` on; 0 behind the last word.
    pub fn word(&self, index: usize) -> u64
        ensures { result ≡ slice_index self.now.words.items index }
    {
        word_at(&self.words, index)
    }

    /// Whether it has a number in common with another set.
    pub fn meets(&self, other: &BitRow) -> bool
        ensures { IsTrue result ↔ InBoth self.now.words.items other.now.words.items }
    {
        meet(&self.words, &other.words)
    }

    /// Whether another set has all its numbers.
    pub fn is_within(&self, other: &BitRow) -> bool
        ensures { IsTrue result ↔ IsWithin self.now.words.items other.now.words.items }
    {
        is_part(&self.words, &other.words)
    }

    /// Takes in the numbers of another set for which it has a place.
    pub fn add_all(&mut self, other: &BitRow)
        ensures width { width self.new ≡ width self.old }
        ensures has { (f : ℕ) → is_in_row self.new f
            ≡ (is_in_row self.old f || (has_place (width self.old) f && is_in_row other.now f)) }
    {
        add_words(&mut self.words, &other.words);
    }

    /// Loses all numbers of another set.
    pub fn remove_all(&mut self, other: &BitRow)
        ensures width { width self.new ≡ width self.old }
        ensures has { (f : ℕ) → is_in_row self.new f
            ≡ (is_in_row self.old f && not (is_in_row other.now f)) }
    {
        remove_words(&mut self.words, &other.words);
    }

    /// Loses all its numbers.
    pub fn clear(&mut self)
        ensures width { width self.new ≡ width self.old }
        ensures none { (f : ℕ) → is_in_row self.new f ≡ false }
    {
        clear_words(&mut self.words);
    }
}

/// The word at an index, 0 behind the last one.
fn word_at(words: &[u64], index: usize) -> u64
    ensures { result ≡ slice_index words.now index }
{
    match words.get(index) {
        Some(word) => *word,
        None => 0,
    }
}

/// Whether two rows have a number in common.
fn meet(a: &[u64], b: &[u64]) -> bool
    ensures { IsTrue result ↔ InBoth a.now b.now }
{
    for (k, word) in a.iter().enumerate() {
        if *word & word_at(b, k) != 0 {
            return true;
        }
    }
    false
}

/// Whether the second row has all numbers of the first.
fn is_part(a: &[u64], b: &[u64]) -> bool
    ensures { IsTrue result ↔ IsWithin a.now b.now }
{
    for (k, word) in a.iter().enumerate() {
        if *word & !word_at(b, k) != 0 {
            return false;
        }
    }
    true
}

fn add_words(into: &mut [u64], more: &[u64])
    ensures len { length into.new ≡ length into.old }
    ensures has { (f : ℕ) → has_bit into.new f
        ≡ (has_bit into.old f || (has_place (length into.old) f && has_bit more.now f)) }
{
    for (k, word) in into.iter_mut().enumerate() {
        *word |= word_at(more, k);
    }
}

fn remove_words(from: &mut [u64], less: &[u64])
    ensures len { length from.new ≡ length from.old }
    ensures has { (f : ℕ) → has_bit from.new f ≡ (has_bit from.old f && not (has_bit less.now f)) }
{
    for (k, word) in from.iter_mut().enumerate() {
        *word &= !word_at(less, k);
    }
}

fn clear_words(words: &mut [u64])
    ensures len { length words.new ≡ length words.old }
    ensures none { (f : ℕ) → has_bit words.new f ≡ false }
{
    for word in words.iter_mut() {
        *word = 0;
    }
}
