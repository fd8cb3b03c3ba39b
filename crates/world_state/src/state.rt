ghost use Rattle.std.specs.Prelude.{◌≡◌, [], ◌∷◌, ◌++◌, IfOk, OnOk, IsTrue, slice_get, slice_index};
ghost use Rattle.std.specs.Option.{option_and_then};
ghost use Rattle.std.specs.List.{list_all};
ghost use Rattle.tp_spec.specs.States.{initial as first_state};
ghost use Rattle.tp_spec.specs.Items.{fits};
ghost use Rattle.world_state.specs.View.{meaning, IsStateOf};

use crate::rows::BitRow;
use std::alloc::Global;
use std::marker::Model;
use tp_spec::{NoMemory, Problem};

/// Which facts are true, a bit each, and the value of each fluent, or none where it is undefined.
/// Contracts say what it stands for by `meaning`.
///
/// PDDL 2.1, section 3 (a logical state and a vector of values).
#[derive(Debug, Drop)]
pub struct State {
    facts: BitRow,
    values: Vec<Option<i64>>,
}

impl Model for State {
    ghost use Rattle.std.specs.Prelude.{IsTrue};
    ghost use Rattle.std.specs.List.{list_all};
    ghost use Rattle.tp_spec.specs.Items.{fits};
    ghost use Rattle.world_state.specs.View.{StateView};

    ghost Value = { StateView };

    ghost view = { λ s. record { words = s.facts.words.items; values = s.values.items } };

    ghost invariant = { λ s. IsTrue (list_all fits s.values.items) };
}

/// The state in which a problem begins.
pub fn initial(alloc: Global, problem: &Problem) -> Result<State, NoMemory>
    ensures of_problem { IfOk result (λ s. IsStateOf problem.now s) }
    ensures is { IfOk result (λ s. meaning s ≡ first_state problem.now) }
{
    let facts = BitRow::of(
        alloc,
        problem.facts.as_slice().len(),
        problem.init.as_slice(),
    )?;
    let values = copied_values(alloc, problem.values.as_slice())?;
    Ok(State { facts, values })
}

impl State {
    /// A state made of its parts.
    pub(crate) fn of_parts(facts: BitRow, values: Vec<Option<i64>>) -> State
        requires { IsTrue (list_all fits values.items) }
        ensures { result ≡ record { words = facts.words.items; values = values.items } }
    {
        State { facts, values }
    }

    /// An equal state.
    pub fn copy(&self, alloc: Global) -> Result<State, NoMemory>
        ensures { IfOk result (λ s. s ≡ self.now) }
    {
        let facts = self.facts.copy(alloc)?;
        match Vec::from_slice(alloc, &self.values) {
            Ok(values) => Ok(State { facts, values }),
            Err(_) => Err(NoMemory),
        }
    }

    /// A copy of its row of true facts.
    pub(crate) fn copied_facts(&self, alloc: Global) -> Result<BitRow, NoMemory>
        ensures { IfOk result (λ r. r.words.items ≡ self.now.words) }
    {
        self.facts.copy(alloc)
    }

    /// Whether a fact is true. None behind those of its problem is.
    pub fn has(&self, fact: u32) -> bool
        ensures { result ≡ (meaning self.now).fact fact }
    {
        self.facts.has(fact)
    }

    /// The word at an index of its row of true facts, the bits of 64 facts from `64 * index` on; 0
    /// behind the last word.
    pub fn fact_word(&self, index: usize) -> u64
        ensures { result ≡ slice_index self.now.words index }
    {
        self.facts.word(index)
    }

    /// The value of a fluent, none where it is undefined.
    pub fn fluent(&self, fluent: u32) -> Option<i64>
        ensures { result ≡ (meaning self.now).fluent fluent }
    {
        value_at(&self.values, fluent)
    }

    /// The values of its fluents, by their indices.
    pub(crate) fn values(&self) -> &[Option<i64>]
        ensures values { result.now ≡ self.now.values }
        ensures narrow { IsTrue (list_all fits result.now) }
    {
        &self.values
    }
}

/// The value at an index, none behind the last one.
pub(crate) fn value_at(values: &[Option<i64>], fluent: u32) -> Option<i64>
    ensures { result ≡ option_and_then (λ n. n) (slice_get values.now fluent) }
{
    match values.get(fluent as usize) {
        Some(value) => *value,
        None => None,
    }
}

/// A copy of values.
fn copied_values(alloc: Global, values: &[Option<i64>]) -> Result<Vec<Option<i64>>, NoMemory>
    ensures same { IfOk result (λ v. v.items ≡ values.now) }
    ensures narrow { IfOk result (λ v. IsTrue (list_all fits v.items)) }
{
    let mut copy = Vec::new(alloc);
    for value in values {
        push_value(&mut copy, *value)?;
    }
    Ok(copy)
}

/// Puts a value behind the others.
fn push_value(values: &mut Vec<Option<i64>>, value: Option<i64>) -> Result<(), NoMemory>
    ensures pushed { OnOk result (values.new.items ≡ values.old.items ++ value ∷ []) }
    ensures narrow { IsTrue (fits value) }
{
    match values.push(value) {
        Ok(()) => Ok(()),
        Err(_) => Err(NoMemory),
    }
}
