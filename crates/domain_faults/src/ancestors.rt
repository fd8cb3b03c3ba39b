ghost use Rattle.std.specs.Prelude.{◌≡◌, ℕ, ◌<◌, ◌≤◌, ◌⊎◌, false, true, length, get_or, IfOk, OnOk};
ghost use Rattle.domain_faults.specs.Walks.{comes_back, IsKnown, IsWalk};

use std::alloc::Global;
use tp_spec::{List, NoMemory};

/// Marks the numbers that were met from a place on.
fn mark(marks: &mut [bool], order: &[usize], first: usize)
    requires start { first ≤ length order.now }
    requires inside { (i : ℕ) → i < length order.now → get_or order.now i 0 < length marks.old }
    ensures ring { (i : ℕ) → first ≤ i → i < length order.now
        → get_or marks.new (get_or order.now i 0) false ≡ true }
    ensures rest { (v : ℕ) → ((i : ℕ) → first ≤ i → i < length order.now → get_or order.now i 0 ≡ v
        → ⊥) → get_or marks.new v false ≡ get_or marks.old v false }
{
    for place in first..order.len() {
        marks[order[place]] = true;
    }
}

/// Goes up from a number to the first that was met, which it answers, and puts those on the way
/// behind the others.
fn walk(
    above: &[u32],
    places: &mut [usize],
    order: &mut List<usize>,
    start: usize,
) -> Result<usize, NoMemory>
    requires walk { IsWalk above.now places.old
        places.old order.old (length order.old) start start }
    requires below { (v : ℕ) → v < length above.now → get_or above.now v 0 < length above.now }
    ensures walk { IfOk result (λ end. IsWalk above.now places.old places.new order.new
        (length order.old) start end) }
    ensures met { IfOk result (λ end. 0 < get_or places.new end 0) }
{
    let mut at = start;
    'up: loop {
        if places[at] != 0 {
            return Ok(at);
        }
        order.push(at)?;
        places[at] = order.as_slice().len();
        at = above[at] as usize;
    }
}

/// Walks up from a number, and marks the ring that the walk closes, if it closes one.
fn settle(
    above: &[u32],
    places: &mut [usize],
    order: &mut List<usize>,
    marks: &mut [bool],
    start: usize,
) -> Result<(), NoMemory>
    requires known { IsKnown above.now places.old order.old marks.old }
    requires below { (v : ℕ) → v < length above.now → get_or above.now v 0 < length above.now }
    requires inside { start < length above.now }
    ensures known { OnOk result (IsKnown above.now places.new order.new marks.new) }
    ensures grown { OnOk result ((v : ℕ) → 0 < get_or places.old v 0 → 0 < get_or places.new v 0) }
    ensures met { OnOk result (0 < get_or places.new start 0) }
{
    let known = order.as_slice().len();
    let end = walk(above, places, order, start)?;
    let place = places[end];
    if place > known {
        mark(marks, order.as_slice(), place - 1);
    }
    Ok(())
}

/// Marks the numbers that come back to themselves, where nothing was met and none is marked.
fn search(
    alloc: Global,
    above: &[u32],
    places: &mut [usize],
    marks: &mut [bool],
) -> Result<(), NoMemory>
    requires some { 0 < length above.now }
    requires root { get_or above.now 0 0 ≡ 0 }
    requires below { (v : ℕ) → v < length above.now → get_or above.now v 0 < length above.now }
    requires room { length places.old ≡ length above.now }
    requires marked { length marks.old ≡ length above.now }
    requires unmet { (v : ℕ) → get_or places.old v 0 ≡ 0 }
    requires unmarked { (v : ℕ) → get_or marks.old v false ≡ false }
    ensures { OnOk result ((v : ℕ) → v < length above.now
        → get_or marks.new v false ≡ comes_back above.now v) }
{
    let mut order = List::new(alloc);
    order.push(0)?;
    places[0] = 1;
    for start in 0..above.len() {
        settle(above, places, &mut order, marks, start)?;
    }
    Ok(())
}

/// Which numbers come back to themselves on the way up. `above` gives the number above each, and 0
/// stands above 0. Each number is met once.
pub fn own_ancestors(alloc: Global, above: &[u32]) -> Result<List<bool>, NoMemory>
    requires some { 0 < length above.now }
    requires root { get_or above.now 0 0 ≡ 0 }
    requires below { (v : ℕ) → v < length above.now → get_or above.now v 0 < length above.now }
    ensures { IfOk result (λ marks. (v : ℕ) → v < length above.now
        → get_or marks v false ≡ comes_back above.now v) }
{
    let mut places = match vec![in alloc; 0usize; above.len()] {
        Ok(places) => places,
        Err(_) => return Err(NoMemory),
    };
    let mut marks = match vec![in alloc; false; above.len()] {
        Ok(marks) => marks,
        Err(_) => return Err(NoMemory),
    };
    search(alloc, above, &mut places, &mut marks)?;
    Ok(List::of(marks))
}
