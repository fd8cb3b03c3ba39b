ghost use Rattle.std.specs.Prelude.{◌≡◌, ◌+◌, ◌*◌, ◌≤◌, length, slice_index, All, IsTrue, IfSome, IfNone};
ghost use Rattle.tick_network.specs.Nets.{KeepsRow, HasEnds, IsSmallRow, AreSmall};
ghost use Rattle.tick_network.specs.Relaxing.{turned_row, turned_rows, AreAtLeast, AreGreatestBelow, HasNoneBelow, RelaxesRow, RelaxesAll, Propagates};

use crate::net::Row;
use crate::steps::Steps;
use std::sync::ledger::Ledger;

/// What a look at one row, or at all rows, did to the ticks: nothing, some tick was lowered, or no
/// tick is left for a variable.
#[derive(Clone, Copy, Debug, PartialEq, Eq)]
pub enum Change {
    Same,
    Lowered,
    Empty,
}

/// Looks at one row: lowers the tick of its `y` to the greatest that the row allows.
fn relax_row<L: Ledger>(row: &Row, low: &[u64], at: &mut [u64], steps: &mut Steps<L>) -> Change
    requires ends { HasEnds (length at.old) row.now }
    requires lows { length low.now ≡ length at.old }
    requires weight { IsSmallRow row.now }
    requires ticks { AreSmall at.old }
    requires low { AreSmall low.now }
    ensures step { steps.new ≡ steps.old + 1 }
    ensures relaxes { RelaxesRow row.now low.now at.old at.new result }
{
    steps.tick();
    let most = at[row.x as usize] as i64 + row.w;
    let y = row.y as usize;
    if at[y] as i64 <= most {
        return Change::Same;
    }
    if most < low[y] as i64 {
        return Change::Empty;
    }
    at[y] = most as u64;
    Change::Lowered
}

/// A row as it is, or as it is between mirrored ticks.
fn turned(row: &Row, mirrored: bool) -> Row
    ensures { result ≡ turned_row mirrored row.now }
{
    if mirrored {
        Row {
            y: row.x,
            x: row.y,
            w: row.w,
        }
    } else {
        *row
    }
}

/// Looks at each row once, in order, up to the first that leaves no tick for a variable.
fn relax_all<L: Ledger>(
    rows: &[Row],
    mirrored: bool,
    low: &[u64],
    at: &mut [u64],
    steps: &mut Steps<L>,
) -> Change
    requires ends { All (HasEnds (length at.old)) rows.now }
    requires lows { length low.now ≡ length at.old }
    requires weights { All IsSmallRow rows.now }
    requires ticks { AreSmall at.old }
    requires low { AreSmall low.now }
    requires above { AreAtLeast low.now at.old }
    ensures rises { steps.old ≤ steps.new }
    ensures at_most { steps.new ≤ steps.old + length rows.now }
    ensures counted { result ≡ Change.Same → steps.new ≡ steps.old + length rows.now }
    ensures relaxes { RelaxesAll (turned_rows mirrored rows.now) low.now at.old at.new result }
{
    let mut lowered = false;
    for row in rows {
        match relax_row(&turned(row, mirrored), low, at, steps) {
            Change::Same => {}
            Change::Lowered => lowered = true,
            Change::Empty => return Change::Empty,
        }
    }
    if lowered {
        Change::Lowered
    } else {
        Change::Same
    }
}

/// Lowers ticks until each row is kept: then they are the greatest that keep the rows, at or below
/// where they stood. False where no ticks keep them.
// After each look at all rows that lowers a tick some solution meets one tick more, so one look
// more than there are variables is enough.
fn propagate<L: Ledger>(
    rows: &[Row],
    mirrored: bool,
    low: &[u64],
    at: &mut [u64],
    steps: &mut Steps<L>,
) -> bool
    requires ends { All (HasEnds (length low.now)) rows.now }
    requires lows { length at.old ≡ length low.now }
    requires weights { All IsSmallRow rows.now }
    requires ticks { AreSmall at.old }
    requires low { AreSmall low.now }
    requires above { AreAtLeast low.now at.old }
    ensures at_most { steps.new ≤ steps.old + length rows.now * (length low.now + 1) }
    ensures counted { IsTrue result → steps.old + length rows.now ≤ steps.new }
    ensures kept { All (KeepsRow (slice_index at.old)) (turned_rows mirrored rows.now)
        → steps.new ≤ steps.old + length rows.now }
    ensures propagates { Propagates (turned_rows mirrored rows.now) low.now at.old at.new result }
{
    for _ in 0..low.len() + 1 {
        match relax_all(rows, mirrored, low, at, steps) {
            Change::Same => return true,
            Change::Lowered => {}
            Change::Empty => return false,
        }
    }
    false
}

/// The same on a vector: the ticks that are left, or none.
pub fn propagated<L: Ledger>(
    rows: &[Row],
    mirrored: bool,
    low: &[u64],
    at: Vec<u64>,
    steps: &mut Steps<L>,
) -> Option<Vec<u64>>
    requires ends { All (HasEnds (length low.now)) rows.now }
    requires lows { length at.items ≡ length low.now }
    requires weights { All IsSmallRow rows.now }
    requires ticks { AreSmall at.items }
    requires low { AreSmall low.now }
    requires above { AreAtLeast low.now at.items }
    ensures at_most { steps.new ≤ steps.old + length rows.now * (length low.now + 1) }
    ensures counted { IfSome result (λ _. steps.old + length rows.now ≤ steps.new) }
    ensures kept { All (KeepsRow (slice_index at.items)) (turned_rows mirrored rows.now)
        → steps.new ≤ steps.old + length rows.now }
    ensures some { IfSome result (λ ticks.
        AreGreatestBelow (turned_rows mirrored rows.now) low.now at.items ticks.items) }
    ensures count { IfSome result (λ ticks. length ticks.items ≡ length low.now) }
    ensures none { IfNone result (HasNoneBelow (turned_rows mirrored rows.now) low.now at.items) }
{
    let mut at = at;
    if propagate(rows, mirrored, low, &mut at, steps) {
        Some(at)
    } else {
        None
    }
}
