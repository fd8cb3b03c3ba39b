ghost use Rattle.std.specs.Int.{bit_at};
ghost use Rattle.std.specs.Prelude.{◌≡◌, ◌<◌, ◌≤◌, ℕ, slice_index};

use world_state::BitRow;

/// The place of a word's first 1 from a place on, 64 where there is none.
pub(crate) fn next_one(word: u64, from: u32) -> u32
    requires { from ≤ 64 }
    ensures after { from ≤ result }
    ensures inside { result ≤ 64 }
    ensures none { (i : ℕ) → from ≤ i → i < result → bit_at word i ≡ 0 }
{
    if from == 64 {
        return 64;
    }
    let rest = word >> from;
    if rest == 0 {
        return 64;
    }
    (from + rest.trailing_zeros()).min(64)
}

/// The index of the first word of a row from an index on that is not 0, `count` where none of the
/// first `count` words is such a one.
pub(crate) fn next_word(row: &BitRow, from: usize, count: usize) -> usize
    requires { from ≤ count }
    ensures after { from ≤ result }
    ensures inside { result ≤ count }
    ensures none { (k : ℕ) → from ≤ k → k < result → slice_index row.now.words.items k ≡ 0 }
{
    for index in from..count {
        if row.word(index) != 0 {
            return index;
        }
    }
    count
}
