ghost use Rattle.std.specs.Prelude.{ℕ, ◌≡◌, ◌≢◌, ◌≤◌, ◌<◌, IfOk, None, Some, length, set};
ghost use Rattle.std.specs.List.{slice_get};
ghost use Rattle.word_frontier.specs.Slots.{head_at, or_else, IsLeastHead, IsNextFull};

use std::alloc::Global;
use std::marker::Model;
use tp_spec::NoMemory;

/// The first id of each rank, where it has one. The least rank that has one is kept, so that it is
/// found without a look at the others.
#[derive(Drop)]
pub(crate) struct Heads {
    ids: Vec<Option<u32>>,
    least: usize,
}

impl Model for Heads {
    ghost use Rattle.std.specs.Prelude.{ℕ, List, Option};
    ghost use Rattle.word_frontier.specs.Slots.{IsNextFull};

    ghost Value = { List (Option ℕ) };

    ghost view = { λ h. h.ids.items };

    ghost invariant = { λ h. IsNextFull h.ids.items 0 h.least };
}

impl Heads {
    /// No rank, of this many, has an id.
    pub(crate) fn new(alloc: Global, ranks: usize) -> Result<Heads, NoMemory>
        ensures none { IfOk result (λ h. (r : ℕ) → head_at h r ≡ None) }
        ensures ranks { IfOk result (λ h. length h ≡ ranks) }
    {
        Ok(Heads {
            ids: no_ids(alloc, ranks)?,
            least: ranks,
        })
    }

    /// How many ranks there are.
    pub(crate) fn ranks(&self) -> usize
        ensures { result ≡ length self.now }
    {
        self.ids.len()
    }

    /// The least rank that has an id, and its first id.
    pub(crate) fn least(&self) -> Option<(usize, u32)>
        ensures { IsLeastHead self.now result }
    {
        match self.ids.get(self.least) {
            Some(Some(id)) => Some((self.least, *id)),
            Some(None) => None,
            None => None,
        }
    }

    /// The first id of a rank.
    pub(crate) fn at(&self, rank: usize) -> Option<u32>
        requires { rank < length self.now }
        ensures { result ≡ head_at self.now rank }
    {
        self.ids[rank]
    }

    /// A rank has this first id from now on.
    pub(crate) fn put(&mut self, rank: usize, id: Option<u32>)
        requires { rank < length self.old }
        ensures { self.new ≡ set self.old rank id }
    {
        self.ids[rank] = id;
        let from = self.least.min(rank);
        self.least = next_full(&self.ids, from);
    }

    /// An id comes in behind those of a rank.
    pub(crate) fn enter(&mut self, rank: usize, id: u32)
        requires { rank < length self.old }
        ensures { self.new ≡ set self.old rank (or_else (head_at self.old rank) (Some id)) }
    {
        let first = self.at(rank).or(Some(id));
        self.put(rank, first);
    }
}

/// A list of ids by rank, of which no rank has one.
pub(crate) fn no_ids(alloc: Global, ranks: usize) -> Result<Vec<Option<u32>>, NoMemory>
    ensures none { IfOk result (λ ids. (r : ℕ) → head_at ids.items r ≡ None) }
    ensures ranks { IfOk result (λ ids. length ids.items ≡ ranks) }
{
    Ok(vec![in alloc; None; ranks]?)
}

/// The first rank from one on that has an id, or how many ranks there are.
fn next_full(ids: &[Option<u32>], from: usize) -> usize
    ensures { IsNextFull ids.now from result }
{
    for rank in from..ids.len() {
        if ids[rank].is_some() {
            return rank;
        }
    }
    ids.len()
}
