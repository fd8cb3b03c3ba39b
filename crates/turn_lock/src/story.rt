ghost use Rattle.std.specs.Prelude.{◌≡◌, ◌<◌, ◌^◌, List, length};

/// A value that stands for a list of entries, and has a charter: a part that nobody changes under a
/// lock.
pub trait Story {
    type Entry;

    /// The entries, from the first on.
    ghost entries: { Self → List Self.Entry };

    /// Whether two values have one charter.
    ghost same_charter: { Self → Self → Type 0 };

    /// The number of entries, where there are fewer than 2^64.
    fn count(&self) -> u64
        ensures { length (entries self.now) < 2 ^ 64 → result ≡ length (entries self.now) };

    /// A value has its own charter.
    ghost charter_self: { (v : Self) → same_charter v v };

    /// What has the charter of a value has that of each value whose charter it has.
    ghost charter_on: { (u v w : Self) → same_charter u v → same_charter v w → same_charter u w };
}
