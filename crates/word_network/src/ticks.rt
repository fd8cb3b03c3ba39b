ghost use Rattle.std.specs.Prelude.{◌≡◌, ◌<◌, length, All};
ghost use Rattle.word_network.specs.Nets.{raised as raised_by, lowered as lowered_by};

use word_rows::Bound;

/// No word stands so late: twice the greatest horizon.
const FAR: u64 = 1 << 41;

/// Least ticks, raised by bounds.
pub fn raised(ticks: Vec<u64>, bounds: &[Bound]) -> Vec<u64>
    requires { All (λ b. b.variable < length ticks.items) bounds.now }
    ensures told { result.items ≡ raised_by ticks.items bounds.now }
    ensures count { length result.items ≡ length ticks.items }
{
    let mut at = ticks;
    for bound in bounds {
        let v = bound.variable as usize;
        at[v] = at[v].max(bound.tick.min(FAR));
    }
    at
}

/// Greatest ticks, lowered by bounds.
pub fn lowered(ticks: Vec<u64>, bounds: &[Bound]) -> Vec<u64>
    requires { All (λ b. b.variable < length ticks.items) bounds.now }
    ensures told { result.items ≡ lowered_by ticks.items bounds.now }
    ensures count { length result.items ≡ length ticks.items }
{
    let mut at = ticks;
    for bound in bounds {
        let v = bound.variable as usize;
        at[v] = at[v].min(bound.tick);
    }
    at
}
