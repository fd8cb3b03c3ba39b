ghost use Rattle.std.specs.Prelude.{◌≡◌, ◌<◌};
ghost use Rattle.workload.specs.Draws.{next_state, number_of, draw};

/// What numbers are drawn from: the state of a linear congruential generator, at first the seed.
#[derive(Drop)]
pub struct Draws {
    pub state: u64,
}

/// The state behind a state.
#[tactic(auto, unfolding(crate::specs::Draws::next_state))]
fn next_state(state: u64) -> u64
    ensures { result ≡ next_state state }
{
    state
        .wrapping_mul(6364136223846793005)
        .wrapping_add(1442695040888963407)
}

/// The number below a limit that a state gives, from its upper 31 bits.
#[tactic(auto, unfolding(crate::specs::Draws::number_of))]
fn number_of(limit: u32, state: u64) -> u32
    requires { 0 < limit }
    ensures number { result ≡ number_of limit state }
    ensures below { result < limit }
{
    (state >> 33) as u32 % limit
}

impl Draws {
    /// Draws a number below a limit.
    pub fn below(&mut self, limit: u32) -> u32
        requires { 0 < limit }
        ensures drawn { result ≡ draw limit self.old.state }
        ensures below { result < limit }
        ensures state { self.new.state ≡ next_state self.old.state }
    {
        self.state = next_state(self.state);
        number_of(limit, self.state)
    }
}
