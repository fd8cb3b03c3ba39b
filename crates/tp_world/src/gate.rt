/// Where an actor stands when it passes a gate: a worker before it grows its job, a worker with
/// nothing to take, the dispatcher before a look.
#[derive(Clone, Copy, Debug, PartialEq, Eq)]
pub enum Point {
    Sprout,
    Idle,
    Look,
}

/// A hold that every actor passes, so that a test or a pause can steer the order of threads.
pub trait Gate: Sync {
    /// Returns when the actor may go on. At `Sprout` the turn is the job's id, elsewhere the
    /// number of this actor's earlier passes at that point. It changes nothing.
    fn pass(&self, actor: u32, turn: u64, point: Point);
}

/// A gate that holds nobody.
#[derive(Clone, Copy, Debug, PartialEq, Eq)]
pub struct OpenGate;

impl Gate for OpenGate {
    fn pass(&self, _actor: u32, _turn: u64, _point: Point) {}
}
