/// A bound on one variable of a network, by its index: a least or a greatest tick.
#[derive(Clone, Copy, Debug, PartialEq, Eq)]
pub struct Bound {
    pub variable: u32,
    pub tick: u64,
}
