/// What an actor does in its turn: a worker takes a node or makes its deed on the node that it
/// took, and any actor may look, which is a turn without a deed.
#[derive(Clone, Copy, Debug, PartialEq, Eq)]
pub enum Verb {
    Take,
    Merge,
    Look,
}

/// A line of a script: the reading of the clock in the turn, in ticks, what is done in it, and the
/// actor whose turn it is, 0 to 8. Actor 0, the dispatcher, only looks.
#[derive(Clone, Copy, Debug, PartialEq, Eq)]
pub struct ScriptLine {
    pub reading: u64,
    pub verb: Verb,
    pub actor: u32,
}

/// Why a script is not read: the first line that has a fault, by its number from 1, and the first
/// of these that it has; or want of memory.
#[derive(Clone, Copy, Debug, PartialEq, Eq)]
pub enum ScriptFault {
    /// It is not `READING VERB ACTOR`, or no line feed ends it.
    Line { number: u32 },
    /// A take of an actor whose last take has no merge behind it.
    Holding { number: u32 },
    /// A merge of an actor that has no such take.
    Idle { number: u32 },
    /// Memory was refused; it says nothing of the text.
    NoMemory,
}
