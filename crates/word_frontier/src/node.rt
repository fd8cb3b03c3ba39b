ghost use Rattle.std.specs.Prelude.{◌≡◌};

use std::marker::Model;
use tp_spec::{List, Mark};

/// A word that the search tries, its rank (how many goal parts do not hold after it), and its
/// deadline.
#[derive(Drop)]
pub struct Node {
    word: List<Mark>,
    rank: u32,
    deadline: u64,
}

impl Model for Node {
    ghost use Rattle.word_frontier.specs.Nodes.{NodeView};

    ghost Value = { NodeView };

    ghost view = { λ n. record { word = n.word; rank = n.rank; deadline = n.deadline } };
}

impl Node {
    /// The node of a word.
    pub fn new(word: List<Mark>, rank: u32, deadline: u64) -> Node
        ensures word { result.word ≡ word }
        ensures rank { result.rank ≡ rank }
        ensures deadline { result.deadline ≡ deadline }
    {
        Node {
            word,
            rank,
            deadline,
        }
    }

    /// Its word.
    pub fn word(&self) -> &[Mark]
        ensures { result.now ≡ self.now.word }
    {
        self.word.as_slice()
    }

    /// Its rank.
    pub fn rank(&self) -> u32
        ensures { result ≡ self.now.rank }
    {
        self.rank
    }

    /// The last clock, in ticks, at which its word is live.
    pub fn deadline(&self) -> u64
        ensures { result ≡ self.now.deadline }
    {
        self.deadline
    }
}
