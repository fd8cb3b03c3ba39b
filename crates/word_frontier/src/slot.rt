ghost use Rattle.std.specs.Prelude.{◌≡◌, Some};
ghost use Rattle.word_frontier.specs.Slots.{mark_of, counts, taken_in};
ghost use Rattle.word_frontier.specs.declared.slot.State.TheVariants.{Open, Taken, Gone};

use crate::child::Child;
use std::mem::size_of;
use tp_spec::{Item, Mark};

/// What kind of item stands in a slot.
#[derive(Clone, Copy, Debug, PartialEq, Eq)]
pub(crate) enum Kind {
    TimedAt,
    End,
    Start,
}

/// Whether the node of a slot is open, an actor took it, or it left.
#[derive(Clone, Copy, Debug, PartialEq, Eq)]
pub(crate) enum State {
    Open,
    Taken,
    Gone,
}

/// Which nodes are meant: the open ones, or all that stand.
#[derive(Clone, Copy)]
pub(crate) enum Among {
    Open,
    All,
}

/// The place of an id: its parent's id, the mark behind its parent's word, its rank, its deadline
/// and under how many commitments that was found, the next id of its rank, and the actor that took
/// it. There is a slot for each id ever given, so it is kept small: the mark lies in it by its
/// parts. `link` means nothing in the last slot of a rank, nor `taker` where the node is not taken.
#[derive(Clone, Copy, Debug)]
pub(crate) struct Slot {
    pub(crate) deadline: u64,
    pub(crate) parent: u32,
    pub(crate) number: u32,
    pub(crate) rank: u32,
    pub(crate) link: u32,
    pub(crate) taker: u32,
    pub(crate) known: u8,
    pub(crate) kind: Kind,
    pub(crate) fresh: bool,
    pub(crate) state: State,
}

const _: () = prove!(size_of::<Slot>() == 32);

impl Slot {
    /// The slot of an open node, which nothing follows in its rank, and whose deadline was found
    /// under so many commitments.
    pub(crate) fn open(parent: u32, child: Child, known: u8) -> Slot
        ensures parent { result.parent ≡ parent }
        ensures mark { mark_of result ≡ child.mark }
        ensures rank { result.rank ≡ child.rank }
        ensures deadline { result.deadline ≡ child.deadline }
        ensures known { result.known ≡ known }
        ensures state { result.state ≡ Open }
    {
        let (kind, number) = match child.mark.item {
            Item::TimedAt(number) => (Kind::TimedAt, number),
            Item::End(number) => (Kind::End, number),
            Item::Start(number) => (Kind::Start, number),
        };
        Slot {
            deadline: child.deadline,
            parent,
            number,
            rank: child.rank,
            link: 0,
            taker: 0,
            known,
            kind,
            fresh: child.mark.fresh,
            state: State::Open,
        }
    }

    /// Its mark.
    pub(crate) fn mark(&self) -> Mark
        ensures { result ≡ mark_of self.now }
    {
        let item = match self.kind {
            Kind::TimedAt => Item::TimedAt(self.number),
            Kind::End => Item::End(self.number),
            Kind::Start => Item::Start(self.number),
        };
        Mark {
            fresh: self.fresh,
            item,
        }
    }

    /// Whether its node is one of those that are meant.
    pub(crate) fn is_among(&self, among: Among) -> bool
        ensures { result ≡ counts among self.now.state }
    {
        match (among, self.state) {
            (Among::Open, State::Open) => true,
            (Among::Open, State::Taken) => false,
            (Among::All, State::Open) => true,
            (Among::All, State::Taken) => true,
            (_, State::Gone) => false,
        }
    }

    /// Whether this actor took its node, which did not leave.
    pub(crate) fn is_taken_by(&self, actor: u32) -> bool
        ensures { result ≡ taken_in self.now.state self.now.taker actor }
    {
        match self.state {
            State::Taken => self.taker == actor,
            State::Open => false,
            State::Gone => false,
        }
    }

    /// An id of its rank comes behind it.
    pub(crate) fn note_next(&mut self, id: u32)
        ensures { self.new ≡ record self.old { link = id } }
    {
        self.link = id;
    }

    /// An actor takes its node.
    pub(crate) fn note_taker(&mut self, actor: u32)
        ensures { self.new ≡ record self.old { taker = actor; state = Taken } }
    {
        self.taker = actor;
        self.state = State::Taken;
    }

    /// Its node has this deadline, which was found under so many commitments.
    pub(crate) fn note_deadline(&mut self, deadline: u64, known: u8)
        ensures { self.new ≡ record self.old { deadline = deadline; known = known } }
    {
        self.deadline = deadline;
        self.known = known;
    }

    /// Its node leaves.
    pub(crate) fn note_gone(&mut self)
        ensures { self.new ≡ record self.old { state = Gone } }
    {
        self.state = State::Gone;
    }
}
