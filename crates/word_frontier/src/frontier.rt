ghost use Rattle.std.specs.Prelude.{ℕ, ◌≡◌, ◌≤◌, ◌<◌, ◌+◌, ◌^◌, ◌++◌, ◌∷◌, [], IfOk, OnOk, Some, None, map, length, IsTrue, All};
ghost use Rattle.std.specs.List.{slice_get};
ghost use Rattle.tp_spec.specs.Lists.{IsIn, is_empty};
ghost use Rattle.word_frontier.specs.Nodes.{RankedNode, GivesLeast, Tells, renewed, IsLeast, IsCopy, AreApart, open_nodes, has_id, taken_by, without, child_of, children_from, live_at, is_taken, word_at, StandsAt};
ghost use Rattle.std.specs.Prelude.{List as Items};
ghost use Rattle.tp_spec.specs.declared.plan.Mark.{Mark as AMark};
ghost use Rattle.word_frontier.specs.Slots.{word_of, words_of, step_of, GoBack, ranks_of, links_of, keys, AreChained, IsFirst, IsOfRank, HeadMoved, head_at};

use crate::child::Child;
use crate::heads::{Heads, no_ids};
use crate::node::Node;
use crate::slot::{Among, Kind, Slot, State};
use std::alloc::Global;
use std::marker::Model;
use tp_spec::{Item, List, Mark, NoMemory};

/// A node that stands: its id, its deadline, in ticks, and under how many commitments that was
/// found.
#[derive(Clone, Copy, Debug, PartialEq, Eq)]
pub struct Standing {
    pub id: u32,
    pub deadline: u64,
    pub known: u8,
}

/// The frontier of the search: its nodes, open or taken, by their ids. Nodes that left stay as the
/// parents of others. All ids ever given of a rank are linked in order, and kept of each rank are
/// the first open id, the first that stands, and the last, so that no call looks at all nodes.
#[derive(Drop)]
pub struct Frontier {
    slots: Vec<Slot>,
    lasts: Vec<Option<u32>>,
    opens: Heads,
    stands: Heads,
}

impl Model for Frontier {
    ghost use Rattle.std.specs.Prelude.{vec_len, vec_capacity, ◌-◌};
    ghost use Rattle.word_frontier.specs.Nodes.{FrontierView};
    ghost use Rattle.word_frontier.specs.Slots.{nodes_of, IsKept};

    ghost Value = { FrontierView };

    ghost view = { λ f. record {
      nodes = nodes_of f.slots.items;
      made = vec_len f.slots;
      ranks = vec_len f.lasts;
      room = vec_capacity f.slots - vec_len f.slots;
    } };

    ghost invariant = { λ f. IsKept f.slots.items f.lasts.items f.opens f.stands };
}

impl Frontier {
    /// The root alone, which is open: the empty word, under its rank and its deadline without
    /// commitments. All ranks of the search are below `ranks`.
    pub fn root(alloc: Global, ranks: usize, rank: u32, deadline: u64) -> Result<Frontier, NoMemory>
        requires { rank < ranks }
        ensures nodes { IfOk result (λ f. f.nodes ≡ record {
          id = 0;
          word = [];
          rank = rank;
          deadline = deadline;
          known = 0;
          taker = None;
        } ∷ []) }
        ensures made { IfOk result (λ f. f.made ≡ 1) }
        ensures ranks { IfOk result (λ f. f.ranks ≡ ranks) }
    {
        let mut opens = Heads::new(alloc, ranks)?;
        opens.enter(rank as usize, 0);
        let mut stands = Heads::new(alloc, ranks)?;
        stands.enter(rank as usize, 0);
        let mut lasts = no_ids(alloc, ranks)?;
        lasts[rank as usize] = Some(0);
        let mut slots = Vec::new(alloc);
        match slots.push(Slot {
            deadline,
            parent: 0,
            number: 0,
            rank,
            link: 0,
            taker: 0,
            known: 0,
            kind: Kind::TimedAt,
            fresh: true,
            state: State::Open,
        }) {
            Ok(()) => {}
            Err(_) => return Err(NoMemory),
        }
        Ok(Frontier {
            slots,
            lasts,
            opens,
            stands,
        })
    }

    /// How many ids were given.
    pub fn made(&self) -> u32
        ensures { result ≡ self.now.made }
    {
        self.slots.len() as u32
    }

    /// Whether no node is left.
    pub fn is_empty(&self) -> bool
        ensures { result ≡ is_empty self.now.nodes }
    {
        match self.stands.least() {
            Some(_) => false,
            None => true,
        }
    }

    /// Nodes lie in the order of their ids, each of which was given once.
    pub fn keeps_order(&self)
        ensures { AreApart self.now }
    {
        // reading a field opens the invariant, which says it
        let _slots = &self.slots;
    }

    /// Whether the node of an id stands, and this actor took it.
    pub fn is_taken(&self, id: u32, actor: u32) -> bool
        ensures { result ≡ is_taken actor id self.now.nodes }
    {
        match self.slots.get(id as usize) {
            Some(slot) => slot.is_taken_by(actor),
            None => false,
        }
    }

    /// Whether the node of an id stands.
    pub fn has(&self, id: u32) -> bool
        ensures { result ≡ has_id id self.now.nodes }
    {
        match self.slots.get(id as usize) {
            Some(slot) => slot.is_among(Among::All),
            None => false,
        }
    }

    /// Whether the node of an id stands and is open.
    pub fn is_open(&self, id: u32) -> bool
        ensures { result ≡ has_id id (open_nodes self.now.nodes) }
    {
        match self.slots.get(id as usize) {
            Some(slot) => slot.is_among(Among::Open),
            None => false,
        }
    }

    /// The node of the least rank and id, open or taken, if any stands.
    pub fn best(&self) -> Option<Standing>
        ensures { GivesLeast self.now.nodes result }
    {
        let Some((_, id)) = self.stands.least() else {
            return None;
        };
        Some(self.standing(id))
    }

    /// The open node of the least rank and id, if any is open.
    pub fn least_open(&self) -> Option<Standing>
        ensures { GivesLeast (open_nodes self.now.nodes) result }
    {
        let Some((_, id)) = self.opens.least() else {
            return None;
        };
        Some(self.standing(id))
    }

    /// What is told of the node of an id.
    fn standing(&self, id: u32) -> Standing
        requires { id < self.now.made }
        ensures { (n : RankedNode) → IsIn n self.now.nodes → n.id ≡ id → Tells result n }
    {
        let slot = &self.slots[id as usize];
        Standing {
            id,
            deadline: slot.deadline,
            known: slot.known,
        }
    }

    /// The node of an id, which stands, gets a deadline that was found under so many commitments.
    pub fn renew(&mut self, id: u32, deadline: u64, known: u8)
        requires { IsTrue (has_id id self.old.nodes) }
        ensures nodes { self.new.nodes ≡ map (renewed id deadline known) self.old.nodes }
        ensures made { self.new.made ≡ self.old.made }
        ensures ranks { self.new.ranks ≡ self.old.ranks }
        ensures room { self.new.room ≡ self.old.room }
    {
        self.slots[id as usize].note_deadline(deadline, known);
    }

    /// A copy of the node of an id, which stands.
    pub fn copy_of(&self, alloc: Global, id: u32) -> Result<Node, NoMemory>
        requires { IsTrue (has_id id self.now.nodes) }
        ensures { IfOk result (IsCopy self.now.nodes id) }
    {
        let word = word(alloc, &self.slots, id)?;
        let slot = self.slots[id as usize];
        Ok(Node::new(List::of(word), slot.rank, slot.deadline))
    }

    /// Gives the least open node to an actor, where one is open.
    pub fn take_least(&mut self, actor: u32)
        ensures none { open_nodes self.old.nodes ≡ [] → self.new ≡ self.old }
        ensures nodes { (n : RankedNode) → IsLeast (open_nodes self.old.nodes) n
            → self.new.nodes ≡ map (taken_by actor n.id) self.old.nodes }
        ensures made { self.new.made ≡ self.old.made }
        ensures ranks { self.new.ranks ≡ self.old.ranks }
        ensures room { self.old.room ≤ self.new.room }
    {
        let Some((rank, id)) = self.opens.least() else {
            return;
        };
        self.slots[id as usize].note_taker(actor);
        move_head(&mut self.opens, &self.slots, &self.lasts, rank, Among::Open);
    }

    /// The best node leaves, where there is one.
    pub fn drop_best(&mut self)
        ensures none { self.old.nodes ≡ [] → self.new ≡ self.old }
        ensures nodes { (n : RankedNode) → IsLeast self.old.nodes n
            → self.new.nodes ≡ without n.id self.old.nodes }
        ensures made { self.new.made ≡ self.old.made }
        ensures ranks { self.new.ranks ≡ self.old.ranks }
        ensures room { self.old.room ≤ self.new.room }
    {
        if let Some(node) = self.best() {
            self.leave(node.id);
        }
    }

    /// The least open node leaves, where one is open.
    pub fn drop_least_open(&mut self)
        ensures none { open_nodes self.old.nodes ≡ [] → self.new ≡ self.old }
        ensures nodes { (n : RankedNode) → IsLeast (open_nodes self.old.nodes) n
            → self.new.nodes ≡ without n.id self.old.nodes }
        ensures made { self.new.made ≡ self.old.made }
        ensures ranks { self.new.ranks ≡ self.old.ranks }
        ensures room { self.old.room ≤ self.new.room }
    {
        if let Some(node) = self.least_open() {
            self.leave(node.id);
        }
    }

    /// Makes room for more nodes.
    pub fn reserve(&mut self, more: usize) -> Result<(), NoMemory>
        ensures nodes { self.new.nodes ≡ self.old.nodes }
        ensures made { self.new.made ≡ self.old.made }
        ensures ranks { self.new.ranks ≡ self.old.ranks }
        ensures room { OnOk result (more ≤ self.new.room) }
        ensures kept_room { self.old.room ≤ self.new.room }
    {
        self.slots.reserve(more)?;
        Ok(())
    }

    /// Puts open nodes in the place of the one of an id, which an actor took: one for each child
    /// that is live at a clock, in order, with the next ids. Their deadlines were found under so
    /// many commitments, their ranks are below the number that the root was made with, and there is
    /// room for them.
    pub fn expand(&mut self, id: u32, actor: u32, children: &[Child], now: u64, known: u8)
        requires taken { IsTrue (is_taken actor id self.old.nodes) }
        requires below { All (λ c. c.rank < self.old.ranks) children.now }
        requires room { length (live_at now children.now) ≤ self.old.room }
        requires ids { self.old.made + length (live_at now children.now) < 2 ^ 32 }
        ensures nodes { self.new.nodes ≡ without id self.old.nodes
            ++ children_from known (word_at id self.old.nodes) self.old.made
            (live_at now children.now) }
        ensures made { self.new.made ≡ self.old.made + length (live_at now children.now) }
        ensures ranks { self.new.ranks ≡ self.old.ranks }
        ensures room { self.old.room ≤ self.new.room + length (live_at now children.now) }
    {
        // the parent has a slot, since its id was given
        self.keeps_order();
        for child in children {
            if now <= child.deadline {
                self.enter(id, *child, known);
            }
        }
        self.leave(id);
    }

    /// A child of the node of an id comes in, open, with the next id.
    fn enter(&mut self, id: u32, child: Child, known: u8)
        requires there { id < self.old.made }
        requires rank { child.rank < self.old.ranks }
        requires room { 0 < self.old.room }
        requires ids { self.old.made + 1 < 2 ^ 32 }
        ensures nodes { (w : Items AMark) → StandsAt w id self.old.nodes
            → self.new.nodes ≡ self.old.nodes ++ child_of known self.old.made w child ∷ [] }
        ensures made { self.new.made ≡ self.old.made + 1 }
        ensures ranks { self.new.ranks ≡ self.old.ranks }
        ensures room { self.old.room ≤ self.new.room + 1 }
    {
        let made = self.slots.len() as u32;
        let rank = child.rank as usize;
        if let Some(last) = self.lasts[rank] {
            self.slots[last as usize].note_next(made);
        }
        self.lasts[rank] = Some(made);
        self.slots.push_reserved(Slot::open(id, child, known));
        self.opens.enter(rank, made);
        self.stands.enter(rank, made);
    }

    /// The node of an id, which stands, leaves.
    pub fn leave(&mut self, id: u32)
        requires { IsTrue (has_id id self.old.nodes) }
        ensures nodes { self.new.nodes ≡ without id self.old.nodes }
        ensures made { self.new.made ≡ self.old.made }
        ensures ranks { self.new.ranks ≡ self.old.ranks }
        ensures room { self.new.room ≡ self.old.room }
    {
        let rank = self.slots[id as usize].rank as usize;
        self.slots[id as usize].note_gone();
        move_head(&mut self.opens, &self.slots, &self.lasts, rank, Among::Open);
        move_head(&mut self.stands, &self.slots, &self.lasts, rank, Among::All);
    }
}

/// The first id of a rank moves on to the first whose node is still among those that are meant.
fn move_head(heads: &mut Heads, slots: &[Slot], lasts: &[Option<u32>], rank: usize, among: Among)
    requires chained { AreChained (ranks_of slots.now) (links_of slots.now) lasts.now }
    requires head { IsOfRank (ranks_of slots.now) rank (head_at heads.old rank) }
    requires there { rank < length heads.old }
    requires ranks { rank < length lasts.now }
    ensures { HeadMoved rank (keys among slots.now) heads.old heads.new }
{
    if let Some(head) = heads.at(rank) {
        heads.put(rank, first_from(slots, lasts, rank, head, among));
    }
}

/// The first id of a rank, from one of it on, whose node is among those that are meant.
fn first_from(
    slots: &[Slot],
    lasts: &[Option<u32>],
    rank: usize,
    from: u32,
    among: Among,
) -> Option<u32>
    requires chained { AreChained (ranks_of slots.now) (links_of slots.now) lasts.now }
    requires rank { slice_get (ranks_of slots.now) from ≡ Some rank }
    requires ranks { rank < length lasts.now }
    ensures { IsFirst rank from (keys among slots.now) result }
{
    let last = lasts[rank];
    let mut id = from;
    while !slots[id as usize].is_among(among) {
        if last == Some(id) {
            return None;
        }
        id = slots[id as usize].link;
    }
    Some(id)
}

/// The word of an id, written from its end on.
fn word(alloc: Global, slots: &[Slot], id: u32) -> Result<Vec<Mark>, NoMemory>
    requires back { GoBack (map step_of slots.now) }
    requires there { id < length slots.now }
    ensures { IfOk result (λ w. w.items ≡ word_of (words_of (map step_of slots.now)) id) }
{
    let blank = Mark {
        fresh: false,
        item: Item::End(0),
    };
    let mut left = depth(slots, id) as usize;
    let mut marks = vec![in alloc; blank; left]?;
    let mut at = id;
    while at > 0 {
        let slot = &slots[at as usize];
        left -= 1;
        marks[left] = slot.mark();
        at = slot.parent;
    }
    Ok(marks)
}

/// How many marks the word of an id has.
fn depth(slots: &[Slot], id: u32) -> u32
    requires back { GoBack (map step_of slots.now) }
    requires there { id < length slots.now }
    ensures { result ≡ length (word_of (words_of (map step_of slots.now)) id) }
{
    let mut depth = 0;
    let mut at = id;
    while at > 0 {
        depth += 1;
        at = slots[at as usize].parent;
    }
    depth
}
