ghost use Rattle.std.specs.Prelude.{◌≡◌, [], ◌∷◌, ◌++◌, ◌≤◌, length, OnOk, IfErr, Ok, true, false};
ghost use Rattle.pddl_tokens.specs.Tokens.{Opens, Closes, Spells, mark_at, word_before};
ghost use Rattle.pddl_tokens.specs.Trees.{trees_of, all_spelled};
ghost use Rattle.pddl_tokens.specs.Faults.{fault_at_end};
ghost use Rattle.pddl_tokens.specs.Building.{read_so_far, stack_of, GoesOn, IsFaultAmong, IsTail};

use crate::form::{Form, TextFault, Word, group, single};
use std::alloc::Global;
use std::mem;
use tp_spec::{List, NoMemory};

/// How many lists may stand in one another.
const DEPTH: usize = 64;

/// A list that is still open: the members that came before it in the list around it, and its
/// parenthesis.
#[derive(Drop)]
pub struct Frame {
    pub before: List<Form>,
    pub at: u32,
}

/// The forms so far: the open lists, the outermost first, and the members of the innermost.
#[derive(Drop)]
pub struct Builder {
    pub frames: Vec<Frame>,
    pub parts: List<Form>,
}

impl Builder {
    pub fn new(alloc: Global) -> Builder
        ensures read { read_so_far result.frames.items result.parts ≡ [] }
        ensures stack { stack_of result.frames.items ≡ [] }
    {
        Builder {
            frames: Vec::new(alloc),
            parts: List::new(alloc),
        }
    }

    #[tactic(auto, using(crate::proofs::Growth::read_form))]
    fn word(&mut self, word: Word) -> Result<(), NoMemory>
        ensures read { OnOk result (read_so_far self.new.frames.items self.new.parts
            ≡ read_so_far self.old.frames.items self.old.parts ++ Spells word.at word.text ∷ []) }
        ensures stack { OnOk result (stack_of self.new.frames.items
            ≡ stack_of self.old.frames.items) }
    {
        self.parts.push(single(word))
    }

    #[tactic(auto, using(crate::proofs::Growth::read_frame))]
    fn begin(&mut self, alloc: Global, at: u32) -> Result<(), NoMemory>
        ensures read { OnOk result (read_so_far self.new.frames.items self.new.parts
            ≡ read_so_far self.old.frames.items self.old.parts ++ Opens at ∷ []) }
        ensures stack { OnOk result (stack_of self.new.frames.items
            ≡ at ∷ stack_of self.old.frames.items) }
    {
        let before = mem::replace(&mut self.parts, List::new(alloc));
        match self.frames.push(Frame { before, at }) {
            Ok(()) => Ok(()),
            Err(_) => Err(NoMemory),
        }
    }

    /// Ends the innermost list, and says whether one was open.
    #[tactic(auto, using(crate::proofs::Growth::read_end))]
    fn end(&mut self, alloc: Global, close: u32) -> Result<bool, NoMemory>
        ensures read { result ≡ Ok true
            → read_so_far self.new.frames.items self.new.parts
            ≡ read_so_far self.old.frames.items self.old.parts ++ Closes close ∷ [] }
        ensures stack { result ≡ Ok true
            → IsTail (stack_of self.new.frames.items) (stack_of self.old.frames.items) }
        ensures none { result ≡ Ok false → stack_of self.old.frames.items ≡ [] }
    {
        match self.frames.pop() {
            None => Ok(false),
            Some(frame) => {
                let Frame { before, at } = frame;
                let parts = mem::replace(&mut self.parts, before);
                self.parts.push(group(alloc, at, close, parts))?;
                Ok(true)
            }
        }
    }

    /// Reads the word that ends before a place, where there is one.
    pub fn finish_word(&mut self, alloc: Global, at: u32, text: &[u8]) -> Result<(), NoMemory>
        requires { length text.now ≤ at }
        ensures read { OnOk result (read_so_far self.new.frames.items self.new.parts
            ≡ read_so_far self.old.frames.items self.old.parts ++ word_before at text.now) }
        ensures stack { OnOk result (stack_of self.new.frames.items
            ≡ stack_of self.old.frames.items) }
    {
        if text.is_empty() {
            return Ok(());
        }
        let at = at - text.len() as u32;
        match Vec::from_slice(alloc, text) {
            Ok(text) => self.word(Word {
                at,
                text: List::of(text),
            }),
            Err(_) => Err(NoMemory),
        }
    }

    /// Reads the parenthesis at a place, where there is one.
    pub fn mark(&mut self, alloc: Global, at: u32, c: u8) -> Result<(), TextFault>
        ensures read { OnOk result (read_so_far self.new.frames.items self.new.parts
            ≡ read_so_far self.old.frames.items self.old.parts ++ mark_at at c) }
        ensures goes_on { OnOk result (GoesOn (stack_of self.old.frames.items)
            (stack_of self.new.frames.items) (mark_at at c)) }
        ensures fault { IfErr result (λ f. IsFaultAmong f (stack_of self.old.frames.items)
            (mark_at at c)) }
    {
        if c == b'(' {
            if self.depth() == DEPTH {
                return Err(TextFault::TooDeep { at });
            }
            self.begin(alloc, at)?;
            Ok(())
        } else if c == b')' {
            if self.end(alloc, at)? {
                Ok(())
            } else {
                Err(TextFault::Unopened { at })
            }
        } else {
            Ok(())
        }
    }

    /// How many lists are open.
    #[tactic(auto, using(crate::proofs::Growth::stack_length))]
    fn depth(&self) -> usize
        ensures { result ≡ length (stack_of self.now.frames.items) }
    {
        self.frames.len()
    }

    /// The fault where nothing follows.
    pub fn fault_at_end(&self, bad: Option<u32>) -> Option<TextFault>
        ensures { result ≡ fault_at_end bad (stack_of self.now.frames.items) }
    {
        match bad {
            Some(at) => Some(TextFault::NotUtf8 { at }),
            None => match self.frames.last() {
                None => None,
                Some(frame) => Some(TextFault::Unclosed { at: frame.at }),
            },
        }
    }

    /// The forms, where no list is open.
    #[tactic(auto, using(crate::proofs::Growth::stack_length))]
    pub fn into_forms(self) -> List<Form>
        requires { stack_of self.frames.items ≡ [] }
        ensures { all_spelled (trees_of result) ≡ read_so_far self.frames.items self.parts }
    {
        let Builder { frames: _, parts } = self;
        parts
    }
}
