ghost use Rattle.std.specs.Prelude.{◌≡◌, ◌<◌, ◌^◌, IfOk, OnOk, [], position, get_or, length};
ghost use Rattle.std.specs.List.{list_any, position_or_len};
ghost use Rattle.std.specs.Str.{bytes_eq};
ghost use Rattle.pddl_parts.specs.Names.{with_name, is_new};

use indexmap::IndexSet;
use std::alloc::Global;
use std::marker::Model;
use tp_spec::NoMemory;

/// A set of names, numbered from 0 in the order in which they were entered. Contracts see the list
/// of their bytes.
#[derive(Drop)]
pub struct Names {
    names: IndexSet<Vec<u8>>,
}

impl Model for Names {
    ghost use Rattle.std.specs.Prelude.{List as Items, ℕ, map};

    ghost Value = { Items (Items ℕ) };

    ghost view = { λ t. map (λ v. v.items) t.names.keys };
}

impl Names {
    /// No names.
    pub fn new(alloc: Global) -> Names
        ensures { result ≡ [] }
    {
        Names {
            names: IndexSet::new(alloc),
        }
    }

    /// Puts a name behind the others unless it is there, and answers its number and whether it is
    /// new.
    pub fn enter(&mut self, alloc: Global, name: &[u8]) -> Result<(usize, bool), NoMemory>
        ensures table { OnOk result (self.new ≡ with_name self.old name.now) }
        ensures place { IfOk result (λ r. r.0 ≡ position_or_len (bytes_eq name.now) self.old) }
        ensures fresh { IfOk result (λ r. r.1 ≡ is_new self.old name.now) }
    {
        let key = match Vec::from_slice(alloc, name) {
            Ok(key) => key,
            Err(_) => return Err(NoMemory),
        };
        let found = match self.names.insert_full(key) {
            Ok(found) => found,
            Err(_) => return Err(NoMemory),
        };
        Ok(found)
    }

    /// The number of a name.
    pub fn find(&self, name: &[u8]) -> Option<usize>
        ensures { result ≡ position (bytes_eq name.now) self.now }
    {
        self.names.get_index_of(name)
    }

    /// Whether a name is there.
    #[tactic(auto, using(crate::proofs::Tables::any_map))]
    pub fn has(&self, name: &[u8]) -> bool
        ensures { result ≡ list_any (bytes_eq name.now) self.now }
    {
        self.names.contains(name)
    }

    /// How many names there are.
    pub fn len(&self) -> usize
        ensures number { result ≡ length self.now }
        ensures small { result < 2 ^ 63 }
    {
        self.names.len()
    }

    /// The name with a number; the empty one where there is none.
    pub fn name_at(&self, number: usize) -> &[u8]
        ensures { result.now ≡ get_or self.now number [] }
    {
        match self.names.get_index(number) {
            Some(name) => name.as_slice(),
            None => &[],
        }
    }
}
