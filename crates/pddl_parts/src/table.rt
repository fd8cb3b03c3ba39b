ghost use Rattle.std.specs.Prelude.{◌≡◌, OnOk, []};
ghost use Rattle.pddl_parts.specs.Tables.{value_of, with_value};

use indexmap::IndexMap;
use std::alloc::Global;
use std::marker::Model;
use tp_spec::NoMemory;

/// Names with a number each, in the order of their first places.
#[derive(Drop)]
pub struct Table {
    values: IndexMap<Vec<u8>, u32>,
}

impl Model for Table {
    ghost use Rattle.std.specs.Prelude.{List, ℕ, map};

    ghost Value = { List (List ℕ × ℕ) };

    ghost view = { λ t. map (λ e. (e.0.items, e.1)) t.values.entries };
}

impl Table {
    /// No names.
    pub fn new(alloc: Global) -> Table
        ensures { result ≡ [] }
    {
        Table {
            values: IndexMap::new(alloc),
        }
    }

    /// The number of a name.
    pub fn value(&self, name: &[u8]) -> Option<u32>
        ensures { result ≡ value_of self.now name.now }
    {
        self.values.get(name).copied()
    }

    /// Puts a name with its number behind the others. Where the name is there, its number stays.
    pub fn enter(&mut self, alloc: Global, name: &[u8], value: u32) -> Result<(), NoMemory>
        ensures table { OnOk result (self.new ≡ with_value self.old name.now value) }
    {
        if self.value(name).is_some() {
            return Ok(());
        }
        let key = match Vec::from_slice(alloc, name) {
            Ok(key) => key,
            Err(_) => return Err(NoMemory),
        };
        let _earlier = match self.values.insert(key, value) {
            Ok(earlier) => earlier,
            Err(_) => return Err(NoMemory),
        };
        Ok(())
    }
}
