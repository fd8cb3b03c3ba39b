//! What the outside was asked for, as clauses see it.
ghost use Rattle.std.specs.Prelude.{◌≡◌, ℕ, List, [], ◌∷◌, ◌++◌};
ghost use Rattle.std.specs.Borrow.{ftrue};
ghost use Rattle.std.specs.Coded.{coded_list, coded_ℕ};
ghost use Rattle.tp_world.specs.Requests.{Request, Load, Save, request_code};

use std::fmt;
use std::marker::{Model, PhantomData};

/// The loads and saves that files were asked for, in order. Clauses alone read it: it takes no
/// memory, and its methods do nothing when the program runs. Whoever implements `Files` keeps one.
#[derive(Drop)]
pub struct Requests {
    marker: PhantomData<u8>,
    pub ghost made: { List Request } by { coded_list request_code },
}

impl Model for Requests {
    ghost also_owns = { λ _. ftrue };
}

// It owns nothing.
unsafe impl Send for Requests {}

unsafe impl Sync for Requests {}

impl Requests {
    /// Nothing was asked for.
    pub fn new() -> Requests
        ensures { result.made ≡ [] }
    {
        Requests {
            marker: PhantomData,
        }
    }

    /// A load of a name is asked for.
    pub fn note_load(&mut self, _name: &[u8])
        ensures { self.new.made ≡ self.old.made ++ Load _name.now ∷ [] }
    {}

    /// A save of these bytes under a name is asked for.
    pub fn note_save(&mut self, _name: &[u8], _bytes: &[u8])
        ensures { self.new.made ≡ self.old.made ++ Save _name.now _bytes.now ∷ [] }
    {}
}

impl fmt::Debug for Requests {
    fn fmt<W: fmt::Write>(&self, f: &mut fmt::Formatter<W>) -> fmt::Result {
        f.write_str("Requests")
    }
}

/// The bytes of each put that a sink was asked for, in order. As `Requests` it is for clauses
/// alone. Whoever implements `Sink` keeps one.
#[derive(Drop)]
pub struct Puts {
    marker: PhantomData<u8>,
    pub ghost made: { List (List ℕ) } by { coded_list (coded_list coded_ℕ) },
}

impl Model for Puts {
    ghost also_owns = { λ _. ftrue };
}

// It owns nothing.
unsafe impl Send for Puts {}

unsafe impl Sync for Puts {}

impl Puts {
    /// Nothing was asked for.
    pub fn new() -> Puts
        ensures { result.made ≡ [] }
    {
        Puts {
            marker: PhantomData,
        }
    }

    /// A put of these bytes is asked for.
    pub fn note_put(&mut self, _bytes: &[u8])
        ensures { self.new.made ≡ self.old.made ++ _bytes.now ∷ [] }
    {}
}

impl fmt::Debug for Puts {
    fn fmt<W: fmt::Write>(&self, f: &mut fmt::Formatter<W>) -> fmt::Result {
        f.write_str("Puts")
    }
}

/// The rates that a clock was begun with, in order, in ticks of a unit of time. As `Requests` it is
/// for clauses alone. Whoever implements `Clock` keeps one.
#[derive(Drop)]
pub struct Begun {
    marker: PhantomData<u8>,
    pub ghost made: { List ℕ } by { coded_list coded_ℕ },
}

impl Model for Begun {
    ghost also_owns = { λ _. ftrue };
}

// It owns nothing.
unsafe impl Send for Begun {}

unsafe impl Sync for Begun {}

impl Begun {
    /// The clock was not begun.
    pub fn new() -> Begun
        ensures { result.made ≡ [] }
    {
        Begun {
            marker: PhantomData,
        }
    }

    /// The clock is begun with these rates, one after another.
    pub fn note_rates(&mut self, _rates: &[u32])
        ensures { self.new.made ≡ self.old.made ++ _rates.now }
    {}
}

impl fmt::Debug for Begun {
    fn fmt<W: fmt::Write>(&self, f: &mut fmt::Formatter<W>) -> fmt::Result {
        f.write_str("Begun")
    }
}
