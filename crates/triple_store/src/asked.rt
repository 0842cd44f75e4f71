//! The ranks that a pattern asks for.
ghost use Rattle.std.specs.Prelude.{◌≡◌, ◌≤◌, ◌↔◌, IsTrue, IfSome, IfNone, false};
ghost use Rattle.term_core.specs.declared.pattern.IdTriple.{IdTriple as Ids};
ghost use Rattle.btree_scan.specs.Cuts.{HasPrefix};
ghost use Rattle.store_image.specs.Keys.{index_numbered, ids_of_key};
ghost use Rattle.triple_store.specs.Asked.{wanted_of, is_bound, asks_for, index_for};
ghost use Rattle.triple_store.specs.WantedFronts.{wanted_number, numbers_of, width_of, front_of};

use btree_scan::Prefix;
use store_image::key_in;
use term_core::IdTriple;

/// The rank that is wanted at a place of a pattern: of its term, or of its name's value in a row.
#[derive(Clone, Copy, Debug, PartialEq, Eq)]
pub enum Wanted {
    /// Whatever rank there is.
    Any,
    /// This rank alone.
    Only(u32),
    /// None: the place has a term that the data lack.
    Nothing,
}

/// The ranks that a pattern wants, under a row of ranks or under none.
#[derive(Clone, Copy, Debug, PartialEq, Eq)]
pub struct Asked {
    pub s: Wanted,
    pub p: Wanted,
    pub o: Wanted,
}

impl Wanted {
    /// What a term wants, by its rank if it has one.
    pub fn of(rank: Option<u32>) -> Wanted
        ensures { result ≡ wanted_of rank }
    {
        match rank {
            Some(id) => Wanted::Only(id),
            None => Wanted::Nothing,
        }
    }

    /// Whether the place has a term.
    fn is_bound(self) -> bool
        ensures { result ≡ is_bound self }
    {
        match self {
            Wanted::Any => false,
            Wanted::Only(_) => true,
            Wanted::Nothing => true,
        }
    }

    /// Whether no rank will do.
    fn is_nothing(self) -> bool
        ensures { IsTrue result ↔ (self ≡ Wanted.Nothing) }
    {
        match self {
            Wanted::Any => false,
            Wanted::Only(_) => false,
            Wanted::Nothing => true,
        }
    }

    /// How many ranks are wanted.
    fn width(self) -> u8
        ensures is { result ≡ width_of self }
        ensures few { result ≤ 1 }
    {
        match self {
            Wanted::Any => 0,
            Wanted::Only(_) => 1,
            Wanted::Nothing => 1,
        }
    }

    /// The rank, or 0 where there is not one.
    fn number(self) -> u32
        ensures { result ≡ wanted_number self }
    {
        match self {
            Wanted::Any => 0,
            Wanted::Only(id) => id,
            Wanted::Nothing => 0,
        }
    }
}

impl Asked {
    /// The order in which the triples that are asked for stand side by side: that in which the
    /// places that have terms come first.
    pub fn order(&self) -> u8
        ensures is { index_numbered result ≡ index_for self.now }
        ensures few { result ≤ 2 }
    {
        match (self.s.is_bound(), self.p.is_bound(), self.o.is_bound()) {
            (false, true, _) => 1,
            (false, false, true) => 2,
            (true, false, true) => 2,
            (false, false, false) => 0,
            (true, false, false) => 0,
            (true, true, _) => 0,
        }
    }

    /// The triple of the ranks.
    fn numbers(&self) -> IdTriple
        ensures { result ≡ numbers_of self.now }
    {
        IdTriple {
            s: self.s.number(),
            p: self.p.number(),
            o: self.o.number(),
        }
    }

    /// The front of the keys of the triples that are asked for.
    fn front(&self) -> Prefix
        ensures is { result ≡ front_of self.now }
        ensures len { result.len ≤ 3 }
    {
        let key = key_in(self.order(), &self.numbers());
        Prefix {
            len: self.s.width() + self.p.width() + self.o.width(),
            a: key.s,
            b: key.p,
            c: key.o,
        }
    }

    /// The front of the keys of the triples that are asked for, or nothing where none will do.
    pub fn prefix(&self) -> Option<Prefix>
        ensures len { IfSome result (λ x. x.len ≤ 3) }
        ensures asks { IfSome result (λ x. (key : Ids) → HasPrefix x key ↔ IsTrue (asks_for self.now (ids_of_key (index_for self.now) key))) }
        ensures nothing { IfNone result ((ids : Ids) → asks_for self.now ids ≡ false) }
    {
        if self.s.is_nothing() {
            return None;
        }
        if self.p.is_nothing() {
            return None;
        }
        if self.o.is_nothing() {
            return None;
        }
        Some(self.front())
    }
}
