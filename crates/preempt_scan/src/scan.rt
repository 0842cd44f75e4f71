//! A scan.

ghost use Rattle.std.specs.Prelude.{◌≡◌, ◌≤◌, ℕ, List, false, Some, None, Ok, Err, IfOk, IfErr};
ghost use Rattle.std.specs.Ordering.{is_lt, is_eq};
ghost use Rattle.term_core.specs.declared.term.Term.{Term as Terms};
ghost use Rattle.term_core.specs.declared.term.Triple.{Triple as Triples};
ghost use Rattle.term_core.specs.declared.pattern.IdTriple.{IdTriple as Ids};
ghost use Rattle.term_core.specs.Ids.{id_cmp};
ghost use Rattle.term_core.specs.Mappings.{Row as Rows};
ghost use Rattle.term_core.specs.Patterns.{Pattern as Patterns};
ghost use Rattle.sage_outside.specs.Blocks.{HasRead, Tells};
ghost use Rattle.sage_outside.specs.Causes.{Rose};
ghost use Rattle.btree_scan.specs.Cuts.{prefix_cmp, stands_before};
ghost use Rattle.store_image.specs.Table.{IsTable};
ghost use Rattle.triple_store.specs.Stores.{IsKept, IsShown};
ghost use Rattle.triple_store.specs.Entries.{IsDamaged};
ghost use Rattle.triple_store.specs.Ranges.{IsAskedBy};
ghost use Rattle.preempt_scan.specs.declared.scan.Scan.{Scan as Scans};
ghost use Rattle.preempt_scan.specs.Scans.{IsScanIn, HasGiven, Finds, FoundBelow, GoesOnBehind, GoesOnIn, IsScanOf};

use btree_scan::Prefix;
use sage_outside::{Blocks, ReadFault};
use store_image::key_in;
use term_core::IdTriple;
use triple_store::{Asked, Store, triple_of};

/// The triples of one of a store's orders whose keys begin with a front, and the place behind the
/// last one that was given. It holds no block, so it serves over any store of the same data.
#[derive(Clone, Copy, Debug, PartialEq, Eq)]
pub struct Scan {
    /// The order: 0 by subject, predicate and object, 1 by predicate, object and subject, 2 by
    /// object, subject and predicate.
    pub order: u8,
    /// The front of the keys, or nothing where no triple is asked for.
    pub prefix: Option<Prefix>,
    /// The place in the order's list of what is given next.
    pub place: u32,
}

/// What a scan finds at its place.
#[derive(Clone, Copy, Debug, PartialEq, Eq)]
pub enum Found {
    /// The next triple, each term by its rank.
    Triple(IdTriple),
    /// No further triple.
    End,
}

/// The least key of those that begin with the front.
#[tactic(auto, unfolding(btree_scan::specs::Cuts::front_cmp))]
fn least(prefix: &Prefix) -> IdTriple
    ensures { (key : Ids) → is_lt (id_cmp key result) ≡ stands_before false prefix.now key }
{
    if prefix.len == 0 {
        IdTriple { s: 0, p: 0, o: 0 }
    } else if prefix.len == 1 {
        IdTriple {
            s: prefix.a,
            p: 0,
            o: 0,
        }
    } else if prefix.len == 2 {
        IdTriple {
            s: prefix.a,
            p: prefix.b,
            o: 0,
        }
    } else {
        IdTriple {
            s: prefix.a,
            p: prefix.b,
            o: prefix.c,
        }
    }
}

/// Whether the key begins with the front.
#[tactic(auto, unfolding(btree_scan::specs::Cuts::front_cmp))]
fn has_front(prefix: &Prefix, key: &IdTriple) -> bool
    ensures { result ≡ is_eq (prefix_cmp prefix.now key.now) }
{
    let first = key.s == prefix.a;
    let second = key.p == prefix.b;
    let third = key.o == prefix.c;
    if prefix.len == 0 {
        true
    } else if prefix.len == 1 {
        first
    } else if prefix.len == 2 {
        first & second
    } else {
        first & (second & third)
    }
}

impl Scan {
    /// A scan of no triple. Nothing is read.
    pub fn nothing(order: u8) -> Scan
        requires order { order ≤ 2 }
        ensures is { result ≡ record { order = order; prefix = None; place = 0 } }
        ensures within { (triples : ℕ) → IsScanIn triples result }
        ensures given { (ids : List Ids) → HasGiven ids result 0 }
    {
        Scan {
            order,
            prefix: None,
            place: 0,
        }
    }

    /// A scan that stands before the first triple whose key begins with the front. At most 3 blocks
    /// are read.
    ///
    /// `Blocks` comes only where a read failed, and `Damaged` only where in format 2 the tag of that
    /// block does not agree.
    pub fn open<B: Blocks>(
        store: &mut Store<B>,
        prefix: &Prefix,
        order: u8,
    ) -> Result<Scan, ReadFault>
        requires order { order ≤ 2 }
        requires len { prefix.now.len ≤ 3 }
        ensures kept { IsKept store.old store.new }
        ensures cost { HasRead store.old.device store.new.device 3 }
        ensures failed { result ≡ Err ReadFault.Blocks → Rose store.old.device.faults store.new.device.faults }
        ensures is { IfOk result (λ s. (s.order ≡ order) × (s.prefix ≡ Some prefix.now)) }
        ensures within { IfOk result (IsScanIn store.old.header.triples) }
        ensures given { (terms : List Terms) (ids : List Ids) → IsShown store.old terms ids
            → IfOk result (λ s. HasGiven ids s 0) }
        ensures damaged { (image : List ℕ) (block : ℕ) → Tells store.old.device.image image
            → result ≡ Err (ReadFault.Damaged block) → IsDamaged store.old.header image block }
        ensures whole { (terms : List Terms) (ids : List Ids) (block : ℕ) → IsShown store.old terms ids
            → result ≡ Err (ReadFault.Damaged block) → ⊥ }
    {
        let first = triple_of(order, &least(prefix));
        let place = store.lower_bound(order, &first)?;
        Ok(Scan {
            order,
            prefix: Some(*prefix),
            place,
        })
    }

    /// A scan that stands behind a triple, or `None` exactly where that is not one of the triples
    /// whose keys begin with the front. At most 4 blocks are read.
    ///
    /// `Blocks` and `Damaged` come as `open` has them.
    pub fn after<B: Blocks>(
        store: &mut Store<B>,
        prefix: &Prefix,
        order: u8,
        t: &IdTriple,
    ) -> Result<Option<Scan>, ReadFault>
        requires order { order ≤ 2 }
        requires len { prefix.now.len ≤ 3 }
        ensures kept { IsKept store.old store.new }
        ensures cost { HasRead store.old.device store.new.device 4 }
        ensures failed { result ≡ Err ReadFault.Blocks → Rose store.old.device.faults store.new.device.faults }
        ensures within { (s : Scans) → result ≡ Ok (Some s) → IsScanIn store.old.header.triples s }
        ensures behind { (terms : List Terms) (ids : List Ids) → IsShown store.old terms ids
            → IfOk result (GoesOnBehind ids order prefix.now t.now) }
        ensures damaged { (image : List ℕ) (block : ℕ) → Tells store.old.device.image image
            → result ≡ Err (ReadFault.Damaged block) → IsDamaged store.old.header image block }
        ensures whole { (terms : List Terms) (ids : List Ids) (block : ℕ) → IsShown store.old terms ids
            → result ≡ Err (ReadFault.Damaged block) → ⊥ }
    {
        if !has_front(prefix, &key_in(order, t)) {
            return Ok(None);
        }
        match store.place_in(order, t)? {
            None => Ok(None),
            Some(place) => {
                let triples = store.info().triples;
                prove!(place < triples);
                Ok(Some(Scan {
                    order,
                    prefix: Some(*prefix),
                    place: place + 1,
                }))
            }
        }
    }

    /// A scan of the triples that are asked for: those that agree with a pattern under a row, where
    /// the ranks are those of its terms and of the values of its names. At most 3 blocks are read.
    ///
    /// `Blocks` and `Damaged` come as `open` has them.
    pub fn of<B: Blocks>(store: &mut Store<B>, asked: &Asked) -> Result<Scan, ReadFault>
        ensures kept { IsKept store.old store.new }
        ensures cost { HasRead store.old.device store.new.device 3 }
        ensures failed { result ≡ Err ReadFault.Blocks → Rose store.old.device.faults store.new.device.faults }
        ensures within { IfOk result (IsScanIn store.old.header.triples) }
        ensures given { (terms : List Terms) (ids : List Ids) → IsShown store.old terms ids
            → IfOk result (λ s. HasGiven ids s 0) }
        ensures found { (L : List Triples) (terms : List Terms) (ids : List Ids) (p : Patterns) (row : Rows) → IsTable L terms ids
            → IsShown store.old terms ids → IsAskedBy terms p row asked.now → IfOk result (IsScanOf L terms ids p row) }
        ensures damaged { (image : List ℕ) (block : ℕ) → Tells store.old.device.image image
            → result ≡ Err (ReadFault.Damaged block) → IsDamaged store.old.header image block }
        ensures whole { (terms : List Terms) (ids : List Ids) (block : ℕ) → IsShown store.old terms ids
            → result ≡ Err (ReadFault.Damaged block) → ⊥ }
    {
        let order = asked.order();
        match asked.prefix() {
            None => Ok(Scan::nothing(order)),
            Some(prefix) => Scan::open(store, &prefix, order),
        }
    }

    /// A scan of the triples that are asked for that stands behind one of them, or `None` exactly
    /// where that is none of them. At most 4 blocks are read.
    ///
    /// `Blocks` and `Damaged` come as `open` has them.
    pub fn of_after<B: Blocks>(
        store: &mut Store<B>,
        asked: &Asked,
        t: &IdTriple,
    ) -> Result<Option<Scan>, ReadFault>
        ensures kept { IsKept store.old store.new }
        ensures cost { HasRead store.old.device store.new.device 4 }
        ensures failed { result ≡ Err ReadFault.Blocks → Rose store.old.device.faults store.new.device.faults }
        ensures within { (s : Scans) → result ≡ Ok (Some s) → IsScanIn store.old.header.triples s }
        ensures found { (L : List Triples) (terms : List Terms) (ids : List Ids) (p : Patterns) (row : Rows) → IsTable L terms ids
            → IsShown store.old terms ids → IsAskedBy terms p row asked.now → IfOk result (GoesOnIn L terms ids p row t.now) }
        ensures damaged { (image : List ℕ) (block : ℕ) → Tells store.old.device.image image
            → result ≡ Err (ReadFault.Damaged block) → IsDamaged store.old.header image block }
        ensures whole { (terms : List Terms) (ids : List Ids) (block : ℕ) → IsShown store.old terms ids
            → result ≡ Err (ReadFault.Damaged block) → ⊥ }
    {
        let order = asked.order();
        match asked.prefix() {
            None => Ok(None),
            Some(prefix) => Scan::after(store, &prefix, order, t),
        }
    }

    /// The next triple of a scan with that front, or `End` exactly where there is none.
    fn probe_front<B: Blocks>(
        &mut self,
        store: &mut Store<B>,
        prefix: &Prefix,
    ) -> Result<Found, ReadFault>
        requires within { IsScanIn store.old.header.triples self.old }
        requires front { self.old.prefix ≡ Some prefix.now }
        ensures kept { IsKept store.old store.new }
        ensures cost { HasRead store.old.device store.new.device 1 }
        ensures failed { result ≡ Err ReadFault.Blocks → Rose store.old.device.faults store.new.device.faults }
        ensures order { self.new.order ≡ self.old.order }
        ensures prefix { self.new.prefix ≡ self.old.prefix }
        ensures refused { IfErr result (λ fault. self.new ≡ self.old) }
        ensures within { IsScanIn store.old.header.triples self.new }
        ensures named { IfOk result (FoundBelow store.old.header.terms) }
        ensures found { (terms : List Terms) (ids : List Ids) (k : ℕ) → IsShown store.old terms ids → HasGiven ids self.old k
            → IfOk result (Finds ids self.old self.new k) }
        ensures damaged { (image : List ℕ) (block : ℕ) → Tells store.old.device.image image
            → result ≡ Err (ReadFault.Damaged block) → IsDamaged store.old.header image block }
        ensures whole { (terms : List Terms) (ids : List Ids) (block : ℕ) → IsShown store.old terms ids
            → result ≡ Err (ReadFault.Damaged block) → ⊥ }
    {
        if self.place >= store.info().triples {
            return Ok(Found::End);
        }
        let t = store.entry(self.order, self.place)?;
        if !has_front(prefix, &key_in(self.order, &t)) {
            return Ok(Found::End);
        }
        self.place += 1;
        Ok(Found::Triple(t))
    }

    /// The next triple, or `End` exactly where there is none. At most one block is read. A refused
    /// probe leaves the place.
    ///
    /// `Blocks` comes only where a read failed. `Damaged` comes only where an id of the entry is no
    /// term's, or in format 2 the tag of its block does not agree.
    pub fn probe<B: Blocks>(&mut self, store: &mut Store<B>) -> Result<Found, ReadFault>
        requires within { IsScanIn store.old.header.triples self.old }
        ensures kept { IsKept store.old store.new }
        ensures cost { HasRead store.old.device store.new.device 1 }
        ensures failed { result ≡ Err ReadFault.Blocks → Rose store.old.device.faults store.new.device.faults }
        ensures order { self.new.order ≡ self.old.order }
        ensures prefix { self.new.prefix ≡ self.old.prefix }
        ensures refused { IfErr result (λ fault. self.new ≡ self.old) }
        ensures within { IsScanIn store.old.header.triples self.new }
        ensures named { IfOk result (FoundBelow store.old.header.terms) }
        ensures found { (terms : List Terms) (ids : List Ids) (k : ℕ) → IsShown store.old terms ids → HasGiven ids self.old k
            → IfOk result (Finds ids self.old self.new k) }
        ensures damaged { (image : List ℕ) (block : ℕ) → Tells store.old.device.image image
            → result ≡ Err (ReadFault.Damaged block) → IsDamaged store.old.header image block }
        ensures whole { (terms : List Terms) (ids : List Ids) (block : ℕ) → IsShown store.old terms ids
            → result ≡ Err (ReadFault.Damaged block) → ⊥ }
    {
        match self.prefix {
            None => Ok(Found::End),
            Some(prefix) => self.probe_front(store, &prefix),
        }
    }
}
