//! The data in memory: a dictionary of its terms, and its triples by the numbers of their terms.

ghost use Rattle.std.specs.Prelude.{◌≡◌, ◌↔◌, ◌+◌, ◌<◌, ◌≤◌, ◌^◌, List, map, flat_map, length, OnOk, IfOk, Contains};
ghost use Rattle.std.specs.List.Sorted.{IsStrictlySortedBy};
ghost use Rattle.term_core.specs.Ids.{id_cmp};
ghost use Rattle.term_core.specs.declared.pattern.IdTriple.{IdTriple};
ghost use Rattle.term_core.specs.declared.term.Triple.{Triple};
ghost use Rattle.term_core.specs.Data.{parts};
ghost use Rattle.store_image.specs.Table.{IsTable, IsFound, terms_in, ids_in, term_numbered};
ghost use Rattle.store_image.specs.Numbering.{with_places, trios, is_last, with_last, AreSlots, AreRanked, IsDictionary};

use crate::slot::Slot;
use std::alloc::Global;
use term_core::{IdTriple, Memory, Term, Triple};

/// The data: its terms in order, each once, and its triples by the numbers of their terms, in order,
/// each once. A term's number is how many of the terms come before it.
#[derive(Drop)]
pub struct Table<'a> {
    terms: Vec<&'a Term>,
    triples: Vec<IdTriple>,
}

/// The document's subjects, predicates and objects, in turn.
fn slots<'a>(alloc: Global, document: &'a [Triple]) -> Result<Vec<Slot<'a>>, Memory>
    requires { length document.now ≤ 4194303 }
    ensures { IfOk result (λ v. map (λ slot. (slot.term.now, slot.place)) v.items ≡ with_places 0 (flat_map parts document.now)) }
{
    let mut slots = Vec::with_capacity(alloc, 3 * document.len())?;
    let mut place = 0;
    for triple in document {
        slots.push(Slot::of(&triple.subject, place))?;
        slots.push(Slot::of(&triple.predicate, place + 1))?;
        slots.push(Slot::of(&triple.object, place + 2))?;
        place += 3;
    }
    Ok(slots)
}

/// The numbers, three for each triple.
fn grouped(alloc: Global, numbers: &[u32]) -> Result<Vec<IdTriple>, Memory>
    ensures { IfOk result (λ v. v.items ≡ trios numbers.now) }
{
    let mut triples = Vec::with_capacity(alloc, numbers.len() / 3)?;
    let mut left = numbers;
    while let [s, p, o, rest @ ..] = left {
        triples.push(IdTriple {
            s: *s,
            p: *p,
            o: *o,
        })?;
        left = rest;
    }
    Ok(triples)
}

/// Puts triples of numbers in order, each once.
pub(crate) fn order_ids(triples: &mut Vec<IdTriple>)
    ensures sorted { IsStrictlySortedBy id_cmp triples.new.items }
    ensures same { (t : IdTriple) → Contains triples.new.items t ↔ Contains triples.old.items t }
{
    triples.sort_unstable();
    triples.dedup();
}

/// Whether a term is the last of a list.
fn is_at_end(terms: &[&Term], term: &Term) -> bool
    ensures { result ≡ is_last (map (λ t. t.now) terms.now) term.now }
{
    match terms.last() {
        None => false,
        Some(last) => **last == *term,
    }
}

/// Appends a term, unless it stands at the end.
fn push_new<'a>(terms: &mut Vec<&'a Term>, term: &'a Term) -> Result<(), Memory>
    ensures put { OnOk result (map (λ t. t.now) terms.new.items ≡ with_last (map (λ t. t.now) terms.old.items) term.now) }
    ensures some { OnOk result (0 < length terms.new.items) }
    ensures few { OnOk result (length terms.new.items ≤ length terms.old.items + 1) }
{
    if is_at_end(terms.as_slice(), term) {
        return Ok(());
    }
    terms.push(term)?;
    Ok(())
}

/// Terms in order, each once, and the number of the term at each place of a document.
#[derive(Drop)]
struct Dictionary<'a> {
    terms: Vec<&'a Term>,
    numbers: Vec<u32>,
}

/// Numbers the terms of slots that are in order.
fn ranked<'a>(alloc: Global, slots: &[Slot<'a>]) -> Result<Dictionary<'a>, Memory>
    requires few { length slots.now ≤ 12582909 }
    requires slots { AreSlots (map (λ slot. (slot.term.now, slot.place)) slots.now) }
    ensures ranked { IfOk result (λ d. AreRanked (map (λ slot. (slot.term.now, slot.place)) slots.now) (map (λ t. t.now) d.terms.items) d.numbers.items) }
    ensures all { IfOk result (λ d. length d.numbers.items ≡ length slots.now) }
{
    let mut terms = Vec::new(alloc);
    let mut numbers = vec![in alloc; 0u32; slots.len()]?;
    for slot in slots {
        push_new(&mut terms, slot.term)?;
        numbers[slot.place as usize] = (terms.len() - 1) as u32;
    }
    Ok(Dictionary { terms, numbers })
}

/// The terms of a document, and the number of each subject, predicate and object in turn.
fn number_terms<'a>(alloc: Global, document: &'a [Triple]) -> Result<Dictionary<'a>, Memory>
    requires { length document.now ≤ 4194303 }
    ensures { IfOk result (λ d. IsDictionary (flat_map parts document.now) (map (λ t. t.now) d.terms.items) d.numbers.items) }
{
    let mut slots = slots(alloc, document)?;
    slots.sort_unstable();
    ranked(alloc, slots.as_slice())
}

/// A place as a term's number, where it is small enough.
fn number_of(place: usize) -> Option<u32>
    ensures { place < 2 ^ 32 → result ≡ Some place }
{
    if place <= u32::MAX as usize {
        Some(place as u32)
    } else {
        None
    }
}

impl<'a> Table<'a> {
    /// The data of a document: its terms are compared to put them in order, and no more after that.
    /// Repeats of a triple count once (RDF 1.1 Concepts, section 3: a graph is a set). A document of
    /// at most 2^22 - 1 triples has fewer than 2^24 places, each of which has a number.
    pub fn build(alloc: Global, document: &'a [Triple]) -> Result<Table<'a>, Memory>
        requires { length document.now ≤ 4194303 }
        ensures { IfOk result (λ table. IsTable document.now (terms_in table) (ids_in table)) }
    {
        let dictionary = number_terms(alloc, document)?;
        let mut triples = grouped(alloc, dictionary.numbers.as_slice())?;
        order_ids(&mut triples);
        Ok(Table {
            terms: dictionary.terms,
            triples,
        })
    }

    /// The term with a number.
    pub fn term(&self, id: u32) -> &Term
        requires { id < length (terms_in self.now) }
        ensures { result.now ≡ term_numbered (terms_in self.now) id }
    {
        self.terms[id as usize]
    }

    /// The terms in order, each once: the number of each is its place.
    pub fn terms(&self) -> &[&'a Term]
        ensures { map (λ t. t.now) result.now ≡ terms_in self.now }
    {
        self.terms.as_slice()
    }

    /// How many terms there are.
    pub fn term_count(&self) -> usize
        ensures { result ≡ length (terms_in self.now) }
    {
        self.terms.len()
    }

    /// The triples by the numbers of their terms, in order, each once.
    pub fn triples(&self) -> &[IdTriple]
        ensures { result.now ≡ ids_in self.now }
    {
        self.triples.as_slice()
    }

    /// How many triples there are.
    pub fn len(&self) -> usize
        ensures { result ≡ length (ids_in self.now) }
    {
        self.triples.len()
    }

    /// The number of a term, or nothing where it is not among the table's terms.
    pub fn id_of(&self, term: &Term) -> Option<u32>
        ensures { (L : List Triple) → IsTable L (terms_in self.now) (ids_in self.now) → IsFound (terms_in self.now) term.now result }
    {
        match self.terms.binary_search(&term) {
            Ok(place) => number_of(place),
            Err(_) => None,
        }
    }
}
