//! Numbers that are given to names, terms and BINDs, one after the other.

ghost use Rattle.std.specs.Prelude.{◌≡◌, ◌<◌, Some, None, slice_get, IfOk, OnOk};
ghost use Rattle.std.specs.BTreeMap.{get_by_text};
ghost use Rattle.term_core.specs.Patterns.{label_name};
ghost use Rattle.plan_course.specs.Meanings.{Tells, Grown, AreNamed};

use std::alloc::Global;
use std::collections::BTreeMap;
use term_core::{Items, Memory, Term, Text};

/// The names and terms that have numbers: their places, counted from 0.
#[derive(Drop)]
pub struct Numbering {
    /// Each name once.
    pub names: Items<Text>,
    /// The number of each name.
    pub slots: BTreeMap<String, usize>,
    pub given: Items<Term>,
    /// How many numbers of BINDs were given.
    pub made: u32,
}

impl Numbering {
    /// No numbers yet.
    pub fn new(alloc: Global) -> Numbering
        ensures { Tells result }
    {
        Numbering {
            names: Items::new(alloc),
            slots: BTreeMap::new(alloc),
            given: Items::new(alloc),
            made: 0,
        }
    }

    /// The number of a name. One that has none gets the next.
    pub fn slot_of(&mut self, alloc: Global, name: &Text) -> Result<usize, Memory>
        requires tells { Tells self.old }
        ensures grown { OnOk result (Grown self.old self.new) }
        ensures slot { IfOk result (λ slot. slice_get self.new.names slot ≡ Some name.now) }
    {
        if let Some(slot) = self.slots.get(name.as_str()) {
            return Ok(*slot);
        }
        self.add_name(alloc, name)
    }

    /// A number for a name that has none.
    fn add_name(&mut self, alloc: Global, name: &Text) -> Result<usize, Memory>
        requires tells { Tells self.old }
        requires missing { get_by_text self.old.slots name.now ≡ None }
        ensures grown { OnOk result (Grown self.old self.new) }
        ensures slot { IfOk result (λ slot. slice_get self.new.names slot ≡ Some name.now) }
    {
        let slot = self.names.len();
        let key = String::from_str(alloc, name.as_str())?;
        self.slots.insert(key, slot)?;
        self.names.push(name.copy(alloc)?)?;
        Ok(slot)
    }

    /// The number of the name of a blank node of the query.
    pub fn slot_of_label(&mut self, alloc: Global, label: &Text) -> Result<usize, Memory>
        requires tells { Tells self.old }
        ensures grown { OnOk result (Grown self.old self.new) }
        ensures slot { IfOk result (λ slot. slice_get self.new.names slot ≡ Some (label_name label.now)) }
    {
        let mut name = String::from_str(alloc, "_:")?;
        name.push_str(label.as_str())?;
        self.slot_of(alloc, &Text::from_string(name))
    }

    /// The numbers of names, in their order.
    pub fn slots_of(&mut self, alloc: Global, names: &[Text]) -> Result<Items<usize>, Memory>
        requires tells { Tells self.old }
        ensures grown { OnOk result (Grown self.old self.new) }
        ensures named { IfOk result (λ slots. AreNamed self.new.names slots names.now) }
    {
        let mut slots = Items::new(alloc);
        for name in names {
            slots.push(self.slot_of(alloc, name)?)?;
        }
        Ok(slots)
    }

    /// A number for an occurrence of a term. There are at most `2^32` of them.
    pub fn number_term(&mut self, alloc: Global, term: &Term) -> Result<u32, Memory>
        requires tells { Tells self.old }
        ensures grown { OnOk result (Grown self.old self.new) }
        ensures given { IfOk result (λ number. slice_get self.new.given number ≡ Some term.now) }
    {
        let number = self.given.len();
        if number > u32::MAX as usize {
            return Err(Memory);
        }
        self.given.push(term.copy(alloc)?)?;
        Ok(number as u32)
    }

    /// A number for what a BIND gives, above all that were given before.
    pub fn next_place(&mut self) -> Result<u32, Memory>
        requires tells { Tells self.old }
        ensures grown { OnOk result (Grown self.old self.new) }
        ensures least { IfOk result (λ place. place ≡ self.old.made) }
        ensures below { IfOk result (λ place. place < self.new.made) }
    {
        let place = self.made;
        match place.checked_add(1) {
            Some(made) => {
                self.made = made;
                Ok(place)
            }
            None => Err(Memory),
        }
    }
}
