// The numbered calls of a form in memory.
ghost use Rattle.std.specs.Prelude.{◌≡◌, ◌↔◌, IsTrue, IfOk, Contains, nat_lt};
ghost use Rattle.sage_outside.specs.Calls.{IsNumberedOn, faults_of};
ghost use Rattle.sage_outside.specs.Causes.{counted};

use std::alloc::{AllocError, Global};

/// The calls of an object, numbered from 0; those whose numbers stand in a list are to fail. The
/// counts stand still at 2^64 - 1.
#[derive(Debug, Drop)]
pub struct Calls {
    number: u64,
    fails: Vec<u64>,
    listed: u64,
    cramped: u64,
}

impl Calls {
    /// No call was made yet, and those of the list are to fail.
    pub fn new(fails: Vec<u64>) -> Calls
        ensures { result ≡ record { number = 0; fails = fails; listed = 0; cramped = 0 } }
    {
        Calls {
            number: 0,
            fails,
            listed: 0,
            cramped: 0,
        }
    }

    /// Numbers a call, and says whether it is listed as one that fails.
    pub fn begin(&mut self) -> bool
        ensures listed { IsTrue result ↔ Contains self.old.fails.items self.old.number }
        ensures next { self.new ≡ record self.old { number = counted self.old.number } }
    {
        let fails = self.fails.contains(&self.number);
        self.number = self.number.saturating_add(1);
        fails
    }

    /// Counts a call that failed since it was listed.
    pub fn refuse(&mut self)
        ensures { self.new ≡ record self.old { listed = counted self.old.listed } }
    {
        self.listed = self.listed.saturating_add(1);
    }

    /// Counts a call that found no room.
    pub fn cramp(&mut self)
        ensures { self.new ≡ record self.old { cramped = counted self.old.cramped } }
    {
        self.cramped = self.cramped.saturating_add(1);
    }

    /// The same calls are to fail, counted on from the same number, and none has failed.
    pub fn numbered_on(&self, alloc: Global) -> Result<Calls, AllocError>
        ensures { IfOk result (λ calls. IsNumberedOn self.now calls) }
    {
        Ok(Calls {
            number: self.number,
            fails: Vec::from_slice(alloc, &self.fails)?,
            listed: 0,
            cramped: 0,
        })
    }

    /// Whether a call failed.
    pub fn has_failed(&self) -> bool
        ensures { result ≡ nat_lt 0 (faults_of self.now) }
    {
        self.listed > 0 || self.cramped > 0
    }

    /// How many calls found no room.
    pub fn cramped(&self) -> u64
        ensures { result ≡ self.now.cramped }
    {
        self.cramped
    }
}
