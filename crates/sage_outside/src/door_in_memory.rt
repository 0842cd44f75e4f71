// A door in memory.
ghost use Rattle.std.specs.Prelude.{◌≡◌, ◌+◌, ◌-◌, ◌<◌, ◌≤◌, ℕ, [], ◌∷◌, Some, IfOk, MatchResult, All, map, take, drop, length};
ghost use Rattle.sage_outside.specs.Calls.{calls_with, Passes, FailsListed};
ghost use Rattle.sage_outside.specs.Causes.{HasFaultCause, counted};
ghost use Rattle.sage_outside.specs.Door.{IsFresh, HandsOut, GivesBack};
ghost use Rattle.sage_outside.specs.DoorState.{HandsByList};
ghost use Rattle.sage_outside.specs.Peers.{IsNewConn, conn_coming, conn_taken, conn_wrote, conn_faults, served_of};

use crate::calls::Calls;
use crate::{Door, Failed, MemConn};
use std::alloc::Global;
use std::marker::Model;
use std::mem;

/// A door in memory, at which given connections come one after the other. A call of it fails
/// exactly where its number is in a list or, in `next_conn`, no connection is left.
#[derive(Debug, Drop)]
pub struct MemDoor {
    alloc: Global,
    calls: Calls,
    conns: Vec<MemConn>,
    handed: usize,
    returned: usize,
}

impl Model for MemDoor {
    ghost use Rattle.sage_outside.specs.DoorState.{DoorState};

    ghost Value = { DoorState };

    ghost use Rattle.sage_outside.specs.DoorSlots.{state_of, IsOrdered};

    ghost view = { state_of };

    ghost invariant = { IsOrdered };
}

impl MemDoor {
    /// A door at which these connections come, in order; each is as `MemConn::new` made it. Its
    /// calls with the numbers of `fails`, counted from 0 over `listen` and `next_conn`, are to fail.
    pub fn new(alloc: Global, conns: Vec<MemConn>, fails: Vec<u64>) -> MemDoor
        requires { All IsNewConn conns.items }
        ensures coming { ⟦<MemDoor as Door>⟧.coming result ≡ Some (map conn_coming conns.items) }
        ensures served { ⟦<MemDoor as Door>⟧.served result ≡ Some [] }
        ensures out { ⟦<MemDoor as Door>⟧.out result ≡ 0 }
        ensures faults { ⟦<MemDoor as Door>⟧.faults result ≡ 0 }
        ensures calls { result.calls ≡ calls_with fails }
    {
        MemDoor {
            alloc,
            calls: Calls::new(fails),
            conns,
            handed: 0,
            returned: 0,
        }
    }

    /// The connections that came back, in order.
    pub fn served(&self) -> &[MemConn]
        ensures { ⟦<MemDoor as Door>⟧.served self.now ≡ Some (map served_of result.now) }
    {
        &self.conns[..self.returned]
    }
}

/// Puts another connection into that place, and answers the one that stood there.
fn replace_conn(conns: &mut Vec<MemConn>, place: usize, other: MemConn) -> MemConn
    requires { place < length conns.old.items }
    ensures first { drop place conns.old.items ≡ result ∷ drop (place + 1) conns.new.items }
    ensures front { (n : ℕ) → n ≤ place → take n conns.new.items ≡ take n conns.old.items }
    ensures length { length conns.new.items ≡ length conns.old.items }
{
    mem::replace(&mut conns[place], other)
}

/// A connection from which nothing comes.
fn no_conn(alloc: Global) -> MemConn {
    MemConn::new(alloc, Vec::new(alloc), 1, Vec::new(alloc))
}

impl Door for MemDoor {
    ghost use Rattle.std.specs.Prelude.{Some};
    ghost use Rattle.sage_outside.specs.Calls.{faults_of};

    type C = MemConn;

    ghost out = { λ door. door.out };

    ghost coming = { λ door. Some door.coming };

    ghost served = { λ door. Some door.served };

    ghost faults = { λ door. faults_of door.calls };

    fn listen(&mut self, host: &str, port: u16) -> Result<(), Failed>
        ensures cause { HasFaultCause (faults_of self.old.calls) (faults_of self.new.calls) result }
        ensures same_out { self.new.out ≡ self.old.out }
        ensures same_coming { Some self.new.coming ≡ Some self.old.coming }
        ensures same_served { Some self.new.served ≡ Some self.old.served }
        ensures by_list { MatchResult result (λ _. Passes self.old.calls self.new.calls)
            (λ _. FailsListed self.old.calls self.new.calls) }
    {
        if self.calls.begin() {
            self.calls.refuse();
            return Err(Failed);
        }
        Ok(())
    }

    fn next_conn(&mut self) -> Result<MemConn, Failed>
        ensures cause { HasFaultCause (faults_of self.old.calls) (faults_of self.new.calls) result }
        ensures fresh { IfOk result (λ conn.
            IsFresh (Some (conn_taken conn)) (Some (conn_wrote conn)) (conn_faults conn)) }
        ensures hands_out { HandsOut (λ conn. Some (conn_coming conn)) (λ conn. Some (conn_taken conn))
            (λ conn. Some (conn_wrote conn)) (Some self.old.coming) (Some self.new.coming) result }
        ensures out { MatchResult result (λ _. self.new.out ≡ counted self.old.out)
            (λ _. self.new.out ≡ self.old.out) }
        ensures same_served { Some self.new.served ≡ Some self.old.served }
        ensures by_list { HandsByList self.old.coming self.old.calls self.new.calls result }
    {
        if self.calls.begin() || self.handed >= self.conns.len() {
            self.calls.refuse();
            return Err(Failed);
        }
        let conn = replace_conn(&mut self.conns, self.handed, no_conn(self.alloc));
        self.handed += 1;
        Ok(conn)
    }

    fn give_back(&mut self, conn: MemConn)
        requires { 0 < self.old.out }
        ensures later { faults_of self.old.calls ≤ faults_of self.new.calls }
        ensures gives_back { GivesBack (Some (conn_coming conn)) (Some (conn_taken conn))
            (Some (conn_wrote conn)) (conn_faults conn) (Some self.old.served) (Some self.new.served) }
        ensures out { self.new.out ≡ self.old.out - 1 }
        ensures same_coming { Some self.new.coming ≡ Some self.old.coming }
        ensures same_calls { self.new.calls ≡ self.old.calls }
    {
        self.conns[self.returned] = conn;
        self.returned += 1;
    }
}
