// Where peers connect.
ghost use Rattle.std.specs.Prelude.{◌≡◌, ◌-◌, ◌<◌, ◌≤◌, ℕ, List, Option, IfOk, MatchResult};
ghost use Rattle.sage_outside.specs.Causes.{HasFaultCause, counted};
ghost use Rattle.sage_outside.specs.Door.{Served, IsFresh, HandsOut, GivesBack};

use crate::{Conn, Failed};

/// A place at which peers connect, as a listener of TCP.
pub trait Door {
    /// The connections that it hands out.
    type C: Conn;

    /// How many connections are handed out and not given back; 0 at first. Each door tells it.
    ghost out: { Self → ℕ };

    /// The connections still to come, each as its bytes, where the door tells. Only `next_conn`
    /// changes them.
    ghost coming: { Self → Option (List (List ℕ)) };

    /// The connections given back, in order, where the door tells. Only `give_back` changes them.
    ghost served: { Self → Option (List Served) };

    /// How often a call has failed. It never falls, and stands still at 2^64 - 1.
    ghost faults: { Self → ℕ };

    /// Waits at that host and port for peers from now on. `Failed` comes only where a fault was
    /// counted.
    fn listen(&mut self, host: &str, port: u16) -> Result<(), Failed>
        ensures cause { HasFaultCause (faults self.old) (faults self.new) result }
        ensures same_out { out self.new ≡ out self.old }
        ensures same_coming { coming self.new ≡ coming self.old }
        ensures same_served { served self.new ≡ served self.old };

    /// Hands out the next connection, from which nothing was taken and to which nothing was
    /// written. It may wait for a peer. `Failed` comes only where a fault was counted.
    fn next_conn(&mut self) -> Result<Self::C, Failed>
        ensures cause { HasFaultCause (faults self.old) (faults self.new) result }
        ensures fresh { IfOk result (λ conn.
            IsFresh (Self.C.taken conn) (Self.C.wrote conn) (Self.C.faults conn)) }
        ensures hands_out { HandsOut Self.C.coming Self.C.taken Self.C.wrote
            (coming self.old) (coming self.new) result }
        ensures out { MatchResult result (λ _. out self.new ≡ counted (out self.old))
            (λ _. out self.new ≡ out self.old) }
        ensures same_served { served self.new ≡ served self.old };

    /// Takes back a connection that was handed out.
    fn give_back(&mut self, conn: Self::C)
        requires { 0 < out self.old }
        ensures later { faults self.old ≤ faults self.new }
        ensures gives_back { GivesBack (Self.C.coming conn) (Self.C.taken conn) (Self.C.wrote conn)
            (Self.C.faults conn) (served self.old) (served self.new) }
        ensures out { out self.new ≡ out self.old - 1 }
        ensures same_coming { coming self.new ≡ coming self.old };
}
