// Objects that have nothing behind them.
ghost use Rattle.std.specs.Prelude.{◌≡◌, ◌≤◌, None, IsOk, IsErr};
ghost use Rattle.sage_outside.specs.Causes.{Rose, HasFaultCause};
ghost use Rattle.sage_outside.specs.Link.{HasLinkCause};

use crate::{Conn, Door, Failed, Link, LinkFault, Sink};
use std::alloc::Global;

/// A sink that keeps nothing, tells nothing and never fails.
#[derive(Clone, Copy, Debug)]
pub struct NeverSink;

impl NeverSink {
    /// A sink for bytes that nobody reads.
    pub fn new() -> NeverSink
        ensures faults { ⟦<NeverSink as Sink>⟧.faults result ≡ 0 }
    {
        NeverSink
    }
}

impl Sink for NeverSink {
    ghost written = { λ _. None };

    ghost faults = { λ _. 0 };

    fn put(&mut self, piece: &[u8]) -> Result<(), Failed>
        ensures never_fails { IsOk result }
    {
        Ok(())
    }
}

/// A link to no server: each exchange fails. It tells nothing but its count of faults.
#[derive(Debug, Drop)]
pub struct NoLink {
    faults: u64,
}

impl NoLink {
    /// A link that has not been used.
    pub fn new() -> NoLink
        ensures faults { ⟦<NoLink as Link>⟧.faults result ≡ 0 }
    {
        NoLink { faults: 0 }
    }
}

impl Link for NoLink {
    ghost may_reply = { λ _ _ _ _. ⊥ };

    ghost holds = { λ _ _ _ _. ⊥ };

    ghost turn = { λ _. None };

    ghost streak = { λ _. None };

    ghost scarce = { λ _. None };

    ghost asked = { λ _. None };

    ghost faults = { λ link. link.faults };

    fn exchange(
        &mut self,
        alloc: Global,
        host: &str,
        port: u16,
        request: &[u8],
    ) -> Result<Vec<u8>, LinkFault>
        ensures fails { result ≡ Err LinkFault.Failed }
        ensures cause { HasLinkCause self.old.faults self.new.faults result }
    {
        self.faults = self.faults.saturating_add(1);
        Err(LinkFault::Failed)
    }
}

/// The connection of a door at which nobody connects. No call makes one: its calls fail.
#[derive(Debug, Drop)]
pub struct NoConn {
    faults: u64,
}

impl Conn for NoConn {
    ghost coming = { λ _. None };

    ghost taken = { λ _. None };

    ghost wrote = { λ _. None };

    ghost faults = { λ conn. conn.faults };

    fn take(&mut self, buf: &mut [u8]) -> Result<usize, Failed>
        ensures fails { IsErr result }
        ensures cause { HasFaultCause self.old.faults self.new.faults result }
    {
        self.faults = self.faults.saturating_add(1);
        Err::<usize, _>(Failed)
    }

    fn put(&mut self, piece: &[u8]) -> Result<(), Failed>
        ensures fails { IsErr result }
        ensures cause { HasFaultCause self.old.faults self.new.faults result }
    {
        self.faults = self.faults.saturating_add(1);
        Err(Failed)
    }

    fn end(&mut self) {}
}

/// A door at which nobody connects: each call that can fail does. It tells nothing but its counts.
#[derive(Debug, Drop)]
pub struct NoDoor {
    out: u64,
    faults: u64,
}

impl NoDoor {
    /// A door that has not been used.
    pub fn new() -> NoDoor
        ensures out { ⟦<NoDoor as Door>⟧.out result ≡ 0 }
        ensures faults { ⟦<NoDoor as Door>⟧.faults result ≡ 0 }
    {
        NoDoor { out: 0, faults: 0 }
    }

    fn fault(&mut self)
        ensures later { self.old.faults ≤ self.new.faults }
        ensures rose { Rose self.old.faults self.new.faults }
        ensures same { self.new.out ≡ self.old.out }
    {
        self.faults = self.faults.saturating_add(1);
    }
}

impl Door for NoDoor {
    type C = NoConn;

    ghost out = { λ door. door.out };

    ghost coming = { λ _. None };

    ghost served = { λ _. None };

    ghost faults = { λ door. door.faults };

    fn listen(&mut self, host: &str, port: u16) -> Result<(), Failed>
        ensures fails { IsErr result }
        ensures cause { HasFaultCause self.old.faults self.new.faults result }
        ensures same { self.new.out ≡ self.old.out }
    {
        self.fault();
        Err(Failed)
    }

    fn next_conn(&mut self) -> Result<NoConn, Failed>
        ensures fails { IsErr result }
        ensures cause { HasFaultCause self.old.faults self.new.faults result }
        ensures same { self.new.out ≡ self.old.out }
    {
        self.fault();
        Err(Failed)
    }

    fn give_back(&mut self, conn: NoConn) {
        let NoConn { .. } = conn;
        self.out = self.out.saturating_sub(1);
    }
}
