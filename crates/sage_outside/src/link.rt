// Exchanges with servers.
ghost use Rattle.std.specs.Prelude.{◌≡◌, ◌↔◌, ℕ, List, Option, IfOk};
ghost use Rattle.std.specs.Option.{option_map};
ghost use Rattle.sage_outside.specs.Link.{Data, Turn, HasLinkCause, RepliesOver, CountsScarce, Asks, next_turn, streak_after};

use std::alloc::Global;

/// No memory was found.
#[derive(Clone, Copy, Debug, PartialEq, Eq)]
pub struct Memory;

/// Why an exchange has no reply.
#[derive(Clone, Copy, Debug, PartialEq, Eq)]
pub enum LinkFault {
    /// The exchange failed, and the link counted it.
    Failed,
    /// No memory was found for the reply.
    Memory,
}

/// Exchanges of one request and one reply with servers, each reached by a host and a port, as
/// over HTTP (RFC 9112).
pub trait Link {
    /// The replies that a server over these data may give to a request within this quantum, a
    /// number of steps. Whoever speaks of a link's content names its own relation here.
    ghost may_reply: { Data → ℕ → List ℕ → List ℕ → Type 0 };

    /// That these data are behind a host and a port, as far as the link tells. It is a relation, so
    /// that a link over several servers needs no way to find their data. No call changes it.
    ghost holds: { Self → List ℕ → ℕ → Data → Type 0 };

    /// The quanta of the exchanges and the place of the next, where the link tells.
    ghost turn: { Self → Option Turn };

    /// How many exchanges in a row have failed or brought a 500 reply, where the link tells.
    ghost streak: { Self → Option ℕ };

    /// How many 503 replies there were, where the link tells. It never falls.
    ghost scarce: { Self → Option ℕ };

    /// The request that was answered last, where the link tells; it may be none.
    ghost asked: { Self → Option (Option (List ℕ)) };

    /// How often a call has failed. It never falls, and stands still at 2^64 - 1.
    ghost faults: { Self → ℕ };

    /// Sends the request to the server at that host and port, and answers its whole reply, for
    /// which it takes memory. It may wait for the server.
    ///
    /// `Failed` comes only where a fault was counted. Over data that it holds a reply is one that they
    /// may give, or a 503 reply, or, where a fault was counted, a 500 reply.
    fn exchange(
        &mut self,
        alloc: Global,
        host: &str,
        port: u16,
        request: &[u8],
    ) -> Result<Vec<u8>, LinkFault>
        ensures cause { HasLinkCause (faults self.old) (faults self.new) result }
        ensures reply { IfOk result (λ reply. (data_set : Data) → holds self.old host.now port data_set
            → RepliesOver may_reply data_set (turn self.old) request.now
            (faults self.old) (faults self.new) reply.items) }
        ensures same { (host : List ℕ) (port : ℕ) (data_set : Data)
            → holds self.old host port data_set ↔ holds self.new host port data_set }
        ensures turn { turn self.new ≡ option_map next_turn (turn self.old) }
        ensures streak { streak self.new ≡ option_map (streak_after result) (streak self.old) }
        ensures scarce { CountsScarce (scarce self.old) (scarce self.new) result }
        ensures asked { Asks (asked self.old) (asked self.new) request.now result };
}
