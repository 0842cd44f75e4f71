// Several servers, reached by their numbers.
ghost use Rattle.std.specs.Prelude.{◌≡◌, ◌↔◌, ◌<◌, ◌≤◌, ℕ, List, Option, IfOk};
ghost use Rattle.std.specs.Bool.{OnTrue};
ghost use Rattle.sage_outside.specs.Causes.{Rose};
ghost use Rattle.sage_outside.specs.Link.{Data, Asks};
ghost use Rattle.sage_outside.specs.Replies.{is_server_error, is_unavailable};
ghost use Rattle.sage_outside.specs.Responder.{AnswersOver};

use crate::Memory;
use std::alloc::Global;

/// Servers over the same data, each of which answers one request at a time with one page.
pub trait Responder {
    /// The replies that a server over these data may give to a request within this quantum, a
    /// number of steps. Whoever speaks of the servers' content names its own relation here.
    ghost may_reply: { Data → ℕ → List ℕ → List ℕ → Type 0 };

    /// How many servers there are, numbered from 0. No call changes it.
    ghost servers: { Self → ℕ };

    /// That these are the servers' data, as far as is told. No call changes it.
    ghost holds: { Self → Data → Type 0 };

    /// The request that was answered last, where it is told; it may be none.
    ghost asked: { Self → Option (Option (List ℕ)) };

    /// How many 503 replies there were. It never falls, and stands still at 2^64 - 1.
    ghost scarce: { Self → ℕ };

    /// How often a call has failed. It never falls, and stands still at 2^64 - 1.
    ghost faults: { Self → ℕ };

    /// The whole reply of the server of that number to the request, with a page of at most so many
    /// steps as the quantum says. It takes memory for the reply.
    ///
    /// A 500 reply comes only where a fault was counted, a 503 reply only where it was counted
    /// among the scarce ones. Over data that the servers hold, each other reply is one that they
    /// may give.
    fn reply(
        &mut self,
        alloc: Global,
        server: u32,
        quantum: u32,
        request: &[u8],
    ) -> Result<Vec<u8>, Memory>
        requires server { server < servers self.old }
        requires quantum { (1 ≤ quantum) × (quantum ≤ 10000) }
        ensures later { faults self.old ≤ faults self.new }
        ensures failed { IfOk result (λ reply. OnTrue (is_server_error reply.items)
            (Rose (faults self.old) (faults self.new))) }
        ensures later_scarce { scarce self.old ≤ scarce self.new }
        ensures scarce { IfOk result (λ reply. OnTrue (is_unavailable reply.items)
            (Rose (scarce self.old) (scarce self.new))) }
        ensures reply { IfOk result (λ reply. (data_set : Data) → holds self.old data_set
            → AnswersOver may_reply data_set quantum request.now reply.items) }
        ensures same { (data_set : Data) → holds self.old data_set ↔ holds self.new data_set }
        ensures same_servers { servers self.new ≡ servers self.old }
        ensures asked { Asks (asked self.old) (asked self.new) request.now result };

    /// Opens the server of that number anew, for which it takes memory. After `Memory` the old one
    /// stays.
    fn restart(&mut self, alloc: Global, server: u32) -> Result<(), Memory>
        requires server { server < servers self.old }
        ensures later { faults self.old ≤ faults self.new }
        ensures later_scarce { scarce self.old ≤ scarce self.new }
        ensures same { (data_set : Data) → holds self.old data_set ↔ holds self.new data_set }
        ensures same_servers { servers self.new ≡ servers self.old }
        ensures same_asked { asked self.new ≡ asked self.old };
}
