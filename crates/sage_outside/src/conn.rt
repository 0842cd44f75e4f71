// Connections of peers.
ghost use Rattle.std.specs.Prelude.{◌≡◌, ◌<◌, ℕ, List, Option, length};
ghost use Rattle.std.specs.Io.{ReadsAtMost};
ghost use Rattle.sage_outside.specs.Causes.{HasFaultCause};
ghost use Rattle.sage_outside.specs.Conn.{Comes, Takes};
ghost use Rattle.sage_outside.specs.Sink.{Puts};

use crate::Failed;

/// A connection of a peer: bytes that come from it, and bytes that are written to it.
pub trait Conn: Drop {
    /// The bytes still to come, where the connection tells.
    ghost coming: { Self → Option (List ℕ) };

    /// The bytes taken, where the connection tells.
    ghost taken: { Self → Option (List ℕ) };

    /// The bytes written, where the connection tells.
    ghost wrote: { Self → Option (List ℕ) };

    /// How often a call has failed. It never falls, and stands still at 2^64 - 1.
    ghost faults: { Self → ℕ };

    /// Takes a front of the bytes to come into a front of the buffer, and answers how many. 0
    /// means the end of the input. It may wait for the peer.
    ///
    /// `Failed` comes only where a fault was counted; then nothing was taken.
    fn take(&mut self, buf: &mut [u8]) -> Result<usize, Failed>
        requires { 0 < length buf.old }
        ensures cause { HasFaultCause (faults self.old) (faults self.new) result }
        ensures bound { ReadsAtMost result buf.new }
        ensures comes { Comes (coming self.old) (coming self.new) buf.new result }
        ensures takes { Takes (taken self.old) (taken self.new) buf.new result }
        ensures same { wrote self.new ≡ wrote self.old };

    /// Writes the piece after what was written. After `Failed`, which comes only where a fault was
    /// counted, a front of the piece was written.
    fn put(&mut self, piece: &[u8]) -> Result<(), Failed>
        ensures cause { HasFaultCause (faults self.old) (faults self.new) result }
        ensures puts { Puts (wrote self.old) (wrote self.new) piece.now result }
        ensures same_coming { coming self.new ≡ coming self.old }
        ensures same_taken { taken self.new ≡ taken self.old };

    /// Closes the sending side, so that the peer reads the end. An error of it is not counted.
    fn end(&mut self)
        ensures same_coming { coming self.new ≡ coming self.old }
        ensures same_taken { taken self.new ≡ taken self.old }
        ensures same_wrote { wrote self.new ≡ wrote self.old }
        ensures same_faults { faults self.new ≡ faults self.old };
}
