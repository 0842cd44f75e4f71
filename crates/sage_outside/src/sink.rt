// Where output goes.
ghost use Rattle.std.specs.Prelude.{ℕ, List, Option};
ghost use Rattle.sage_outside.specs.Sink.{Puts, HasSinkCause};

/// A call of the outside failed, and its object counted it.
#[derive(Clone, Copy, Debug, PartialEq, Eq)]
pub struct Failed;

/// A place to which bytes are written in order, as standard output.
pub trait Sink {
    /// The bytes written, where the sink tells.
    ghost written: { Self → Option (List ℕ) };

    /// How often a call has failed. It never falls, and stands still at 2^64 - 1.
    ghost faults: { Self → ℕ };

    /// Writes the piece after what was written. After `Failed`, which comes only where a fault was
    /// counted, a front of the piece was written.
    fn put(&mut self, piece: &[u8]) -> Result<(), Failed>
        ensures cause { HasSinkCause (faults self.old) (faults self.new) result }
        ensures puts { Puts (written self.old) (written self.new) piece.now result };
}
