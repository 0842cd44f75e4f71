// Why what is read from blocks has no answer.
use crate::Failed;

/// Why a call over blocks that needs no memory has no answer.
#[derive(Clone, Copy, Debug, PartialEq, Eq)]
pub enum ReadFault {
    /// A call of the blocks failed, and was counted there.
    Blocks,
    /// What begins in that block is not well formed.
    Damaged { block: u32 },
}

/// Why a call over blocks has no answer.
#[derive(Clone, Copy, Debug, PartialEq, Eq)]
pub enum StoreFault {
    /// A call of the blocks failed, and was counted there.
    Blocks,
    /// What begins in that block is not well formed.
    Damaged { block: u32 },
    /// The allocator had no room.
    Memory,
}

impl From<Failed> for ReadFault {
    ghost use Rattle.std.specs.Prelude.{◌≡◌};
    ghost use Rattle.sage_outside.specs.declared.fault.ReadFault.TheVariants.{Blocks};

    ghost from_gives = { λ x y. y ≡ Blocks };

    fn from(_: Failed) -> ReadFault {
        ReadFault::Blocks
    }
}

impl From<Failed> for StoreFault {
    ghost use Rattle.std.specs.Prelude.{◌≡◌};
    ghost use Rattle.sage_outside.specs.declared.fault.StoreFault.TheVariants.{Blocks};

    ghost from_gives = { λ x y. y ≡ Blocks };

    fn from(_: Failed) -> StoreFault {
        StoreFault::Blocks
    }
}

impl From<ReadFault> for StoreFault {
    ghost use Rattle.std.specs.Prelude.{◌≡◌};
    ghost use Rattle.sage_outside.specs.Parts.{wider};

    ghost from_gives = { λ x y. y ≡ wider x };

    fn from(fault: ReadFault) -> StoreFault {
        match fault {
            ReadFault::Blocks => StoreFault::Blocks,
            ReadFault::Damaged { block } => StoreFault::Damaged { block },
        }
    }
}
