//! Why an expression has no value.

use expr_value::NoValue;
use term_core::Memory;
use xsd_num::NumFault;

/// Why there is no value.
#[derive(Clone, Copy, Debug, PartialEq, Eq)]
pub enum ExprError {
    /// The value is the error of SPARQL (SPARQL 1.1, section 17.2).
    Error,
    /// The allocator had no room.
    Memory,
}

impl From<Memory> for ExprError {
    ghost use Rattle.expr_eval.specs.declared.error.ExprError.TheVariants as errors;
    ghost use Rattle.std.specs.Prelude.{◌≡◌};

    ghost from_gives = { λ fault error. error ≡ errors.Memory };

    fn from(_: Memory) -> Self {
        ExprError::Memory
    }
}

impl From<NoValue> for ExprError {
    ghost use Rattle.expr_eval.specs.declared.error.ExprError.TheVariants as errors;
    ghost use Rattle.std.specs.Prelude.{◌≡◌};

    ghost from_gives = { λ fault error. error ≡ errors.Error };

    fn from(_: NoValue) -> Self {
        ExprError::Error
    }
}

impl From<NumFault> for ExprError {
    ghost use Rattle.expr_eval.specs.declared.error.ExprError.TheVariants as errors;
    ghost use Rattle.std.specs.Prelude.{◌≡◌};

    ghost from_gives = { λ fault error. error ≡ errors.Error };

    fn from(_: NumFault) -> Self {
        ExprError::Error
    }
}
