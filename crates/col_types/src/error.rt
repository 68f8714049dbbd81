// The refusals of column calls.
ghost use Rattle.std.specs.Prelude.{◌≡◌};
ghost use Rattle.col_types.specs.declared.error.PolarsError.TheVariants.{NoMemory};

use crate::{Kind, OpName};
use std::alloc::{AllocError, AllocFailed};
use thiserror::Error;

/// What a call answers that can be refused.
pub type PolarsResult<T> = Result<T, PolarsError>;

/// Why a call was refused. The text of a refusal is the name of its variant.
#[derive(Debug, Drop, PartialEq, Eq, Error)]
pub enum PolarsError {
    /// The two lengths don't fit each other.
    #[error("Lengths")]
    Lengths { left: usize, right: usize },
    /// The operation isn't defined for these types.
    #[error("Types")]
    Types { op: OpName, left: Kind, right: Kind },
    /// No cast leads from the one type to the other.
    #[error("CastPair")]
    CastPair { from: Kind, to: Kind },
    /// The type is no column's type.
    #[error("BadType")]
    BadType { dtype: Kind },
    /// The scale of the answer would be too large.
    #[error("Scale")]
    Scale { scale: usize },
    /// The scalar isn't in the physical word of the operand.
    #[error("Scalar")]
    Scalar { value: i128 },
    /// A strict cast would make the valid slot of this row null.
    #[error("Strict")]
    Strict { row: u32 },
    /// A magnitude has more digits than the precision.
    #[error("Precision")]
    Precision { precision: usize, digits: usize },
    /// Rows were to be gathered with a step of zero.
    #[error("GatherZero")]
    GatherZero,
    /// The text names no zone.
    #[error("Zone")]
    Zone,
    /// The moment of this row is outside the calendar.
    #[error("Calendar")]
    Calendar { row: u32 },
    /// The value of this row isn't a value of the type.
    #[error("Fit")]
    Fit { row: u32 },
    /// The pattern has no text.
    #[error("Format")]
    Format,
    /// The index is at or past the length.
    #[error("OutOfBounds")]
    OutOfBounds { index: usize, len: usize },
    /// The types differ where they must match.
    #[error("SchemaMismatch")]
    SchemaMismatch,
    /// The column would have too many rows.
    #[error("TooLong")]
    TooLong { len: u64 },
    /// The claim on order isn't true of the slots.
    #[error("FalseMark")]
    FalseMark,
    /// Memory was wanting.
    #[error("NoMemory")]
    NoMemory,
}

impl From<AllocError> for PolarsError {
    ghost from_gives = { λ _ e. e ≡ NoMemory };

    fn from(_: AllocError) -> Self {
        PolarsError::NoMemory
    }
}

impl<T: Drop> From<AllocFailed<T>> for PolarsError {
    ghost from_gives = { λ _ e. e ≡ NoMemory };

    fn from(_: AllocFailed<T>) -> Self {
        PolarsError::NoMemory
    }
}
