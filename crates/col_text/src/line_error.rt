// Why a line isn't read.
ghost use Rattle.std.specs.Prelude.{◌≡◌};
ghost use Rattle.col_text.specs.declared.line_error.LineError.TheVariants.{NoMemory};
ghost use Rattle.col_text.specs.Refused.{line_error_of};

use col_expr::{ExprCause, ExprRefused};
use std::alloc::{AllocError, AllocFailed};

/// Why a line isn't read: it is bad, or memory is wanting.
#[derive(Drop, Debug)]
pub(crate) enum LineError {
    Bad,
    NoMemory,
}

impl From<AllocError> for LineError {
    ghost from_gives = { λ _ e. e ≡ NoMemory };

    fn from(_: AllocError) -> Self {
        LineError::NoMemory
    }
}

impl<T: Drop> From<AllocFailed<T>> for LineError {
    ghost from_gives = { λ _ e. e ≡ NoMemory };

    fn from(_: AllocFailed<T>) -> Self {
        LineError::NoMemory
    }
}

impl From<ExprRefused> for LineError {
    ghost from_gives = { λ refused e. e ≡ line_error_of refused.cause };

    fn from(refused: ExprRefused) -> Self {
        match refused.cause {
            ExprCause::NoMemory => LineError::NoMemory,
            ExprCause::ExprTooLarge { nodes: _ } | ExprCause::ExprTooDeep { depth: _ } =>
                LineError::Bad,
        }
    }
}
