// Two columns of integers divided, null where their type hasn't the quotient.
ghost use Rattle.std.specs.Prelude.{◌≡◌, Some};
ghost use Rattle.std.specs.Int.{w64};
ghost use Rattle.col_types.specs.PolarsError.{GivesBy};
ghost use Rattle.col_types.specs.declared.data_type.DataType.{Int64};
ghost use Rattle.col_model.specs.Arithmetic.{Signed};
ghost use Rattle.col_model.specs.Chunked.{column_of};
ghost use Rattle.col_model.specs.Column.{physical_word};
ghost use Rattle.col_model.specs.Formula.{value_of};
ghost use Rattle.col_arith.specs.Checked.{checked_of, checked_quotient};
ghost use Rattle.col_arith.specs.Joined.{joined_by};

use crate::reading::read_ticks;
use col_kernel::Word;
use col_rule::{PairRule, in_parts, meet_arrays};
use col_series::Series;
use col_types::{DataType, OpName, PolarsError, PolarsResult};
use std::alloc::Global;

/// The quotient towards zero, where the word holds it.
#[derive(Drop)]
struct Quotient;

impl<W: Word> PairRule<W, W, W> for Quotient {
    ghost value = { λ r. value_of (checked_quotient W.word_type) };

    fn at(&self, x: W, y: W) -> (W, bool) {
        in_parts(x.div_checked(y))
    }
}

/// The quotients of integers of 64 bits, where 64 bits hold them.
fn integer_quotients(alloc: Global, left: &Series, right: &Series) -> PolarsResult<Series>
    requires left { physical_word left.now.column.dtype ≡ Some (Signed w64) }
    requires right { physical_word right.now.column.dtype ≡ Some (Signed w64) }
    ensures column { GivesBy column_of result
        (joined_by (checked_quotient (Signed w64)) Int64 left.now.column right.now.column) }
{
    let words = meet_arrays(alloc, &Quotient, left.int64(), right.int64());
    read_ticks(alloc, words, DataType::Int64)
}

/// The quotients rounded towards zero, slot by slot, in the supertype; null by 0, and where the type
/// hasn't the quotient. Refused where the lengths differ (`Lengths`), then where the types aren't
/// two integers that have a supertype (`Types`). The answer has the left name.
pub fn checked_div(alloc: Global, left: &Series, right: &Series) -> PolarsResult<Series>
    ensures column { GivesBy column_of result (checked_of left.now.column right.now.column) }
{
    left.known();
    right.known();
    if left.len() != right.len() {
        return Err(PolarsError::Lengths {
            left: left.len(),
            right: right.len(),
        });
    }
    match (left.dtype(), right.dtype()) {
        (DataType::Int64, DataType::Int64) => integer_quotients(alloc, left, right),
        (left, right) => Err(PolarsError::Types {
            op: OpName::CheckedDiv,
            left: left.kind(),
            right: right.kind(),
        }),
    }
}
