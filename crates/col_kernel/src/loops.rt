//! The loops of the kernels: each makes its answer in one allocation and reads each slot once.

ghost use Rattle.std.specs.Prelude.{◌≡◌, IfOk, length};
ghost use Rattle.col_kernel.specs.Slots.{map_slots, slots_of, zip_slots};

use crate::Word;
use crate::formulas::{PairFormula, SlotFormula};
use std::alloc::{AllocError, Global};

/// The formula at each slot.
pub fn at_each_slot<T: Word, F: SlotFormula<T>>(
    alloc: Global,
    values: &[Option<T>],
    formula: &F,
) -> Result<Vec<Option<T>>, AllocError>
    ensures value { IfOk result (λ answer. slots_of T.reading answer.items
        ≡ map_slots (F.formula formula.now) (slots_of T.reading values.now)) }
{
    let mut answer = Vec::with_capacity(alloc, values.len())?;
    for value in values {
        answer.push(match value {
            Some(x) => formula.at(*x),
            None => None,
        })?;
    }
    Ok(answer)
}

/// The formula at each place of two columns.
pub fn at_each_place<T: Word, F: PairFormula<T>>(
    alloc: Global,
    left: &[Option<T>],
    right: &[Option<T>],
) -> Result<Vec<Option<T>>, AllocError>
    requires equal_lengths { length left.now ≡ length right.now }
    ensures value { IfOk result (λ answer. slots_of T.reading answer.items
        ≡ zip_slots F.formula (slots_of T.reading left.now) (slots_of T.reading right.now)) }
{
    let mut answer = Vec::with_capacity(alloc, left.len())?;
    for i in 0..left.len() {
        answer.push(match (left[i], right[i]) {
            (Some(x), Some(y)) => F::at(x, y),
            _ => None,
        })?;
    }
    Ok(answer)
}
