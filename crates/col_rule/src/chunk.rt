//! Chunks under a rule.

ghost use Rattle.std.specs.Prelude.{◌≡◌, IfOk, length};
ghost use Rattle.col_model.specs.Value.{on_slot};
ghost use Rattle.col_model.specs.ColumnCalls.{first_lost};
ghost use Rattle.col_rule.specs.Rules.{mapped, paired};

use crate::filling::fill;
use crate::gaps::{first_gap, words_of};
use crate::rule::{PairRule, SlotRule};
use crate::source::{Changing, Meeting};
use col_buffer::both;
use col_chunk::{WordChunk, from_buffers};
use col_kernel::Word;
use std::alloc::{AllocError, Global};

/// A chunk under a rule, and the first row that became null or wrapped.
#[derive(Drop)]
pub struct Changed<U: Word> {
    pub chunk: WordChunk<U>,
    pub lost: Option<usize>,
}

/// The rule at each slot, and the first slot that it doesn't keep.
pub fn change<T: Word, U: Word, R: SlotRule<T, U>>(
    alloc: Global,
    rule: &R,
    chunk: &WordChunk<T>,
) -> Result<Changed<U>, AllocError>
    ensures slots { IfOk result (λ changed. changed.chunk
        ≡ mapped (R.value rule.now) chunk.now) }
    ensures lost { IfOk result (λ changed. changed.lost
        ≡ first_lost (on_slot (R.kept rule.now)) 0 chunk.now) }
{
    let (from, bits, offset) = chunk.buffers();
    let filled = fill(alloc, &Changing { rule, from })?;
    let lost = first_gap(bits, offset, words_of(&filled.kept), from.len());
    let valid = both(alloc, words_of(&filled.valid), 0, bits, offset, from.len())?;
    let chunk = from_buffers(alloc, filled.values, valid)?;
    Ok(Changed { chunk, lost })
}

/// The rule at each place of two chunks.
pub fn meet<T: Word, U: Word, V: Word, R: PairRule<T, U, V>>(
    alloc: Global,
    rule: &R,
    left: &WordChunk<T>,
    right: &WordChunk<U>,
) -> Result<WordChunk<V>, AllocError>
    requires equal_lengths { length left.now ≡ length right.now }
    ensures slots { IfOk result (λ answer. answer ≡ paired (R.value rule.now) left.now right.now) }
{
    let (left_values, left_bits, left_offset) = left.buffers();
    let (right_values, right_bits, right_offset) = right.buffers();
    let len = left_values.len();
    let source = Meeting {
        rule,
        left: left_values,
        right: right_values,
    };
    let filled = fill(alloc, &source)?;
    let sides = both(alloc, left_bits, left_offset, right_bits, right_offset, len)?;
    let valid = both(alloc, words_of(&filled.valid), 0, words_of(&sides), 0, len)?;
    let chunk = from_buffers(alloc, filled.values, valid)?;
    Ok(chunk)
}
