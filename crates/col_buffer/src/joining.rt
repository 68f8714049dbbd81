//! Words of validity joined: a place is valid where it is valid in both.

ghost use Rattle.std.specs.Prelude.{◌≡◌, ◌+◌, ◌*◌, ◌≤◌, IfOk, Some, None, length, min};
ghost use Rattle.std.specs.Option.{option_map};
ghost use Rattle.col_buffer.specs.Validity.{Reaches};
ghost use Rattle.col_buffer.specs.Joining.{HasBitsFrom, HasBoth};

use crate::bits::word_from;
use std::alloc::{AllocError, Global};

/// Where a run of 64 places ends, of so many.
pub fn word_end(start: usize, len: usize) -> usize
    requires inside { start ≤ len }
    ensures end { result ≡ min (start + 64) len }
{
    if len - start < 64 { len } else { start + 64 }
}

/// Which of so many places are valid on both sides, each read from a place on. Without words each
/// place is valid, and without words on both sides there are none.
pub fn both(
    alloc: Global,
    left: Option<&[u64]>,
    left_offset: usize,
    right: Option<&[u64]>,
    right_offset: usize,
    len: usize,
) -> Result<Option<Vec<u64>>, AllocError>
    requires left { Reaches (option_map (λ words. words.now) left) (left_offset + len) }
    requires right { Reaches (option_map (λ words. words.now) right) (right_offset + len) }
    requires left_fits { left_offset + len ≤ usize.MAX }
    requires right_fits { right_offset + len ≤ usize.MAX }
    ensures bits { IfOk result (λ bits. HasBoth
        (option_map (λ words. words.now) left.entry) left_offset
        (option_map (λ words. words.now) right.entry) right_offset len
        (option_map (λ words. words.items) bits)) }
{
    match left {
        None => match right {
            None => Ok(None),
            Some(right) => Ok(Some(copy_bits(alloc, right, right_offset, len)?)),
        },
        Some(left) => match right {
            None => Ok(Some(copy_bits(alloc, left, left_offset, len)?)),
            Some(right) => {
                let bits = and_bits(alloc, left, left_offset, right, right_offset, len)?;
                Ok(Some(bits))
            }
        },
    }
}

/// The bits from a place on.
fn copy_bits(
    alloc: Global,
    words: &[u64],
    offset: usize,
    len: usize,
) -> Result<Vec<u64>, AllocError>
    requires inside { offset + len ≤ 64 * length words.now }
    requires fits { offset + len ≤ usize.MAX }
    ensures bits { IfOk result (λ bits. HasBitsFrom words.now offset len bits.items) }
{
    let count = len.div_ceil(64);
    let mut bits = Vec::with_capacity(alloc, count)?;
    for at in 0..count {
        bits.push(word_from(words, offset + at * 64))?;
    }
    Ok(bits)
}

/// The bits that are set in both, each read from a place on.
fn and_bits(
    alloc: Global,
    left: &[u64],
    left_offset: usize,
    right: &[u64],
    right_offset: usize,
    len: usize,
) -> Result<Vec<u64>, AllocError>
    requires left { left_offset + len ≤ 64 * length left.now }
    requires right { right_offset + len ≤ 64 * length right.now }
    requires left_fits { left_offset + len ≤ usize.MAX }
    requires right_fits { right_offset + len ≤ usize.MAX }
    ensures bits { IfOk result (λ bits. HasBoth (Some left.now) left_offset
        (Some right.now) right_offset len (Some bits.items)) }
{
    let count = len.div_ceil(64);
    let mut bits = Vec::with_capacity(alloc, count)?;
    for at in 0..count {
        let word = word_from(left, left_offset + at * 64);
        bits.push(word & word_from(right, right_offset + at * 64))?;
    }
    Ok(bits)
}
