//! The slots of a new column.

ghost use Rattle.std.specs.Prelude.{◌≡◌, ◌<◌, ◌≤◌, ◌^◌, true, length, map, take, IfOk};
ghost use Rattle.std.specs.List.{list_all};
ghost use Rattle.std.specs.Option.{option_map};
ghost use Rattle.std.specs.Int.{w32, w64};
ghost use Rattle.col_types.specs.declared.is_sorted.IsSorted.TheVariants.{Not};
ghost use Rattle.col_model.specs.Arithmetic.{is_within, Signed, word_values};
ghost use Rattle.col_model.specs.Value.{integer_slot, whole};
ghost use Rattle.col_model.specs.Words.{is_word_slot, word_dtype};
ghost use Rattle.col_model.specs.Chunked.{in_one_chunk};
ghost use Rattle.col_model.specs.Column.{is_built_type, day_values};
ghost use Rattle.col_model.specs.ColumnCalls.{is_unfit, first_unfit};

use crate::{DataType, PlSmallStr};
use col_chunk::{ArrayOf, Chunk, ChunkedArray, Word, WordChunk};
use col_types::NANOS_PER_DAY;
use std::alloc::{AllocError, Global};

/// A column has fewer rows.
pub(crate) const ROW_LIMIT: usize = 1 << 32;

/// Whether the word of dates holds the value.
fn is_day(value: i128) -> bool
    ensures within { result ≡ is_within (word_values (Signed w32)) value }
{
    i128::from(i32::MIN) <= value && value <= i128::from(i32::MAX)
}

/// Whether 64 bits hold the value.
fn is_tick(value: i128) -> bool
    ensures within { result ≡ is_within (word_values (Signed w64)) value }
{
    i128::from(i64::MIN) <= value && value <= i128::from(i64::MAX)
}

/// Whether the value is a time of the day, in nanoseconds.
fn is_time(value: i128) -> bool
    ensures within { result ≡ is_within day_values value }
{
    0 <= value && value < i128::from(NANOS_PER_DAY)
}

/// Whether the slot may not stand in a column of the type.
fn is_unfit(dtype: &DataType, slot: Option<i128>) -> bool
    requires built_type { is_built_type dtype.now ≡ true }
    ensures unfit { result ≡ is_unfit dtype.now slot }
{
    match (dtype, slot) {
        (_, None) => false,
        (DataType::Date, Some(value)) => !is_day(value),
        (DataType::Time, Some(value)) => !is_time(value),
        (DataType::Datetime(_, _) | DataType::Duration(_) | DataType::Int64, Some(value)) => {
            !is_tick(value)
        }
        _ => unreachable!(),
    }
}

/// The rows that are looked at.
fn front(slots: &[Option<i128>]) -> &[Option<i128>]
    ensures front { result.now ≡ take (2 ^ 32) slots.now }
    ensures few { length result.now ≤ 2 ^ 32 }
{
    if slots.len() <= ROW_LIMIT {
        slots
    } else {
        &slots[..ROW_LIMIT]
    }
}

/// The first row whose slot isn't a value of the type; rows past 2^32 are not looked at.
pub(crate) fn first_unfit(dtype: &DataType, slots: &[Option<i128>]) -> Option<u32>
    requires built_type { is_built_type dtype.now ≡ true }
    ensures row { result ≡ first_unfit dtype.now slots.now }
{
    let front = front(slots);
    for (row, slot) in front.iter().enumerate() {
        if is_unfit(dtype, *slot) {
            return Some(row as u32);
        }
    }
    None
}

/// An integer as a word that has it.
fn word_of<W: Word>(value: i128) -> W
    requires fits { is_within (word_values W.word_type) value ≡ true }
    ensures same { W.reading result ≡ value }
{
    W::wrap_i128(value)
}

/// A slot as a word that has it.
fn slot_word<W: Word>(slot: Option<i128>) -> Option<W>
    requires fits { is_word_slot W.word_type (integer_slot slot) ≡ true }
    ensures same { option_map (λ x. whole (W.reading x)) result ≡ integer_slot slot }
{
    match slot {
        Some(value) => Some(word_of(value)),
        None => None,
    }
}

/// The slots as words, in one chunk.
pub(crate) fn words_of<W: Word>(
    alloc: Global,
    name: PlSmallStr,
    slots: &[Option<i128>],
) -> Result<ChunkedArray<W>, AllocError>
    requires fit { list_all (is_word_slot W.word_type) (map integer_slot slots.now) ≡ true }
    requires short { length slots.now < 2 ^ 32 }
    ensures column { IfOk result (λ array. array ≡ in_one_chunk (record {
      name = name;
      dtype = word_dtype W.word_type;
      slots = map integer_slot slots.now;
      flag = Not;
    })) }
{
    let mut builder = WordChunk::builder(alloc, slots.len())?;
    for slot in slots {
        builder.push(slot_word(*slot))?;
    }
    let chunk = WordChunk::build(alloc, builder)?;
    let mut chunks = Vec::new(alloc);
    chunks.push(chunk)?;
    Ok(ArrayOf::from_chunks(name, chunks, slots.len()))
}
