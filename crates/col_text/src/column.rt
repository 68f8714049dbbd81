// The line of a column.
ghost use Rattle.std.specs.Prelude.{◌≡◌, true, IfOk, Some, length, option_and_then, sum};
ghost use Rattle.std.specs.Int.{w32, w64};
ghost use Rattle.col_model.specs.Arithmetic.{Signed};
ghost use Rattle.col_model.specs.Column.{is_built_type, physical_word};
ghost use Rattle.col_model.specs.Words.{word_dtype};
ghost use Rattle.col_chunk.specs.Chunks.{joined, lengths_of};
ghost use Rattle.col_logical.specs.Logical.{lie_in_the_day, retyped};
ghost use Rattle.col_token.specs.Tokens.{words_in};
ghost use Rattle.col_text.specs.Slots.{
  column_line,
  column_with,
  is_name,
  lengths_in,
  short_column,
  slots_of_line,
};
ghost use Rattle.col_text.specs.Reading.{Reads};

use crate::dtypes::column_dtype;
use crate::line_error::LineError;
use crate::slots::{Days, ReadSlots, Ticks, TimesOfDay, Values, read_slots};
use crate::words::{are_graphic, shared_text};
use col_chunk::{
    ArrayOf, Chunk, ChunkedArray, Int32Chunked, Int64Chunked, ROW_LIMIT, Word, WordChunk,
};
use col_series::Series;
use col_token::first_token;
use col_types::{DataType, ZoneNames};
use std::alloc::{AllocError, Global};

/// A column's name has room for so many bytes.
const MAX_NAME_BYTES: usize = 64;

fn is_name(token: &[u8]) -> bool
    ensures name { result ≡ is_name token.now }
{
    !token.is_empty() && token.len() <= MAX_NAME_BYTES && are_graphic(token)
}

/// The parts of a chunk that have these lengths, in the same memory.
fn cut<W: Word>(
    alloc: Global,
    whole: &WordChunk<W>,
    lengths: &[usize],
) -> Result<Vec<WordChunk<W>>, AllocError>
    requires all { sum lengths.now ≡ length whole.now }
    ensures slots { IfOk result (λ parts. joined (λ chunk. chunk) parts.items ≡ whole.now) }
    ensures lengths { IfOk result (λ parts. lengths_of (λ chunk. chunk) parts.items
        ≡ lengths.now) }
{
    // The loop's invariant counts the rows that are left by it.
    let rows = whole.len();
    let mut parts = Vec::with_capacity(alloc, lengths.len())?;
    let mut start = 0;
    for len in lengths {
        parts.push(whole.share(start, *len)?)?;
        start += *len;
    }
    Ok(parts)
}

/// The column of these slots, unless they are too many.
fn short_column<W: Word>(
    alloc: Global,
    name: &[u8],
    read: &ReadSlots<W>,
) -> Result<ChunkedArray<W>, LineError>
    requires name { is_name name.now ≡ true }
    requires all { sum read.now.lengths.items ≡ length read.now.slots }
    ensures column { Reads result (short_column name.now (word_dtype W.word_type)
        read.now.lengths.items read.now.slots) }
{
    let len = read.slots.len();
    if len >= ROW_LIMIT {
        return Err(LineError::Bad);
    }
    let name = shared_text(alloc, name)?;
    let chunks = cut(alloc, &read.slots, read.lengths.as_slice())?;
    Ok(ArrayOf::from_chunks(name, chunks, len))
}

/// The words of a column's name and slots.
fn words_with<W: Word, V: Values<W>>(
    alloc: Global,
    name: &[u8],
    line: &[u8],
) -> Result<ChunkedArray<W>, LineError>
    requires name { is_name name.now ≡ true }
    ensures column { Reads result (option_and_then (short_column name.now (word_dtype W.word_type)
        (lengths_in (words_in line.now))) (slots_of_line V.range line.now)) }
{
    match read_slots::<W, V>(alloc, line) {
        Ok(read) => short_column(alloc, name, &read),
        Err(error) => Err(error),
    }
}

/// Words of 32 bits as a column of a type that is kept in such words.
fn read_days(alloc: Global, words: Int32Chunked, dtype: DataType) -> Result<Series, LineError>
    requires built { is_built_type dtype ≡ true }
    requires stored { physical_word dtype ≡ Some (Signed w32) }
    ensures column { Reads result (Some (retyped dtype words)) }
{
    match Series::from_int32(alloc, words, dtype) {
        Ok(column) => Ok(column),
        Err(_) => Err(LineError::NoMemory),
    }
}

/// Words of 64 bits as a column of a type that is kept in such words.
fn read_ticks(alloc: Global, words: Int64Chunked, dtype: DataType) -> Result<Series, LineError>
    requires built { is_built_type dtype ≡ true }
    requires stored { physical_word dtype ≡ Some (Signed w64) }
    requires day { lie_in_the_day dtype words.column.slots ≡ true }
    ensures column { Reads result (Some (retyped dtype words)) }
{
    match Series::from_int64(alloc, words, dtype) {
        Ok(column) => Ok(column),
        Err(_) => Err(LineError::NoMemory),
    }
}

/// The column of a name, a type and the slots that are left.
fn column_with(
    alloc: Global,
    name: &[u8],
    line: &[u8],
    dtype: DataType,
) -> Result<Series, LineError>
    requires name { is_name name.now ≡ true }
    requires built { is_built_type dtype ≡ true }
    ensures column { Reads result (column_with name.now (words_in line.now) dtype) }
{
    match &dtype {
        DataType::Date => match words_with::<i32, Days>(alloc, name, line) {
            Ok(words) => read_days(alloc, words, dtype),
            Err(error) => Err(error),
        },
        DataType::Time => match words_with::<i64, TimesOfDay>(alloc, name, line) {
            Ok(words) => read_ticks(alloc, words, dtype),
            Err(error) => Err(error),
        },
        DataType::Datetime(_, _) | DataType::Duration(_) | DataType::Int64 => {
            match words_with::<i64, Ticks>(alloc, name, line) {
                Ok(words) => read_ticks(alloc, words, dtype),
                Err(error) => Err(error),
            }
        }
        _ => unreachable!(),
    }
}

/// The column that stands behind `col`, with the zones handed in before: a name, a type, and slots.
pub(crate) fn column_line(
    alloc: Global,
    zones: &ZoneNames,
    line: &[u8],
) -> Result<Series, LineError>
    ensures column { Reads result (column_line zones.now (words_in line.now)) }
{
    let Some((name, rest)) = first_token(line) else {
        return Err(LineError::Bad);
    };
    let Some((dtype, slots)) = first_token(rest) else {
        return Err(LineError::Bad);
    };
    if !is_name(name) {
        return Err(LineError::Bad);
    }
    match column_dtype(zones, dtype) {
        Some(dtype) => column_with(alloc, name, slots, dtype),
        None => Err(LineError::Bad),
    }
}
