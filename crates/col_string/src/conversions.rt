//! Texts as bytes and bytes as texts, in the same memory.

ghost use Rattle.std.specs.Prelude.{◌≡◌, true, IfOk, List, Ok, Option};
ghost use Rattle.std.specs.List.{list_all};
ghost use Rattle.col_types.specs.PolarsError.{Gives};
ghost use Rattle.col_types.specs.declared.data_type.DataType.{Binary, String as StringType};
ghost use Rattle.col_model.specs.Chunked.{Chunked};
ghost use Rattle.col_model.specs.Value.{Value};
ghost use Rattle.col_chunk.specs.Chunks.{joined, lengths_of};
ghost use Rattle.col_string.specs.Runs.{passes};
ghost use Rattle.col_string.specs.Texts.{is_text_value, retyped};

use crate::{BinaryChunked, PlainBytes, Reading, RunChunk, StringChunked};
use col_chunk::ArrayOf;
use col_types::PolarsResult;
use std::alloc::{AllocError, Global};

/// What texts are converted to.
pub trait StringConversion {
    /// The column.
    ghost column: { Self → Chunked };

    /// The bytes of each text, in the same memory.
    fn as_binary(&self, alloc: Global) -> PolarsResult<BinaryChunked>
        ensures column { Gives result (Ok (retyped Binary (column self.now))) };
}

/// What bytes are converted to.
pub trait BinaryConversion {
    /// The column.
    ghost column: { Self → Chunked };

    /// The same bytes as texts, in the same memory. Each valid slot has to be in UTF-8.
    fn to_string_unchecked(&self, alloc: Global) -> PolarsResult<StringChunked>
        requires utf8 { list_all (passes is_text_value) (column self.now).column.slots ≡ true }
        ensures column { Gives result (Ok (retyped StringType (column self.now))) };
}

impl StringConversion for StringChunked {
    ghost column = { λ array. array };

    fn as_binary(&self, alloc: Global) -> PolarsResult<BinaryChunked> {
        self.known();
        read_as(alloc, self)
    }
}

impl BinaryConversion for BinaryChunked {
    ghost column = { λ array. array };

    fn to_string_unchecked(&self, alloc: Global) -> PolarsResult<StringChunked> {
        read_as(alloc, self)
    }
}

/// The slots of a column as another reading gives them, in the same memory.
fn read_as<R: Reading, Q: Reading>(
    alloc: Global,
    column: &ArrayOf<RunChunk<PlainBytes, R>>,
) -> PolarsResult<ArrayOf<RunChunk<PlainBytes, Q>>>
    requires reading { (run : List (Option Value)) → Q.reading run ≡ R.reading run }
    requires fits { list_all (passes Q.is_value) column.now.column.slots ≡ true }
    ensures column { Gives result (Ok (retyped Q.dtype column.now)) }
{
    let name = column.name().clone()?;
    let chunks = chunks_as(alloc, column.chunks())?;
    Ok(ArrayOf::from_chunks(name, chunks, column.len()))
}

/// The slots of chunks as another reading gives them, in the same memory.
fn chunks_as<R: Reading, Q: Reading>(
    alloc: Global,
    chunks: &[RunChunk<PlainBytes, R>],
) -> Result<Vec<RunChunk<PlainBytes, Q>>, AllocError>
    requires reading { (run : List (Option Value)) → Q.reading run ≡ R.reading run }
    requires fits { list_all (passes Q.is_value) (joined (λ chunk. chunk) chunks.now) ≡ true }
    ensures slots { IfOk result (λ copies. joined (λ chunk. chunk) copies.items
        ≡ joined (λ chunk. chunk) chunks.now) }
    ensures lengths { IfOk result (λ copies. lengths_of (λ chunk. chunk) copies.items
        ≡ lengths_of (λ chunk. chunk) chunks.now) }
{
    let mut copies = Vec::with_capacity(alloc, chunks.len())?;
    for chunk in chunks {
        copies.push(chunk.read_as()?)?;
    }
    Ok(copies)
}
