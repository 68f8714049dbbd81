//! Columns of one chunk.

ghost use Rattle.std.specs.Prelude.{◌≡◌, ◌<◌, ◌^◌, IfOk, length};
ghost use Rattle.col_types.specs.declared.is_sorted.IsSorted.TheVariants.{Not};
ghost use Rattle.col_model.specs.Chunked.{column_of};

use col_chunk::{ArrayOf, Chunk};
use col_types::PlSmallStr;
use std::alloc::{AllocError, Global};

/// A column of one chunk, with no claim on the order of its slots.
pub(crate) fn of_one<C: Chunk>(
    alloc: Global,
    name: PlSmallStr,
    chunk: C,
) -> Result<ArrayOf<C>, AllocError>
    requires short { length (C.slots chunk) < 2 ^ 32 }
    ensures column { IfOk result (λ answer. column_of answer ≡ record {
      name = name;
      dtype = C.dtype;
      slots = C.slots chunk;
      flag = Not;
    }) }
{
    let len = chunk.len();
    let mut chunks = Vec::new(alloc);
    chunks.push(chunk)?;
    Ok(ArrayOf::from_chunks(name, chunks, len))
}
