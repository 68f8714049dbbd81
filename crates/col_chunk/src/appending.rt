//! Rows put behind others.

ghost use Rattle.std.specs.Prelude.{◌≡◌, ◌++◌, IfOk, OnErr, OnOk, length};
ghost use Rattle.col_types.specs.PolarsError.{Becomes};
ghost use Rattle.col_model.specs.ChunkCalls.{TakesOver, appended, extended, flag_behind, longer_last};
ghost use Rattle.col_chunk.specs.Chunks.{joined, lengths_of};

use crate::array::{ROW_LIMIT, shared, whole};
use crate::{ArrayOf, Chunk};
use col_types::{IsSorted, PolarsError, PolarsResult};
use std::alloc::{AllocError, Global};

impl<C: Chunk> ArrayOf<C> {
    /// Puts the rows of another column behind these, in its chunks. Refused at 2^32 rows or more
    /// (`TooLong`).
    pub fn append(&mut self, other: &Self) -> PolarsResult<()>
        ensures column { Becomes result self.old self.new (appended self.old other.now) }
    {
        let len = self.len + other.len;
        if len >= ROW_LIMIT {
            return Err(PolarsError::TooLong { len: len as u64 });
        }
        let mut added = shared(*self.chunks.allocator(), other.chunks.as_slice())?;
        self.chunks.append(&mut added)?;
        self.len = len;
        self.flag = flag_behind(other.len, self.flag);
        Ok(())
    }

    /// Writes the rows of another column behind these, into the last chunk. Refused at 2^32 rows or
    /// more (`TooLong`).
    pub fn extend(&mut self, other: &Self) -> PolarsResult<()>
        ensures column { Becomes result self.old self.new (extended self.old other.now) }
    {
        let len = self.len + other.len;
        if len >= ROW_LIMIT {
            return Err(PolarsError::TooLong { len: len as u64 });
        }
        extend_last(&mut self.chunks, other.chunks.as_slice(), other.len)?;
        self.len = len;
        self.flag = flag_behind(other.len, self.flag);
        Ok(())
    }

    /// Takes the rows of another column over, in its chunks. Where it is refused, the other column is
    /// handed back.
    pub fn append_owned(&mut self, other: Self) -> Result<(), (Self, PolarsError)>
        ensures column { TakesOver result self.old self.new other (appended self.old other) }
    {
        match self.append(&other) {
            Ok(()) => Ok(()),
            Err(refusal) => Err((other, refusal)),
        }
    }
}

/// The claim on order that is left behind so many more rows.
fn flag_behind(rows: usize, flag: IsSorted) -> IsSorted
    ensures flag { result ≡ flag_behind rows flag }
{
    if rows == 0 { flag } else { IsSorted::Not }
}

/// Makes the last chunk one that has the slots of others behind its own.
fn extend_last<C: Chunk>(chunks: &mut Vec<C>, others: &[C], added: usize) -> Result<(), AllocError>
    requires added { added ≡ length (joined C.slots others.now) }
    ensures slots { OnOk result (joined C.slots chunks.new.items
        ≡ joined C.slots chunks.old.items ++ joined C.slots others.now) }
    ensures lengths { OnOk result (lengths_of C.slots chunks.new.items
        ≡ longer_last added (lengths_of C.slots chunks.old.items)) }
    ensures old_slots { OnErr result (joined C.slots chunks.new.items
        ≡ joined C.slots chunks.old.items) }
    ensures old_lengths { OnErr result (lengths_of C.slots chunks.new.items
        ≡ lengths_of C.slots chunks.old.items) }
{
    let alloc = *chunks.allocator();
    let count = chunks.len();
    if count == 0 {
        let chunk = whole(alloc, others, added)?;
        chunks.push(chunk)?;
        return Ok(());
    }
    let longer = with_others(alloc, &chunks[count - 1], others, added)?;
    chunks[count - 1] = longer;
    Ok(())
}

/// The slots of a chunk and those of others behind them.
fn with_others<C: Chunk>(
    alloc: Global,
    first: &C,
    others: &[C],
    added: usize,
) -> Result<C, AllocError>
    ensures slots { IfOk result (λ chunk. C.slots chunk ≡ C.slots first.now
        ++ joined C.slots others.now) }
{
    let mut builder = C::builder(alloc, first.len().saturating_add(added))?;
    first.copy_onto(0, first.len(), &mut builder)?;
    for chunk in others {
        chunk.copy_onto(0, chunk.len(), &mut builder)?;
    }
    C::build(alloc, builder)
}
