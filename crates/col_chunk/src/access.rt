//! What lies in a column: the buffers of a chunk of words, and the chunks of an array.

ghost use Rattle.std.specs.Prelude.{◌≡◌, ◌+◌, ◌<◌, ◌≤◌, ◌^◌, IfOk, length};
ghost use Rattle.std.specs.Option.{option_map};
ghost use Rattle.col_types.specs.declared.is_sorted.IsSorted.TheVariants.{Not};
ghost use Rattle.col_buffer.specs.Validity.{Reaches, masked};
ghost use Rattle.col_chunk.specs.Chunks.{joined, lengths_of};

use crate::array::whole;
use crate::{ArrayOf, Chunk, WordChunk};
use col_buffer::{bits_of, part};
use col_kernel::Word;
use col_types::{IsSorted, PlSmallStr};
use std::alloc::{AllocError, Global};

impl<T: Word> WordChunk<T> {
    /// The values, any word standing for a null, the words of validity, or none where each slot is
    /// valid, and the place at which their bits begin.
    #[tactic(auto, using(crate::proofs::WordLaws::word_laws))]
    pub fn buffers(&self) -> (&[T], Option<&[u64]>, usize)
        ensures slots { masked T.reading (option_map (λ words. words.now) result.1) result.2
            result.0.now ≡ self.now }
        ensures reach { Reaches (option_map (λ words. words.now) result.1)
            (result.2 + length self.now) }
        ensures len { length result.0.now ≡ length self.now }
        ensures fits { result.2 + length self.now ≤ usize.MAX }
    {
        (
            part(&self.values, self.offset, self.len),
            bits_of(&self.validity),
            self.offset,
        )
    }
}

impl<C: Chunk> ArrayOf<C> {
    /// The chunks, to be read where they lie.
    pub fn chunks(&self) -> &[C]
        ensures slots { joined C.slots result.now ≡ self.now.column.slots }
        ensures lengths { lengths_of C.slots result.now ≡ self.now.chunk_lengths }
    {
        self.chunks.as_slice()
    }

    /// All rows in one chunk, in the same memory where they are in one.
    pub fn to_chunk(&self, alloc: Global) -> Result<C, AllocError>
        ensures slots { IfOk result (λ chunk. C.slots chunk ≡ self.now.column.slots) }
    {
        whole(alloc, self.chunks.as_slice(), self.len)
    }

    /// A column of these chunks, with so many rows and no claim on their order.
    pub fn from_chunks(name: PlSmallStr, chunks: Vec<C>, len: usize) -> Self
        requires len { len ≡ length (joined C.slots chunks.items) }
        requires short { len < 2 ^ 32 }
        ensures column { result ≡ record {
          column = record {
            name = name;
            dtype = C.dtype;
            slots = joined C.slots chunks.items;
            flag = Not;
          };
          chunk_lengths = lengths_of C.slots chunks.items;
        } }
    {
        ArrayOf {
            name,
            chunks,
            len,
            flag: IsSorted::Not,
        }
    }
}
