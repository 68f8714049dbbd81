//! Plain bytes: the leaf of chunks of bytes and of texts.
#![tactic(auto, using(crate::proofs::ByteLaws::byte_laws))]

ghost use Rattle.std.specs.Prelude.{◌≡◌, ◌+◌, ◌<◌, ◌≤◌, ◌∷◌, ◌++◌, [], true, IfOk, OnOk, None, is_some, length, map, take, drop, replicate, slice_index_or};
ghost use Rattle.col_types.specs.declared.data_type.DataType.{UInt8};
ghost use Rattle.col_model.specs.ChunkCalls.{null_count};
ghost use Rattle.col_string.specs.Texts.{byte_slot};

use col_buffer::{append_range, repeated};
use col_chunk::Chunk;
use std::alloc::{AllocError, Global};
use std::marker::Model;
use std::rc::Rc;

/// Shared bytes. Contracts see the list of them. None of them is null: a chunk of nulls can't be
/// made of them, and is refused as want of memory unless it is empty.
#[derive(Drop)]
pub struct PlainBytes {
    values: Rc<Vec<u8>>,
    offset: usize,
    len: usize,
}

impl Model for PlainBytes {
    ghost use Rattle.std.specs.Prelude.{◌+◌, ◌≤◌, ℕ, List, length, take, drop};

    ghost Value = { List ℕ };

    ghost view = { λ c. take c.len (drop c.offset c.values.value.items) };

    ghost invariant = { λ c. c.offset + c.len ≤ length c.values.value.items };
}

impl PlainBytes {
    /// The bytes.
    pub fn bytes(&self) -> &[u8]
        ensures bytes { result.now ≡ self.now }
    {
        &self.values.as_slice()[self.offset..self.offset + self.len]
    }

    /// Shares these bytes.
    pub fn new(alloc: Global, bytes: Vec<u8>) -> Result<Self, AllocError>
        ensures bytes { IfOk result (λ plain. plain ≡ bytes.items) }
    {
        let len = bytes.len();
        let values = Rc::new(alloc, bytes)?;
        Ok(PlainBytes {
            values,
            offset: 0,
            len,
        })
    }
}

impl Chunk for PlainBytes {
    type Builder = Vec<u8>;

    ghost dtype = { UInt8 };

    ghost slots = { λ c. map byte_slot c };

    ghost written = { λ b. map byte_slot b.items };

    ghost is_slot = { λ slot. true };

    fn known(&self) {
        let _ = &self.len;
    }

    fn len(&self) -> usize {
        self.len
    }

    fn is_valid(&self, index: usize) -> bool {
        let _ = index;
        true
    }

    fn null_count(&self) -> usize {
        0
    }

    fn share(&self, offset: usize, len: usize) -> Result<Self, AllocError> {
        let values = self.values.clone()?;
        Ok(PlainBytes {
            values,
            offset: self.offset + offset,
            len,
        })
    }

    fn shrunk(&self, alloc: Global) -> Result<Self, AllocError> {
        if self.len == self.values.capacity() {
            return self.share(0, self.len());
        }
        let own = Vec::from_slice(alloc, self.bytes())?;
        PlainBytes::new(alloc, own)
    }

    fn nulls(alloc: Global, len: usize) -> Result<Self, AllocError> {
        if len > 0 {
            return Err(AllocError);
        }
        let plain = PlainBytes::new(alloc, Vec::new(alloc))?;
        Ok(plain)
    }

    fn repeat(&self, alloc: Global, index: usize, len: usize) -> Result<Self, AllocError> {
        let many = many(alloc, self.bytes(), index, len)?;
        let plain = PlainBytes::new(alloc, many)?;
        Ok(plain)
    }

    fn builder(alloc: Global, room: usize) -> Result<Vec<u8>, AllocError> {
        let bytes = Vec::with_capacity(alloc, room)?;
        Ok(bytes)
    }

    fn copy_onto(
        &self,
        offset: usize,
        len: usize,
        builder: &mut Vec<u8>,
    ) -> Result<(), AllocError> {
        append_range(builder, self.bytes(), offset, len)?;
        Ok(())
    }

    fn push_onto(&self, index: usize, builder: &mut Vec<u8>) -> Result<(), AllocError> {
        builder.push(self.bytes()[index])?;
        Ok(())
    }

    fn build(alloc: Global, builder: Vec<u8>) -> Result<Self, AllocError> {
        let plain = PlainBytes::new(alloc, builder)?;
        Ok(plain)
    }
}

/// One byte so many times.
fn many(alloc: Global, bytes: &[u8], index: usize, len: usize) -> Result<Vec<u8>, AllocError>
    requires inside { index < length bytes.now }
    ensures bytes { IfOk result (λ many. map byte_slot many.items
        ≡ replicate len (slice_index_or (map byte_slot bytes.now) index None)) }
{
    let byte = bytes[index];
    let answer = repeated(alloc, byte, len)?;
    Ok(answer)
}
