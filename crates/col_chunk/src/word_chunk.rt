//! A chunk of plain words and words of validity, both shared.
#![tactic(auto, using(crate::proofs::WordLaws::word_laws))]

ghost use Rattle.std.specs.Prelude.{◌≡◌, ◌+◌, ◌<◌, ◌≤◌, ◌∷◌, ◌++◌, [], true, IfOk, OnOk, OnErr, Some, None, length, take, drop, slice_set};
ghost use Rattle.std.specs.Option.{option_map};
ghost use Rattle.col_model.specs.Value.{whole};
ghost use Rattle.col_model.specs.Words.{is_word_slot, word_dtype};
ghost use Rattle.col_buffer.specs.Validity.{Reaches, SetsValid, masked, slot_if};

use crate::{Chunk, SetChunk, View};
use col_buffer::{
    add_range, add_valid, append_range, bits_of, is_valid, null_places, part, repeated, set_valid,
    share, share_new,
};
use col_kernel::Word;
use std::alloc::{AllocError, Global};
use std::marker::Model;
use std::rc::Rc;

/// A run of optional words. Contracts see the list of its slots.
#[derive(Drop)]
pub struct WordChunk<T: Word> {
    pub(crate) values: Rc<Vec<T>>,
    pub(crate) validity: Option<Rc<Vec<u64>>>,
    pub(crate) offset: usize,
    pub(crate) len: usize,
}

impl<T: Word> Model for WordChunk<T> {
    ghost use Rattle.std.specs.Prelude.{◌+◌, ◌≤◌, List, Option, length, take, drop};
    ghost use Rattle.std.specs.Option.{option_map};
    ghost use Rattle.col_model.specs.Value.{Value as SlotValue};
    ghost use Rattle.col_buffer.specs.Validity.{Reaches, masked};

    ghost Value = { List (Option SlotValue) };

    ghost view = { λ c. masked T.reading (option_map
        (λ words. words.value.items) c.validity) c.offset (take c.len
        (drop c.offset c.values.value.items)) };

    ghost invariant = { λ c. (c.offset + c.len ≤ length c.values.value.items) × Reaches
        (option_map (λ words. words.value.items) c.validity) (c.offset + c.len) };
}

/// Optional words that are being written.
#[derive(Drop)]
pub struct WordBuilder<T: Word> {
    pub(crate) values: Vec<T>,
    pub(crate) validity: Option<Vec<u64>>,
}

impl<T: Word> Model for WordBuilder<T> {
    ghost use Rattle.std.specs.Prelude.{List, Option, length};
    ghost use Rattle.std.specs.Option.{option_map};
    ghost use Rattle.col_model.specs.Value.{Value as SlotValue};
    ghost use Rattle.col_buffer.specs.Validity.{Reaches, masked};

    ghost Value = { List (Option SlotValue) };

    ghost view = { λ b. masked T.reading (option_map
        (λ words. words.items) b.validity) 0 b.values.items };

    ghost invariant = { λ b. Reaches (option_map (λ words. words.items) b.validity)
        (length b.values.items) };
}

impl<T: Word> WordBuilder<T> {
    /// Writes one slot behind those that were written.
    pub fn push(&mut self, slot: Option<T>) -> Result<(), AllocError>
        ensures slots { OnOk result (self.new
            ≡ self.old ++ option_map (λ x. whole (T.reading x)) slot ∷ []) }
    {
        let values = &mut self.values;
        let validity = &mut self.validity;
        match slot {
            Some(word) => push_slot(values, validity, word, true),
            None => push_slot(values, validity, T::wrap_i128(0), false),
        }
    }
}

impl<T: Word> Chunk for WordChunk<T> {
    type Builder = WordBuilder<T>;

    ghost dtype = { word_dtype T.word_type };

    ghost slots = { λ c. c };

    ghost written = { λ b. b };

    ghost is_slot = { is_word_slot T.word_type };

    fn known(&self) {
        let _ = &self.len;
    }

    fn len(&self) -> usize {
        self.len
    }

    fn is_valid(&self, index: usize) -> bool {
        is_valid(&self.validity, self.offset + index)
    }

    fn null_count(&self) -> usize {
        null_places(bits_of(&self.validity), self.offset, self.len)
    }

    fn share(&self, offset: usize, len: usize) -> Result<Self, AllocError> {
        let values = self.values.clone()?;
        let validity = share(&self.validity)?;
        Ok(WordChunk {
            values,
            validity,
            offset: self.offset + offset,
            len,
        })
    }

    fn shrunk(&self, alloc: Global) -> Result<Self, AllocError> {
        if self.len == self.values.capacity() {
            return self.share(0, self.len());
        }
        self.copied(alloc)
    }

    fn nulls(alloc: Global, len: usize) -> Result<Self, AllocError> {
        let values = repeated(alloc, T::wrap_i128(0), len)?;
        let words = repeated(alloc, 0u64, len / 64 + 1)?;
        let chunk = from_buffers(alloc, values, Some(words))?;
        Ok(chunk)
    }

    fn repeat(&self, alloc: Global, index: usize, len: usize) -> Result<Self, AllocError> {
        match self.get(index) {
            None => Self::nulls(alloc, len),
            Some(value) => {
                let values = repeated(alloc, value, len)?;
                let chunk = from_buffers(alloc, values, None)?;
                Ok(chunk)
            }
        }
    }

    fn builder(alloc: Global, room: usize) -> Result<WordBuilder<T>, AllocError> {
        Ok(WordBuilder {
            values: Vec::with_capacity(alloc, room)?,
            validity: None,
        })
    }

    fn copy_onto(
        &self,
        offset: usize,
        len: usize,
        builder: &mut WordBuilder<T>,
    ) -> Result<(), AllocError> {
        let start = self.offset + offset;
        copy_part(
            &mut builder.values,
            &mut builder.validity,
            self.values.as_slice(),
            bits_of(&self.validity),
            start,
            len,
        )
    }

    fn push_onto(&self, index: usize, builder: &mut WordBuilder<T>) -> Result<(), AllocError> {
        let place = self.offset + index;
        let valid = is_valid(&self.validity, place);
        push_slot(
            &mut builder.values,
            &mut builder.validity,
            self.values[place],
            valid,
        )
    }

    fn build(alloc: Global, builder: WordBuilder<T>) -> Result<Self, AllocError> {
        let WordBuilder { values, validity } = builder;
        from_buffers(alloc, values, validity)
    }
}

impl<'a, T: Word> View<'a> for WordChunk<T> {
    type Slot = Option<T>;

    ghost slot_of = { λ slot. option_map (λ x. whole (T.reading x)) slot };

    fn get(&'a self, index: usize) -> Option<T> {
        let place = self.offset + index;
        let valid = is_valid(&self.validity, place);
        let value = self.values[place];
        if valid { Some(value) } else { None }
    }
}

impl<T: Word> SetChunk for WordChunk<T> {
    type Slot = Option<T>;

    ghost slot_of = { λ slot. option_map (λ x. whole (T.reading x)) slot };

    fn set(&mut self, alloc: Global, index: usize, slot: Option<T>) -> Result<(), AllocError> {
        if self.is_small_part() {
            let mut own = self.copied(alloc)?;
            own.set_slot(alloc, index, slot)?;
            *self = own;
            return Ok(());
        }
        self.set_slot(alloc, index, slot)
    }
}

impl<T: Word> WordChunk<T> {
    /// Whether somebody else has the values, and there are more of them than the slots: a copy of the
    /// part then takes less memory than one of all of them.
    fn is_small_part(&self) -> bool {
        Rc::strong_count(&self.values) > 1 && self.len < self.values.len()
    }

    /// The same slots in buffers of their own.
    fn copied(&self, alloc: Global) -> Result<Self, AllocError>
        ensures slots { IfOk result (λ chunk. chunk ≡ self.now) }
    {
        let mut builder = Self::builder(alloc, self.len)?;
        self.copy_onto(0, self.len(), &mut builder)?;
        Self::build(alloc, builder)
    }

    /// Writes a slot, in place where nobody else has the buffers.
    fn set_slot(&mut self, alloc: Global, index: usize, slot: Option<T>) -> Result<(), AllocError>
        requires inside { index < length self.old }
        ensures ok { OnOk result (self.new
            ≡ slice_set self.old index (option_map (λ x. whole (T.reading x)) slot)) }
        ensures err { OnErr result (self.new ≡ self.old) }
    {
        let place = self.offset + index;
        let count = self.offset + self.len;
        match slot {
            None => set_valid(alloc, &mut self.validity, count, place, false),
            Some(value) => write_slot(
                alloc,
                &mut self.values,
                &mut self.validity,
                count,
                place,
                value,
            ),
        }
    }
}

/// Writes a value and that it is valid, and neither where memory is wanting.
fn write_slot<T: Word>(
    alloc: Global,
    values: &mut Rc<Vec<T>>,
    validity: &mut Option<Rc<Vec<u64>>>,
    count: usize,
    place: usize,
    value: T,
) -> Result<(), AllocError>
    requires inside { place < length values.old.value.items }
    requires counts { place < count }
    requires reach { Reaches (option_map (λ words. words.value.items) validity.old) count }
    ensures values { OnOk result (values.new.value.items
        ≡ slice_set values.old.value.items place value) }
    ensures valid { OnOk result (SetsValid (option_map
        (λ words. words.value.items) validity.old) (option_map
        (λ words. words.value.items) validity.new) count place true) }
    ensures old_values { OnErr result (values.new.value.items ≡ values.old.value.items) }
    ensures old_valid { OnErr result (option_map (λ words. words.value.items) validity.new
        ≡ option_map (λ words. words.value.items) validity.old) }
{
    if let Some(own) = Rc::get_mut(values) {
        set_valid(alloc, validity, count, place, true)?;
        own[place] = value;
        return Ok(());
    }
    let mut copy = Vec::from_slice(alloc, values.as_slice())?;
    copy[place] = value;
    let copy = Rc::new(alloc, copy)?;
    set_valid(alloc, validity, count, place, true)?;
    *values = copy;
    Ok(())
}

/// A chunk of these values and words of validity, or none where each slot is valid.
pub fn from_buffers<T: Word>(
    alloc: Global,
    values: Vec<T>,
    validity: Option<Vec<u64>>,
) -> Result<WordChunk<T>, AllocError>
    requires reach { Reaches (option_map (λ words. words.items) validity) (length values.items) }
    ensures slots { IfOk result (λ chunk. chunk
        ≡ masked T.reading (option_map (λ words. words.items) validity) 0 values.items) }
{
    let len = values.len();
    let values = Rc::new(alloc, values)?;
    let validity = share_new(alloc, validity)?;
    Ok(WordChunk {
        values,
        validity,
        offset: 0,
        len,
    })
}

/// Writes one slot behind those that were written.
pub(crate) fn push_slot<T: Word>(
    values: &mut Vec<T>,
    validity: &mut Option<Vec<u64>>,
    value: T,
    valid: bool,
) -> Result<(), AllocError>
    requires reach { Reaches (option_map (λ words. words.items) validity.old)
        (length values.old.items) }
    ensures slots { OnOk result (masked T.reading (option_map
        (λ words. words.items) validity.new) 0 values.new.items
        ≡ masked T.reading (option_map
        (λ words. words.items) validity.old) 0 values.old.items
        ++ slot_if T.reading valid value ∷ []) }
    ensures reach { Reaches (option_map (λ words. words.items) validity.new)
        (length values.new.items) }
{
    let place = values.len();
    add_valid(*values.allocator(), validity, place, valid)?;
    values.push(value)?;
    Ok(())
}

/// Writes slots of a part behind those that were written.
fn copy_part<T: Word>(
    values: &mut Vec<T>,
    validity: &mut Option<Vec<u64>>,
    from: &[T],
    bits: Option<&[u64]>,
    start: usize,
    len: usize,
) -> Result<(), AllocError>
    requires reach { Reaches (option_map (λ words. words.items) validity.old)
        (length values.old.items) }
    requires inside { start + len ≤ length from.now }
    requires bits { Reaches (option_map (λ words. words.now) bits) (start + len) }
    ensures slots { OnOk result (masked T.reading (option_map
        (λ words. words.items) validity.new) 0 values.new.items
        ≡ masked T.reading (option_map (λ words. words.items) validity.old) 0 values.old.items
        ++ masked T.reading (option_map (λ words. words.now) bits.entry) start (take len
        (drop start from.now))) }
    ensures reach { Reaches (option_map (λ words. words.items) validity.new)
        (length values.new.items) }
{
    let place = values.len();
    if place.checked_add(len).is_none() {
        return Err(AllocError);
    }
    add_range(*values.allocator(), validity, place, bits, start, len)?;
    append_range(values, from, start, len)
}
