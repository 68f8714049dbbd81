//! A chunk of truth values: bits of the values and bits of validity, both shared.
#![tactic(auto, using(crate::proofs::BitLaws::bit_laws))]

ghost use Rattle.std.specs.Prelude.{◌≡◌, ◌+◌, ◌<◌, ◌≤◌, ◌∷◌, ◌++◌, ◌^◌, [], ℕ, IfOk, OnOk, OnErr, length, replicate, slice_set, true};
ghost use Rattle.std.specs.Option.{option_map};
ghost use Rattle.col_types.specs.declared.data_type.DataType.{Boolean};
ghost use Rattle.col_model.specs.Value.{whole};
ghost use Rattle.col_model.specs.Column.{is_slot_of};
ghost use Rattle.col_buffer.specs.Validity.{Reaches, SetsValid, slot_if, valid_at};
ghost use Rattle.col_boolean.specs.Bits.{bit_slots, truth};

use col_buffer::{
    add_range, add_valid, bits_of, both, is_valid, null_places, repeated, set_valid, share,
    share_new,
};
use col_chunk::{Chunk, SetChunk, View};
use std::alloc::{AllocError, Global};
use std::marker::Model;
use std::rc::Rc;

/// No bit stands at this place or behind it, so that places can be counted.
const PLACE_LIMIT: usize = 1 << 62;

/// A run of optional truth values. Without words of values each is true, and without words of
/// validity each is valid. Contracts see the list of its slots.
#[derive(Drop)]
pub struct BitChunk {
    values: Option<Rc<Vec<u64>>>,
    validity: Option<Rc<Vec<u64>>>,
    offset: usize,
    len: usize,
}

impl Model for BitChunk {
    ghost use Rattle.std.specs.Prelude.{◌+◌, ◌≤◌, ◌^◌, List, Option};
    ghost use Rattle.std.specs.Option.{option_map};
    ghost use Rattle.col_model.specs.Value.{Value as SlotValue};
    ghost use Rattle.col_buffer.specs.Validity.{Reaches};
    ghost use Rattle.col_boolean.specs.Bits.{bit_slots};

    ghost Value = { List (Option SlotValue) };

    ghost view = { λ c. bit_slots (option_map (λ words. words.value.items) c.values)
        (option_map (λ words. words.value.items) c.validity) c.offset c.len };

    ghost invariant = { λ c. (c.offset + c.len ≤ 2 ^ 62) × Reaches
        (option_map (λ words. words.value.items) c.values) (c.offset + c.len) × Reaches
        (option_map (λ words. words.value.items) c.validity) (c.offset + c.len) };
}

/// Optional truth values that are being written.
#[derive(Drop)]
pub struct BitBuilder {
    alloc: Global,
    values: Option<Vec<u64>>,
    validity: Option<Vec<u64>>,
    len: usize,
}

impl Model for BitBuilder {
    ghost use Rattle.std.specs.Prelude.{◌≤◌, ◌^◌, List, Option};
    ghost use Rattle.std.specs.Option.{option_map};
    ghost use Rattle.col_model.specs.Value.{Value as SlotValue};
    ghost use Rattle.col_buffer.specs.Validity.{Reaches};
    ghost use Rattle.col_boolean.specs.Bits.{bit_slots};

    ghost Value = { List (Option SlotValue) };

    ghost view = { λ b. bit_slots (option_map (λ words. words.items) b.values)
        (option_map (λ words. words.items) b.validity) 0 b.len };

    ghost invariant = { λ b. (b.len ≤ 2 ^ 62) × Reaches
        (option_map (λ words. words.items) b.values) b.len × Reaches
        (option_map (λ words. words.items) b.validity) b.len };
}

impl BitBuilder {
    /// Writes one slot behind those that were written.
    pub fn push(&mut self, slot: Option<bool>) -> Result<(), AllocError>
        ensures slots { OnOk result (self.new
            ≡ self.old ++ option_map (λ value. whole (truth value)) slot ∷ []) }
    {
        match slot {
            Some(value) => self.push_slot(value, true),
            None => self.push_slot(true, false),
        }
    }

    /// Writes a value and whether it is valid behind those that were written.
    fn push_slot(&mut self, value: bool, valid: bool) -> Result<(), AllocError>
        ensures slots { OnOk result (self.new ≡ self.old ++ slot_if truth valid value ∷ []) }
    {
        let place = self.len;
        if place >= PLACE_LIMIT {
            return Err(AllocError);
        }
        add_valid(self.alloc, &mut self.values, place, value)?;
        add_valid(self.alloc, &mut self.validity, place, valid)?;
        self.len = place + 1;
        Ok(())
    }

    /// Writes so many slots of others, from a place on, behind those that were written.
    fn push_range(
        &mut self,
        values: Option<&[u64]>,
        validity: Option<&[u64]>,
        start: usize,
        len: usize,
    ) -> Result<(), AllocError>
        requires fits { start + len ≤ 2 ^ 62 }
        requires values { Reaches (option_map (λ words. words.now) values) (start + len) }
        requires validity { Reaches (option_map (λ words. words.now) validity) (start + len) }
        ensures slots { OnOk result (self.new ≡ self.old ++ bit_slots
            (option_map (λ words. words.now) values.entry)
            (option_map (λ words. words.now) validity.entry) start len) }
    {
        let place = self.len;
        if len > PLACE_LIMIT - place {
            return Err(AllocError);
        }
        add_range(self.alloc, &mut self.values, place, values, start, len)?;
        add_range(self.alloc, &mut self.validity, place, validity, start, len)?;
        self.len = place + len;
        Ok(())
    }
}

impl Chunk for BitChunk {
    type Builder = BitBuilder;

    ghost dtype = { Boolean };

    ghost slots = { λ c. c };

    ghost written = { λ b. b };

    ghost is_slot = { is_slot_of Boolean };

    fn known(&self) {
        let _ = &self.len;
    }

    fn len(&self) -> usize {
        self.len
    }

    fn is_valid(&self, index: usize) -> bool {
        is_valid(&self.validity, self.offset + index)
    }

    fn null_count(&self) -> usize {
        null_places(bits_of(&self.validity), self.offset, self.len)
    }

    fn share(&self, offset: usize, len: usize) -> Result<Self, AllocError> {
        let values = share(&self.values)?;
        let validity = share(&self.validity)?;
        Ok(BitChunk {
            values,
            validity,
            offset: self.offset + offset,
            len,
        })
    }

    fn shrunk(&self, alloc: Global) -> Result<Self, AllocError> {
        if has_no_room(&self.values, self.len) && has_no_room(&self.validity, self.len) {
            return self.share(0, self.len());
        }
        self.copied(alloc)
    }

    fn nulls(alloc: Global, len: usize) -> Result<Self, AllocError> {
        equal_slots(alloc, None, len)
    }

    fn repeat(&self, alloc: Global, index: usize, len: usize) -> Result<Self, AllocError> {
        equal_slots(alloc, self.get(index), len)
    }

    fn builder(alloc: Global, room: usize) -> Result<BitBuilder, AllocError> {
        let _ = room;
        Ok(BitBuilder {
            alloc,
            values: None,
            validity: None,
            len: 0,
        })
    }

    fn copy_onto(
        &self,
        offset: usize,
        len: usize,
        builder: &mut BitBuilder,
    ) -> Result<(), AllocError> {
        let start = self.offset + offset;
        builder.push_range(bits_of(&self.values), bits_of(&self.validity), start, len)
    }

    fn push_onto(&self, index: usize, builder: &mut BitBuilder) -> Result<(), AllocError> {
        let slot = self.get(index);
        builder.push(slot)
    }

    fn build(alloc: Global, builder: BitBuilder) -> Result<Self, AllocError> {
        let BitBuilder {
            values,
            validity,
            len,
            ..
        } = builder;
        from_bits(alloc, values, validity, len)
    }
}

impl<'a> View<'a> for BitChunk {
    type Slot = Option<bool>;

    ghost slot_of = { λ slot. option_map (λ value. whole (truth value)) slot };

    fn get(&'a self, index: usize) -> Option<bool> {
        let place = self.offset + index;
        let value = is_valid(&self.values, place);
        let valid = is_valid(&self.validity, place);
        if valid { Some(value) } else { None }
    }
}

impl SetChunk for BitChunk {
    type Slot = Option<bool>;

    ghost slot_of = { λ slot. option_map (λ value. whole (truth value)) slot };

    fn set(&mut self, alloc: Global, index: usize, slot: Option<bool>) -> Result<(), AllocError> {
        if is_small_part(&self.values, self.len) || is_small_part(&self.validity, self.len) {
            let mut own = self.copied(alloc)?;
            own.set_slot(alloc, index, slot)?;
            *self = own;
            return Ok(());
        }
        self.set_slot(alloc, index, slot)
    }
}

impl BitChunk {
    /// The same slots in buffers of their own.
    fn copied(&self, alloc: Global) -> Result<Self, AllocError>
        ensures slots { IfOk result (λ chunk. chunk ≡ self.now) }
    {
        let values = own_bits(alloc, bits_of(&self.values), self.offset, self.len)?;
        let validity = own_bits(alloc, bits_of(&self.validity), self.offset, self.len)?;
        from_bits(alloc, values, validity, self.len)
    }

    /// Writes a slot, in place where nobody else has the words.
    fn set_slot(
        &mut self,
        alloc: Global,
        index: usize,
        slot: Option<bool>,
    ) -> Result<(), AllocError>
        requires inside { index < length self.old }
        ensures ok { OnOk result (self.new
            ≡ slice_set self.old index (option_map (λ value. whole (truth value)) slot)) }
        ensures err { OnErr result (self.new ≡ self.old) }
    {
        let place = self.offset + index;
        let count = self.offset + self.len;
        match slot {
            None => set_valid(alloc, &mut self.validity, count, place, false),
            Some(value) => write_slot(
                alloc,
                &mut self.values,
                &mut self.validity,
                count,
                place,
                value,
            ),
        }
    }
}

/// Writes a value and that it is valid. Where memory is wanting no slot changes: what is written
/// below a null isn't seen.
fn write_slot(
    alloc: Global,
    values: &mut Option<Rc<Vec<u64>>>,
    validity: &mut Option<Rc<Vec<u64>>>,
    count: usize,
    place: usize,
    value: bool,
) -> Result<(), AllocError>
    requires inside { place < count }
    requires values { Reaches (option_map (λ words. words.value.items) values.old) count }
    requires validity { Reaches (option_map (λ words. words.value.items) validity.old) count }
    ensures value { OnOk result (SetsValid (option_map (λ words. words.value.items) values.old)
        (option_map (λ words. words.value.items) values.new) count place value) }
    ensures valid { OnOk result (SetsValid (option_map (λ words. words.value.items) validity.old)
        (option_map (λ words. words.value.items) validity.new) count place true) }
    ensures unchanged { OnErr result ((start : ℕ) → (len : ℕ) → start + len ≤ count → bit_slots
        (option_map (λ words. words.value.items) values.new)
        (option_map (λ words. words.value.items) validity.new) start len ≡ bit_slots
        (option_map (λ words. words.value.items) values.old)
        (option_map (λ words. words.value.items) validity.old) start len) }
    ensures values_reach { Reaches (option_map (λ words. words.value.items) values.new) count }
    ensures validity_reach { Reaches (option_map (λ words. words.value.items) validity.new) count }
{
    if is_valid(validity, place) {
        return set_valid(alloc, values, count, place, value);
    }
    set_valid(alloc, values, count, place, value)?;
    set_valid(alloc, validity, count, place, true)
}

/// A chunk of these words of values and of validity, or none where each bit is set.
fn from_bits(
    alloc: Global,
    values: Option<Vec<u64>>,
    validity: Option<Vec<u64>>,
    len: usize,
) -> Result<BitChunk, AllocError>
    requires short { len ≤ 2 ^ 62 }
    requires values { Reaches (option_map (λ words. words.items) values) len }
    requires validity { Reaches (option_map (λ words. words.items) validity) len }
    ensures slots { IfOk result (λ chunk. chunk
        ≡ bit_slots (option_map (λ words. words.items) values)
        (option_map (λ words. words.items) validity) 0 len) }
{
    let values = share_new(alloc, values)?;
    let validity = share_new(alloc, validity)?;
    Ok(BitChunk {
        values,
        validity,
        offset: 0,
        len,
    })
}

/// So many bits from a place on, in words of their own.
fn own_bits(
    alloc: Global,
    bits: Option<&[u64]>,
    offset: usize,
    len: usize,
) -> Result<Option<Vec<u64>>, AllocError>
    requires reach { Reaches (option_map (λ words. words.now) bits) (offset + len) }
    requires fits { offset + len ≤ usize.MAX }
    ensures reach { IfOk result (λ own. Reaches (option_map (λ words. words.items) own) len) }
    ensures same { IfOk result (λ own. (k : ℕ) → k < len
        → valid_at (option_map (λ words. words.items) own) k
        ≡ valid_at (option_map (λ words. words.now) bits.entry) (offset + k)) }
{
    both(alloc, None, 0, bits, offset, len)
}

/// So many equal bits, without words where they are set.
fn equal_bits(alloc: Global, bit: bool, len: usize) -> Result<Option<Vec<u64>>, AllocError>
    ensures reach { IfOk result (λ bits. Reaches (option_map (λ words. words.items) bits) len) }
    ensures same { IfOk result (λ bits. (k : ℕ) → k < len
        → valid_at (option_map (λ words. words.items) bits) k ≡ bit) }
{
    if bit {
        return Ok(None);
    }
    let words = repeated(alloc, 0u64, len / 64 + 1)?;
    Ok(Some(words))
}

/// So many equal slots.
fn equal_slots(alloc: Global, slot: Option<bool>, len: usize) -> Result<BitChunk, AllocError>
    ensures slots { IfOk result (λ chunk. chunk
        ≡ replicate len (option_map (λ value. whole (truth value)) slot)) }
{
    if len > PLACE_LIMIT {
        return Err(AllocError);
    }
    match slot {
        None => {
            let validity = equal_bits(alloc, false, len)?;
            from_bits(alloc, None, validity, len)
        }
        Some(value) => {
            let values = equal_bits(alloc, value, len)?;
            from_bits(alloc, values, None, len)
        }
    }
}

/// Whether the words have no room for more than so many bits.
fn has_no_room(bits: &Option<Rc<Vec<u64>>>, len: usize) -> bool {
    match bits {
        None => true,
        Some(words) => words.capacity() == len.div_ceil(64),
    }
}

/// Whether somebody else has the words, and there are more of them than so many bits take: a copy
/// of the part then takes less memory than one of all of them.
fn is_small_part(bits: &Option<Rc<Vec<u64>>>, len: usize) -> bool {
    match bits {
        None => false,
        Some(words) => Rc::strong_count(words) > 1 && len.div_ceil(64) < words.len(),
    }
}
