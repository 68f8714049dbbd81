//! A chunk whose slots are runs of one leaf chunk, between ends.
#![tactic(auto, using(crate::proofs::RunLaws::run_laws))]

ghost use Rattle.std.specs.Prelude.{◌≡◌, ◌+◌, ◌-◌, ◌<◌, ◌≤◌, ◌∷◌, ◌++◌, [], Bool, true, ℕ, List, Option, IfOk, IfSome, OnOk, Some, None, is_some, length, take, drop, replicate, slice_index, slice_index_or, if◌then◌else◌};
ghost use Rattle.std.specs.List.{list_all};
ghost use Rattle.std.specs.Option.{option_map};
ghost use Rattle.col_types.specs.declared.data_type.DataType.{DataType};
ghost use Rattle.col_model.specs.Value.{Value};
ghost use Rattle.col_model.specs.ChunkCalls.{null_count};
ghost use Rattle.col_buffer.specs.Validity.{Reaches, valid_at};
ghost use Rattle.col_string.specs.Runs.{Ends, passes, run_slots, start_of};

use col_buffer::{add_valid, bits_of, is_valid, null_places, repeated, share, share_new};
use col_chunk::Chunk;
use std::alloc::{AllocError, Global};
use std::marker::{Model, PhantomData};
use std::rc::Rc;

/// What a run of leaf slots is as a value.
pub trait Reading {
    /// The type of a column of such values.
    ghost dtype: { DataType };

    /// The value of a run.
    ghost reading: { List (Option Value) → Value };

    /// Whether a slot may have the value.
    ghost is_value: { Value → Bool };

    /// Does nothing. With it the members above are definitions and not laws.
    fn mark();
}

/// Optional runs of one leaf: each is the part of it between two ends. A null takes no slot of the
/// leaf. Contracts see the list of the chunk's slots.
#[derive(Drop)]
pub struct RunChunk<L: Chunk, R: Reading> {
    pub(crate) leaf: L,
    pub(crate) ends: Rc<Vec<usize>>,
    pub(crate) validity: Option<Rc<Vec<u64>>>,
    pub(crate) offset: usize,
    pub(crate) len: usize,
    pub(crate) of: PhantomData<R>,
}

impl<L: Chunk, R: Reading> Model for RunChunk<L, R> {
    ghost use Rattle.std.specs.Prelude.{◌≡◌, true, ◌+◌, ◌≤◌, List, Option, length};
    ghost use Rattle.std.specs.List.{list_all};
    ghost use Rattle.std.specs.Option.{option_map};
    ghost use Rattle.col_model.specs.Value.{Value as SlotValue};
    ghost use Rattle.col_buffer.specs.Validity.{Reaches};
    ghost use Rattle.col_string.specs.Runs.{Ends, passes, run_slots};

    ghost Value = { List (Option SlotValue) };

    ghost view = { λ c. run_slots R.reading (option_map (λ words. words.value.items) c.validity)
        (L.slots c.leaf) c.ends.value.items c.offset c.len };

    ghost invariant = { λ c. (c.offset + c.len ≤ length c.ends.value.items)
        × Ends c.ends.value.items (length (L.slots c.leaf))
        × Reaches (option_map (λ words. words.value.items) c.validity) (c.offset + c.len)
        × (list_all (passes R.is_value) (run_slots R.reading
        (option_map (λ words. words.value.items) c.validity) (L.slots c.leaf)
        c.ends.value.items c.offset c.len) ≡ true) };
}

/// Optional runs that are being written. There is no leaf where memory was wanting in mid-write;
/// each further write is refused then.
#[derive(Drop)]
pub struct RunBuilder<L: Chunk, R: Reading> {
    pub(crate) leaf: Option<L::Builder>,
    pub(crate) ends: Vec<usize>,
    pub(crate) validity: Option<Vec<u64>>,
    pub(crate) of: PhantomData<R>,
}

impl<L: Chunk, R: Reading> Model for RunBuilder<L, R> {
    ghost use Rattle.std.specs.Prelude.{List, Option, length};
    ghost use Rattle.std.specs.Option.{option_map};
    ghost use Rattle.col_model.specs.Value.{Value as SlotValue};
    ghost use Rattle.col_buffer.specs.Validity.{Reaches};
    ghost use Rattle.col_string.specs.Runs.{Fit, Writes, items_or, run_slots};

    ghost Value = { List (Option SlotValue) };

    ghost view = { λ b. run_slots R.reading (option_map (λ words. words.items) b.validity)
        (items_or (option_map L.written b.leaf)) b.ends.items 0 (length b.ends.items) };

    ghost invariant = { λ b. Writes b.ends.items (option_map L.written b.leaf)
        × Reaches (option_map (λ words. words.items) b.validity) (length b.ends.items)
        × Fit R.is_value R.reading (option_map (λ words. words.items) b.validity) b.ends.items
        (option_map L.written b.leaf) };
}

impl<L: Chunk, R: Reading> RunBuilder<L, R> {
    /// Writes a part of a leaf behind the slots that were written.
    pub fn push_run(&mut self, leaf: &L, start: usize, len: usize) -> Result<(), AllocError>
        requires inside { start + len ≤ length (L.slots leaf.now) }
        requires fits { R.is_value (R.reading (take len (drop start (L.slots leaf.now)))) ≡ true }
        ensures slots { OnOk result (self.new
            ≡ self.old ++ Some (R.reading (take len (drop start (L.slots leaf.now)))) ∷ []) }
    {
        let end = match last_end(self.ends.as_slice()).checked_add(len) {
            Some(end) => end,
            None => return Err(AllocError),
        };
        let mut items = match self.leaf.take() {
            Some(items) => items,
            None => return Err(AllocError),
        };
        leaf.copy_onto(start, len, &mut items)?;
        let place = self.ends.len();
        add_valid(*self.ends.allocator(), &mut self.validity, place, true)?;
        self.ends.push(end)?;
        self.leaf = Some(items);
        Ok(())
    }

    /// Writes a null behind the slots that were written. It takes no slot of the leaf.
    pub fn push_null(&mut self) -> Result<(), AllocError>
        ensures slots { OnOk result (self.new ≡ self.old ++ None ∷ []) }
    {
        let end = last_end(self.ends.as_slice());
        let items = match self.leaf.take() {
            Some(items) => items,
            None => return Err(AllocError),
        };
        let place = self.ends.len();
        add_valid(*self.ends.allocator(), &mut self.validity, place, false)?;
        self.ends.push(end)?;
        self.leaf = Some(items);
        Ok(())
    }
}

/// Where the last run ends.
pub(crate) fn last_end(ends: &[usize]) -> usize
    ensures end { result ≡ start_of ends.now (length ends.now) }
{
    start(ends, ends.len())
}

/// Where a run begins.
fn start(ends: &[usize], place: usize) -> usize
    requires inside { place ≤ length ends.now }
    ensures start { result ≡ start_of ends.now place }
{
    if place == 0 { 0 } else { ends[place - 1] }
}

/// Where a run is, and how many leaf slots it has.
pub(crate) fn bounds<L: Chunk>(leaf: &L, ends: &Rc<Vec<usize>>, place: usize) -> (usize, usize)
    requires inside { place < length ends.now.value.items }
    requires ends { Ends ends.now.value.items (length (L.slots leaf.now)) }
    ensures start { result.0 ≡ start_of ends.now.value.items place }
    ensures len { result.1 ≡ slice_index ends.now.value.items place
        - start_of ends.now.value.items place }
    ensures room { result.0 + result.1 ≤ length (L.slots leaf.now) }
{
    let _ = leaf;
    let from = start(ends.as_slice(), place);
    let to = ends.as_slice()[place];
    (from, to - from)
}

impl<L: Chunk, R: Reading> Chunk for RunChunk<L, R> {
    type Builder = RunBuilder<L, R>;

    ghost dtype = { R.dtype };

    ghost slots = { λ c. c };

    ghost written = { λ b. b };

    ghost is_slot = { passes R.is_value };

    fn known(&self) {
        let _ = &self.len;
    }

    fn len(&self) -> usize {
        self.len
    }

    fn is_valid(&self, index: usize) -> bool {
        is_valid(&self.validity, self.offset + index)
    }

    fn null_count(&self) -> usize {
        null_places(bits_of(&self.validity), self.offset, self.len)
    }

    fn share(&self, offset: usize, len: usize) -> Result<Self, AllocError> {
        let leaf = same(&self.leaf)?;
        let ends = self.ends.clone()?;
        let validity = share(&self.validity)?;
        Ok(RunChunk {
            leaf,
            ends,
            validity,
            offset: self.offset + offset,
            len,
            of: PhantomData,
        })
    }

    fn shrunk(&self, alloc: Global) -> Result<Self, AllocError> {
        if self.len == self.ends.capacity() {
            return self.fitted(alloc);
        }
        let copy = self.copied(alloc)?;
        copy.fitted(alloc)
    }

    fn nulls(alloc: Global, len: usize) -> Result<Self, AllocError> {
        let leaf = L::nulls(alloc, 0)?;
        let ends = repeated(alloc, 0usize, len)?;
        let words = repeated(alloc, 0u64, len / 64 + 1)?;
        let chunk = from_parts(alloc, leaf, ends, Some(words))?;
        Ok(chunk)
    }

    fn repeat(&self, alloc: Global, index: usize, len: usize) -> Result<Self, AllocError> {
        let mut builder = Self::builder(alloc, len)?;
        for _ in 0..len {
            self.push_onto(index, &mut builder)?;
        }
        Self::build(alloc, builder)
    }

    fn builder(alloc: Global, room: usize) -> Result<RunBuilder<L, R>, AllocError> {
        let leaf = L::builder(alloc, 0)?;
        Ok(RunBuilder {
            leaf: Some(leaf),
            ends: Vec::with_capacity(alloc, room)?,
            validity: None,
            of: PhantomData,
        })
    }

    fn copy_onto(
        &self,
        offset: usize,
        len: usize,
        builder: &mut RunBuilder<L, R>,
    ) -> Result<(), AllocError> {
        let _ = &self.len;
        for index in offset..offset + len {
            self.push_onto(index, builder)?;
        }
        Ok(())
    }

    fn push_onto(&self, index: usize, builder: &mut RunBuilder<L, R>) -> Result<(), AllocError> {
        let place = self.offset + index;
        if is_valid(&self.validity, place) {
            let (start, len) = bounds(&self.leaf, &self.ends, place);
            builder.push_run(&self.leaf, start, len)
        } else {
            builder.push_null()
        }
    }

    fn build(alloc: Global, builder: RunBuilder<L, R>) -> Result<Self, AllocError> {
        let RunBuilder {
            leaf,
            ends,
            validity,
            of: _,
        } = builder;
        match leaf {
            Some(items) => from_parts(alloc, L::build(alloc, items)?, ends, validity),
            None => Err(AllocError),
        }
    }
}

impl<L: Chunk, R: Reading> RunChunk<L, R> {
    /// The same slots in ends of their own, and their runs alone in a leaf of its own.
    fn copied(&self, alloc: Global) -> Result<Self, AllocError>
        ensures slots { IfOk result (λ chunk. chunk ≡ self.now) }
    {
        let mut builder = Self::builder(alloc, self.len)?;
        self.copy_onto(0, self.len(), &mut builder)?;
        Self::build(alloc, builder)
    }

    /// The same slots over a leaf that has no room for others.
    fn fitted(&self, alloc: Global) -> Result<Self, AllocError>
        ensures slots { IfOk result (λ chunk. chunk ≡ self.now) }
    {
        let leaf = self.leaf.shrunk(alloc)?;
        let ends = self.ends.clone()?;
        let validity = share(&self.validity)?;
        Ok(RunChunk {
            leaf,
            ends,
            validity,
            offset: self.offset,
            len: self.len,
            of: PhantomData,
        })
    }

    /// The same slots as another reading gives them, in the same memory.
    pub(crate) fn read_as<Q: Reading>(&self) -> Result<RunChunk<L, Q>, AllocError>
        requires reading { (run : List (Option Value)) → Q.reading run ≡ R.reading run }
        requires fits { list_all (passes Q.is_value) self.now ≡ true }
        ensures slots { IfOk result (λ chunk. chunk ≡ self.now) }
    {
        let leaf = same(&self.leaf)?;
        let ends = self.ends.clone()?;
        let validity = share(&self.validity)?;
        Ok(RunChunk {
            leaf,
            ends,
            validity,
            offset: self.offset,
            len: self.len,
            of: PhantomData,
        })
    }
}

/// The same slots, in the same memory.
fn same<C: Chunk>(chunk: &C) -> Result<C, AllocError>
    ensures slots { IfOk result (λ copy. C.slots copy ≡ C.slots chunk.now) }
{
    let copy = chunk.share(0, chunk.len())?;
    Ok(copy)
}

/// A chunk of these runs.
fn from_parts<L: Chunk, R: Reading>(
    alloc: Global,
    leaf: L,
    ends: Vec<usize>,
    validity: Option<Vec<u64>>,
) -> Result<RunChunk<L, R>, AllocError>
    requires ends { Ends ends.items (length (L.slots leaf)) }
    requires reach { Reaches (option_map (λ words. words.items) validity) (length ends.items) }
    requires fit { list_all (passes R.is_value) (run_slots R.reading
        (option_map (λ words. words.items) validity) (L.slots leaf) ends.items 0
        (length ends.items)) ≡ true }
    ensures slots { IfOk result (λ chunk. chunk ≡ run_slots R.reading
        (option_map (λ words. words.items) validity) (L.slots leaf) ends.items 0
        (length ends.items)) }
{
    let len = ends.len();
    let ends = Rc::new(alloc, ends)?;
    let validity = share_new(alloc, validity)?;
    Ok(RunChunk {
        leaf,
        ends,
        validity,
        offset: 0,
        len,
        of: PhantomData,
    })
}
