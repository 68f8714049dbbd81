//! A column of words that are read as a logical type.

ghost use Rattle.std.specs.Prelude.{◌≡◌, ◌<◌, ◌^◌, true, None, Ok, Some, length, slice_index_or};
ghost use Rattle.std.specs.Option.{option_map};
ghost use Rattle.col_types.specs.PolarsError.{Becomes, Gives};
ghost use Rattle.col_types.specs.declared.is_sorted.IsSorted.TheVariants.{Not};
ghost use Rattle.col_model.specs.Value.{whole};
ghost use Rattle.col_model.specs.Column.{IsValidColumn, is_built_type, physical_word};
ghost use Rattle.col_model.specs.ChunkCalls.{null_count, renamed};
ghost use Rattle.col_logical.specs.Logical.{field_of, lie_in_the_day, retyped};

use crate::{DateType, DatetimeType, DurationType, LogicalKind, TimeType};
use col_chunk::{ChunkedArray, Word};
use col_types::{DataType, Field, PlSmallStr, PolarsResult};
use std::alloc::Global;
use std::marker::{Model, PhantomData};

/// A column of words, read as a type of a kind.
#[derive(Drop)]
pub struct Logical<K: LogicalKind, T: Word> {
    pub(crate) phys: ChunkedArray<T>,
    pub(crate) dtype: DataType,
    kind: PhantomData<K>,
}

impl<K: LogicalKind, T: Word> Model for Logical<K, T> {
    ghost use Rattle.std.specs.Coded.{codes};
    ghost use Rattle.col_types.specs.contracts.data_type.DataType as data_type;
    ghost use Rattle.col_model.specs.Chunked.{Chunked};

    ghost Value = { Chunked };

    ghost coded = { Prim.hlevel (codes, data_type.the_row.coded) };

    ghost use Rattle.col_logical.specs.Logical.{IsLogical, retyped};

    ghost view = { λ a. retyped a.dtype a.phys };

    ghost invariant = { λ a. IsLogical K.is_type T.word_type a.dtype a.phys.column.slots };
}

/// A column of dates.
pub type DateChunked = Logical<DateType, i32>;

/// A column of moments.
pub type DatetimeChunked = Logical<DatetimeType, i64>;

/// A column of lengths of time.
pub type DurationChunked = Logical<DurationType, i64>;

/// A column of times of the day.
pub type TimeChunked = Logical<TimeType, i64>;

impl<K: LogicalKind, T: Word> Logical<K, T> {
    /// The words of a column, read as a type.
    pub fn new_logical(phys: ChunkedArray<T>, dtype: DataType) -> Self
        requires kind { K.is_type dtype ≡ true }
        requires typed { is_built_type dtype ≡ true }
        requires stored { physical_word dtype ≡ Some T.word_type }
        requires day { lie_in_the_day dtype phys.column.slots ≡ true }
        ensures column { result ≡ retyped dtype phys }
    {
        Logical {
            phys,
            dtype,
            kind: PhantomData,
        }
    }

    /// The words.
    pub fn physical(&self) -> &ChunkedArray<T>
        ensures column { self.now ≡ retyped self.now.column.dtype result.now }
    {
        &self.phys
    }

    /// The words, taken out.
    pub fn into_physical(self) -> ChunkedArray<T>
        ensures column { self ≡ retyped self.column.dtype result }
    {
        let Logical { phys, .. } = self;
        phys
    }

    /// The type.
    pub fn dtype(&self) -> &DataType
        ensures dtype { result.now ≡ self.now.column.dtype }
    {
        &self.dtype
    }

    /// The name and the type.
    pub fn field(&self) -> PolarsResult<Field>
        ensures field { Gives result (Ok (field_of self.now.column)) }
    {
        let name = self.phys.name().clone()?;
        let dtype = self.dtype.clone_flat();
        Ok(Field { name, dtype })
    }

    /// The name.
    pub fn name(&self) -> &PlSmallStr
        ensures name { result.now ≡ self.now.column.name }
    {
        self.phys.name()
    }

    /// The number of rows.
    pub fn len(&self) -> usize
        ensures rows { result ≡ length self.now.column.slots }
        ensures short { result < 2 ^ 32 }
    {
        self.phys.len()
    }

    /// The number of chunks.
    pub fn n_chunks(&self) -> usize
        ensures chunks { result ≡ length self.now.chunk_lengths }
    {
        self.phys.n_chunks()
    }

    /// The number of nulls. Takes the time of the words of validity.
    pub fn null_count(&self) -> usize
        ensures nulls { result ≡ null_count self.now.column.slots }
    {
        self.phys.null_count()
    }

    /// The word of a row.
    pub fn get(&self, index: usize) -> Option<T>
        requires row { index < length self.now.column.slots }
        ensures slot { option_map (λ x. whole (T.reading x)) result
            ≡ slice_index_or self.now.column.slots index None }
    {
        self.phys.get(index)
    }

    /// Does nothing. Says what holds of each column.
    pub fn known(&self)
        ensures valid { IsValidColumn self.now.column }
        ensures kind { K.is_type self.now.column.dtype ≡ true }
        ensures stored { physical_word self.now.column.dtype ≡ Some T.word_type }
        ensures unmarked { self.now.column.flag ≡ Not }
    {
        self.phys.known();
        let _ = &self.dtype;
    }

    /// The same column, over the same memory.
    pub fn try_clone(&self, alloc: Global) -> PolarsResult<Self>
        ensures column { Gives result (Ok self.now) }
    {
        let phys = self.phys.try_clone(alloc)?;
        Ok(Logical {
            phys,
            dtype: self.dtype.clone_flat(),
            kind: PhantomData,
        })
    }

    /// Sets the name.
    pub fn rename(&mut self, name: PlSmallStr)
        ensures column { self.new ≡ renamed name self.old }
    {
        self.phys.rename(name);
    }

    /// Gives back memory that no row needs.
    pub fn shrink_to_fit(&mut self) -> PolarsResult<()>
        ensures column { Becomes result self.old self.new (Ok self.old) }
    {
        self.phys.shrink_to_fit()
    }
}
