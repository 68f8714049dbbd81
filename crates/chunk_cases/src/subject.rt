// The columns that calls are made on: so many rows, lying in chunks in some way, with some nulls.
use col_chunk::{ChunkedArray, Int64Chunked, Word};
use col_types::{PlSmallStr, PolarsResult};
use std::alloc::{AllocError, Global};

/// The name of each of these columns.
pub const NAME: &str = "subject";

/// The name of a column that is none of these.
pub const OTHER_NAME: &str = "other";

/// How many rows the columns have: none, one, and about the width of a word of validity.
pub const ROWS: [u32; 6] = [0, 1, 63, 64, 65, 129];

/// How the columns lie in chunks, and the words for it.
pub const LAYOUTS: [(&str, Layout); 5] = [
    ("one chunk", Layout::OneChunk),
    ("chunks of one row", Layout::RowChunks),
    ("a slice from row 1 on", Layout::Slice { first: 1 }),
    ("a slice from row 63 on", Layout::Slice { first: 63 }),
    ("a slice from row 64 on", Layout::Slice { first: 64 }),
];

/// Which of their slots are null, and the words for it.
pub const NULLS: [(&str, Nulls); 3] = [
    ("none null", Nulls::NoSlot),
    ("each null", Nulls::EachSlot),
    ("every second null", Nulls::EverySecond),
];

/// How many rows lie behind a slice in the column that it is one of.
const BEHIND: u32 = 2;

/// How a column lies in chunks.
#[derive(Clone, Copy)]
pub enum Layout {
    /// All in one.
    OneChunk,
    /// Each row in its own.
    RowChunks,
    /// All in one, which is a part of a longer one from this row on.
    Slice { first: u32 },
}

/// Which slots are null.
#[derive(Clone, Copy)]
pub enum Nulls {
    NoSlot,
    EachSlot,
    EverySecond,
}

/// What a column is like.
#[derive(Clone, Copy)]
pub struct Case {
    pub rows: u32,
    pub layout: Layout,
    pub nulls: Nulls,
}

/// A column, and the slots that it has to have.
#[derive(Drop)]
pub struct Subject {
    pub layout: Layout,
    pub column: Int64Chunked,
    pub slots: Vec<Option<i64>>,
}

impl Subject {
    pub fn new(alloc: Global, case: &Case) -> PolarsResult<Subject> {
        let first = match case.layout {
            Layout::OneChunk | Layout::RowChunks => 0,
            Layout::Slice { first } => first,
        };
        let slots = slots_from(alloc, case.nulls, first, case.rows)?;
        let column = column_of(alloc, case, slots.as_slice())?;
        Ok(Subject {
            layout: case.layout,
            column,
            slots,
        })
    }
}

/// The column of these slots, which are the case's.
fn column_of(alloc: Global, case: &Case, slots: &[Option<i64>]) -> PolarsResult<Int64Chunked> {
    match case.layout {
        Layout::OneChunk => in_one_chunk(alloc, NAME, slots),
        Layout::RowChunks => in_row_chunks(alloc, NAME, slots),
        Layout::Slice { first } => {
            let around = first.saturating_add(case.rows).saturating_add(BEHIND);
            let around = slots_from(alloc, case.nulls, 0, around)?;
            let around = in_one_chunk(alloc, NAME, around.as_slice())?;
            around.slice(alloc, i64::from(first), case.rows as usize)
        }
    }
}

/// A word that looks random, is the same at each run, and is odd, so that no product is 0.
pub fn word_at(place: u32) -> i64 {
    i64::from(place)
        .wrapping_add(i64::from(place))
        .wrapping_add(1)
        .wrapping_mul(6_364_136_223_846_793_005)
}

/// The slot of a place.
pub fn slot_at(nulls: Nulls, place: u32) -> Option<i64> {
    match nulls {
        Nulls::EachSlot => None,
        Nulls::EverySecond if place % 2 == 1 => None,
        Nulls::NoSlot | Nulls::EverySecond => Some(word_at(place)),
    }
}

/// The slots of so many places from one on.
pub fn slots_from(
    alloc: Global,
    nulls: Nulls,
    first: u32,
    rows: u32,
) -> Result<Vec<Option<i64>>, AllocError> {
    let mut slots = Vec::with_capacity(alloc, rows as usize)?;
    for place in first..first.saturating_add(rows) {
        slots.push(slot_at(nulls, place))?;
    }
    Ok(slots)
}

/// A column of these slots in one chunk.
pub fn in_one_chunk<T: Word>(
    alloc: Global,
    name: &str,
    slots: &[Option<T>],
) -> PolarsResult<ChunkedArray<T>> {
    let name = PlSmallStr::from_str(alloc, name)?;
    ChunkedArray::<T>::from_iter_options(alloc, name, slots.iter().copied())
}

/// A column of these slots in chunks of one row.
pub fn in_row_chunks<T: Word>(
    alloc: Global,
    name: &str,
    slots: &[Option<T>],
) -> PolarsResult<ChunkedArray<T>> {
    let (first, others) = slots.split_at(slots.len().min(1));
    let mut column = in_one_chunk(alloc, name, first)?;
    for slot in others {
        column.append(&in_one_chunk(alloc, OTHER_NAME, &[*slot])?)?;
    }
    Ok(column)
}
