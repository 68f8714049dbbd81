// What the calls have to answer: rows of plain lists, found one by one, so that no list has to be made.
use std::alloc::{AllocError, Global};

/// Rows of a plain list, or of one list and more.
#[derive(Clone, Copy)]
pub struct Rows<'a> {
    pub slots: &'a [Option<i64>],
    pub order: Order<'a>,
}

/// Which rows of a list there are.
#[derive(Clone, Copy)]
pub enum Order<'a> {
    Each,
    /// So many rows from a place on, null where the list has none.
    From { place: i128, rows: usize },
    Backwards,
    /// The rows that indices name, null for a null one.
    Named(&'a [Option<u32>]),
    Numbered(&'a [u32]),
    /// One row, so many times.
    Repeated { row: usize, times: usize },
    /// Each row, and those of another list behind them.
    Followed(&'a [Option<i64>]),
    /// Each row, but for one that has this slot.
    Written { row: usize, slot: Option<i64> },
    /// These words, and nothing of the list.
    Words(&'a [i64]),
}

impl<'a> Rows<'a> {
    /// These words, none of them null.
    pub fn of_words(words: &'a [i64]) -> Rows<'a> {
        Rows {
            slots: &[],
            order: Order::Words(words),
        }
    }

    pub fn len(&self) -> usize {
        let len = self.slots.len();
        match &self.order {
            Order::Each | Order::Backwards | Order::Written { .. } => len,
            Order::From { rows, .. } => *rows,
            Order::Named(indices) => indices.len(),
            Order::Numbered(indices) => indices.len(),
            Order::Repeated { times, .. } => *times,
            Order::Followed(others) => len.saturating_add(others.len()),
            Order::Words(words) => words.len(),
        }
    }

    /// The slot of a row.
    pub fn slot(&self, row: usize) -> Option<i64> {
        let len = self.slots.len();
        let place = row as i128;
        match &self.order {
            Order::Each => slot_at(self.slots, place),
            Order::From { place: first, .. } => slot_at(self.slots, place.wrapping_add(*first)),
            Order::Backwards => {
                let last = (len as i128).wrapping_sub(1);
                slot_at(self.slots, last.wrapping_sub(place))
            }
            Order::Named(indices) => {
                let index = indices.get(row).copied().flatten()?;
                slot_at(self.slots, i128::from(index))
            }
            Order::Numbered(indices) => {
                let index = indices.get(row).copied()?;
                slot_at(self.slots, i128::from(index))
            }
            Order::Repeated { row, .. } => slot_at(self.slots, *row as i128),
            Order::Followed(_) if row < len => slot_at(self.slots, place),
            Order::Followed(others) => slot_at(others, place.wrapping_sub(len as i128)),
            Order::Written { row: at, slot } if *at == row => *slot,
            Order::Written { .. } => slot_at(self.slots, place),
            Order::Words(words) => words.get(row).copied(),
        }
    }
}

/// The slot of a place, null where there is no such row.
fn slot_at(slots: &[Option<i64>], place: i128) -> Option<i64> {
    if 0 <= place && place < slots.len() as i128 {
        slots[place as usize]
    } else {
        None
    }
}

/// The place of an offset: counted from the end where it is negative. It may lie outside.
pub fn place_of(rows: usize, offset: i64) -> i128 {
    let offset = i128::from(offset);
    if offset < 0 {
        offset.wrapping_add(rows as i128)
    } else {
        offset
    }
}

/// The slots from one place to before another.
pub fn between(slots: &[Option<i64>], from: i128, to: i128) -> Rows<'_> {
    let end = slots.len() as i128;
    let place = from.max(0).min(end);
    let rows = usize::try_from(to.min(end).wrapping_sub(place)).unwrap_or(0);
    Rows {
        slots,
        order: Order::From { place, rows },
    }
}

/// The valid slots as words.
pub fn valid<T: Copy>(alloc: Global, slots: &[Option<T>]) -> Result<Vec<T>, AllocError> {
    slots.iter().copied().flatten().collect(alloc)
}

/// What valid words come to.
#[derive(Clone, Copy)]
pub struct Totals<T> {
    pub sum: T,
    pub product: T,
    pub min: Option<T>,
    pub max: Option<T>,
    pub and: Option<T>,
    pub or: Option<T>,
    pub xor: Option<T>,
}

pub fn totals_of(slots: &[Option<i64>]) -> Totals<i64> {
    let mut totals = Totals {
        sum: 0i64,
        product: 1,
        min: None,
        max: None,
        and: None,
        or: None,
        xor: None,
    };
    for slot in slots {
        if let Some(word) = slot {
            totals.sum = totals.sum.wrapping_add(*word);
            totals.product = totals.product.wrapping_mul(*word);
            totals.min = Some(totals.min.unwrap_or(*word).min(*word));
            totals.max = Some(totals.max.unwrap_or(*word).max(*word));
            totals.and = Some(totals.and.unwrap_or(*word) & *word);
            totals.or = Some(totals.or.unwrap_or(*word) | *word);
            totals.xor = Some(totals.xor.unwrap_or(0) ^ *word);
        }
    }
    totals
}
