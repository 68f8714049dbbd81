//! What tests compare with. A comparison of its own in each test, with its message, costs a second to prove.
use col_chunk::{ChunkedArray, Word};
use std::process::Abort;

/// Stops the test unless this holds.
pub fn holds(rt: &impl Abort, at: &str, is_so: bool) {
    assert!(rt; is_so, "{at}");
}

/// Stops the test unless the column has these slots.
pub fn has_words<T: Word>(rt: &impl Abort, column: &ChunkedArray<T>, slots: &[Option<T>]) {
    let mut alike = column.len() == slots.len();
    for (row, slot) in slots.iter().enumerate() {
        alike = alike && row < column.len() && column.get(row) == *slot;
    }
    holds(rt, "other slots", alike);
}
