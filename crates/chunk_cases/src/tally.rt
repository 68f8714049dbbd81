// What was compared so far.
use crate::lengths::Lengths;
use crate::plain::{Order, Rows, Totals};
use crate::subject::NAME;
use anyhow::{Error, Result};
use col_chunk::{ChunkedArray, Int64Chunked, Word};
use col_types::{PolarsError, PolarsResult};

/// How many cases were compared, how many slots were read for them, and the first call that differed.
#[derive(Clone, Copy)]
pub struct Tally {
    pub cases: u64,
    pub reads: u64,
    difference: Option<&'static str>,
}

impl Tally {
    pub fn new() -> Tally {
        Tally {
            cases: 0,
            reads: 0,
            difference: None,
        }
    }

    /// The call that differed first, as an error.
    pub fn end(&self) -> Result<()> {
        match self.difference {
            None => Ok(()),
            Some(call) => Err(Error::msg(call)),
        }
    }

    /// Counts a case, and keeps the call where it is the first that doesn't hold.
    pub fn expect(&mut self, call: &'static str, holds: bool) {
        self.cases = self.cases.saturating_add(1);
        if !holds && self.difference.is_none() {
            self.difference = Some(call);
        }
    }

    /// Counts a slot that was read.
    pub fn add_read(&mut self) {
        self.reads = self.reads.saturating_add(1);
    }

    /// Counts a case: a column has this name, exactly these rows, each read by `get`, and as many nulls.
    pub fn expect_column(
        &mut self,
        call: &'static str,
        column: &Int64Chunked,
        name: &str,
        rows: &Rows,
    ) {
        let mut alike = column.name().as_str() == name && column.len() == rows.len();
        let mut nulls = 0usize;
        for row in 0..column.len() {
            self.add_read();
            let slot = column.get(row);
            alike = alike && slot == rows.slot(row);
            if slot.is_none() {
                nulls = nulls.saturating_add(1);
            }
        }
        self.expect(call, alike && column.null_count() == nulls);
    }

    /// Counts a case: a column has these slots and no others, and the name of all.
    pub fn expect_slots(
        &mut self,
        call: &'static str,
        column: &Int64Chunked,
        slots: &[Option<i64>],
    ) {
        let order = Order::Each;
        self.expect_column(call, column, NAME, &Rows { slots, order });
    }

    /// Counts a case: a call answered the column of these rows.
    pub fn expect_answer(
        &mut self,
        call: &'static str,
        answer: PolarsResult<Int64Chunked>,
        rows: &Rows,
    ) -> Result<()> {
        self.expect_column(call, &answer?, NAME, rows);
        Ok(())
    }

    /// Counts two cases: the same, and that the chunks of the column have so many rows.
    pub fn expect_chunks(
        &mut self,
        call: &'static str,
        answer: PolarsResult<Int64Chunked>,
        rows: &Rows,
        lengths: &Lengths,
    ) -> Result<()> {
        let column = answer?;
        self.expect_column(call, &column, NAME, rows);
        self.expect_lengths(call, &column, lengths);
        Ok(())
    }

    /// Counts a case: the chunks of a column have so many rows.
    pub fn expect_lengths(&mut self, call: &'static str, column: &Int64Chunked, lengths: &Lengths) {
        let mut alike = column.n_chunks() == lengths.count();
        for index in 0..column.n_chunks() {
            alike = alike && column.chunk_len(index) == lengths.length(index);
        }
        self.expect(call, alike);
    }

    /// Counts a case: a row of a column is there and has this slot.
    pub fn expect_slot(
        &mut self,
        call: &'static str,
        column: &Int64Chunked,
        row: usize,
        slot: Option<i64>,
    ) {
        self.add_read();
        self.expect(call, row < column.len() && column.get(row) == slot);
    }

    /// Counts a case: a call was refused for this cause.
    pub fn expect_refused<T: Drop>(
        &mut self,
        call: &'static str,
        answer: PolarsResult<T>,
        refusal: &PolarsError,
    ) {
        let refused = match answer {
            Ok(_) => false,
            Err(given) => given == *refusal,
        };
        self.expect(call, refused);
    }

    /// Counts a case for each total of a column.
    pub fn expect_totals<T: Word>(&mut self, column: &ChunkedArray<T>, totals: &Totals<T>) {
        self.expect("sum", column.sum() == totals.sum);
        self.expect("product", column.product() == totals.product);
        self.expect("min", column.min() == totals.min);
        self.expect("max", column.max() == totals.max);
        self.expect("and_reduce", column.and_reduce() == totals.and);
        self.expect("or_reduce", column.or_reduce() == totals.or);
        self.expect("xor_reduce", column.xor_reduce() == totals.xor);
    }
}
