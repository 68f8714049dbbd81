// Values that were worked out by hand.
use crate::plain::Totals;
use crate::subject::{NAME, in_one_chunk, in_row_chunks};
use crate::tally::Tally;
use anyhow::Result;
use col_chunk::{ChunkedArray, Int64Chunked, Word};
use col_types::PolarsResult;
use std::alloc::Global;

/// Slots, and what they come to.
struct Known<'a, T> {
    slots: &'a [Option<T>],
    totals: Totals<T>,
}

/// Sums and products that wrap, slots of both signs, no valid slot.
const WORDS: [Known<'static, i64>; 6] = [
    Known {
        slots: &[Some(i64::MAX), None, Some(1)],
        totals: Totals {
            sum: i64::MIN,
            product: i64::MAX,
            min: Some(1),
            max: Some(i64::MAX),
            and: Some(1),
            or: Some(i64::MAX),
            xor: Some(9_223_372_036_854_775_806),
        },
    },
    Known {
        slots: &[Some(-1), Some(i64::MIN), None],
        totals: Totals {
            sum: i64::MAX,
            product: i64::MIN,
            min: Some(i64::MIN),
            max: Some(-1),
            and: Some(i64::MIN),
            or: Some(-1),
            xor: Some(i64::MAX),
        },
    },
    Known {
        slots: &[Some(4_294_967_296), Some(4_294_967_296), Some(5)],
        totals: Totals {
            sum: 8_589_934_597,
            product: 0,
            min: Some(5),
            max: Some(4_294_967_296),
            and: Some(0),
            or: Some(4_294_967_301),
            xor: Some(5),
        },
    },
    Known {
        slots: &[None, Some(3), Some(-4), None],
        totals: Totals {
            sum: -1,
            product: -12,
            min: Some(-4),
            max: Some(3),
            and: Some(0),
            or: Some(-1),
            xor: Some(-1),
        },
    },
    Known {
        slots: &[None, None, None],
        totals: NOTHING,
    },
    Known {
        slots: &[],
        totals: NOTHING,
    },
];

/// What no valid slot comes to.
const NOTHING: Totals<i64> = Totals {
    sum: 0,
    product: 1,
    min: None,
    max: None,
    and: None,
    or: None,
    xor: None,
};

/// Words of 8 bits from end to end.
const NARROW: [Known<'static, u8>; 2] = [
    Known {
        slots: &[Some(255), None, Some(1), Some(0)],
        totals: Totals {
            sum: 0,
            product: 0,
            min: Some(0),
            max: Some(255),
            and: Some(0),
            or: Some(255),
            xor: Some(254),
        },
    },
    Known {
        slots: &[Some(16), Some(17), Some(3)],
        totals: Totals {
            sum: 36,
            product: 48,
            min: Some(3),
            max: Some(17),
            and: Some(0),
            or: Some(19),
            xor: Some(2),
        },
    },
];

/// Words of 128 bits from end to end.
const WIDE: [Known<'static, i128>; 2] = [
    Known {
        slots: &[Some(i128::MIN), None, Some(i128::MAX)],
        totals: Totals {
            sum: -1,
            product: i128::MIN,
            min: Some(i128::MIN),
            max: Some(i128::MAX),
            and: Some(0),
            or: Some(-1),
            xor: Some(-1),
        },
    },
    Known {
        slots: &[Some(i128::MAX), Some(1)],
        totals: Totals {
            sum: i128::MIN,
            product: i128::MAX,
            min: Some(1),
            max: Some(i128::MAX),
            and: Some(1),
            or: Some(i128::MAX),
            xor: Some(i128::MAX - 1),
        },
    },
];

/// What known slots come to, and the greatest and the least word moved about.
pub fn check_known(alloc: Global, tally: &mut Tally) -> Result<()> {
    for known in &WORDS {
        known.check(alloc, tally)?;
    }
    for known in &NARROW {
        known.check(alloc, tally)?;
    }
    for known in &WIDE {
        known.check(alloc, tally)?;
    }
    check_ends(alloc, tally)
}

impl<T: Word> Known<'_, T> {
    /// In one chunk, and in chunks of one row.
    fn check(&self, alloc: Global, tally: &mut Tally) -> Result<()> {
        self.check_column(&in_one_chunk(alloc, NAME, self.slots)?, tally);
        self.check_column(&in_row_chunks(alloc, NAME, self.slots)?, tally);
        Ok(())
    }

    /// The slots by `get`, and each total.
    fn check_column(&self, column: &ChunkedArray<T>, tally: &mut Tally) {
        let mut alike = column.name().as_str() == NAME && column.len() == self.slots.len();
        let mut nulls = 0usize;
        for row in 0..column.len() {
            tally.add_read();
            let slot = column.get(row);
            alike = alike && self.slots.get(row).copied() == Some(slot);
            if slot.is_none() {
                nulls = nulls.saturating_add(1);
            }
        }
        tally.expect("get", alike && column.null_count() == nulls);
        tally.expect_totals(column, &self.totals);
    }
}

/// The least and the greatest word with a null between them, moved about.
fn check_ends(alloc: Global, tally: &mut Tally) -> Result<()> {
    let (low, high) = (Some(i64::MIN), Some(i64::MAX));
    let mut column = in_row_chunks(alloc, NAME, &[low, None, high])?;
    check_moved("reverse", column.reverse(alloc), &[high, None, low], tally)?;
    check_moved("shift", column.shift(alloc, -1), &[None, high, None], tally)?;
    check_moved("slice", column.slice(alloc, -2, 5), &[None, high], tally)?;
    check_moved("drop_nulls", column.drop_nulls(alloc), &[low, high], tally)?;
    let named = column.take_slice(alloc, &[2, 2, 1, 0]);
    check_moved("take_slice", named, &[high, high, None, low], tally)?;
    let valid = column.drop_nulls(alloc)?;
    column.extend(&valid)?;
    tally.expect_slots("extend", &column, &[low, None, high, low, high]);
    Ok(())
}

fn check_moved(
    call: &'static str,
    answer: PolarsResult<Int64Chunked>,
    slots: &[Option<i64>],
    tally: &mut Tally,
) -> Result<()> {
    tally.expect_slots(call, &answer?, slots);
    Ok(())
}
