// From the least to the greatest slot of a column.
ghost use Rattle.std.specs.Prelude.{◌≡◌, Some, None};
ghost use Rattle.std.specs.Option.{option_map};
ghost use Rattle.col_expr.specs.FoundPlan.{widened_by, spanned_by};
ghost use Rattle.col_expr.specs.Span.{from_to, is_span_within};

use col_chunk::{ChunkedArray, Word};
use col_model::Interval;
use col_series::{Physical, Series};

/// From the least to the greatest valid slot, none where no slot is valid.
pub(crate) fn span_of(column: &Series) -> Option<Interval>
    ensures span { result ≡ spanned_by (Some column.now.column) }
{
    match column.physical() {
        Physical::Int32(words) => span_of_words(words),
        Physical::Int64(words) => span_of_words(words),
    }
}

// The same of a column of words, of any width.
fn span_of_words<T: Word>(words: &ChunkedArray<T>) -> Option<Interval>
    ensures span { result ≡ widened_by None words.now.column.slots }
{
    from_to(words.min(), words.max())
}

// From one word to another, none where either is missing.
fn from_to<T: Word>(low: Option<T>, high: Option<T>) -> Option<Interval>
    ensures span { result ≡ from_to (option_map T.reading low) (option_map T.reading high) }
{
    match (low, high) {
        (Some(low), Some(high)) => Some(Interval::new(low.to_i128(), high.to_i128())),
        _ => None,
    }
}

/// Whether a span lies in the interval: without one there is no slot that could lie outside.
pub(crate) fn is_span_within(range: Interval, span: Option<Interval>) -> bool
    ensures within { result ≡ is_span_within range span }
{
    match span {
        Some(span) => range.encloses(span),
        None => true,
    }
}
