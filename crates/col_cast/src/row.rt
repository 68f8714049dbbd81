//! The rows of the cast table, chosen by types.

ghost use Rattle.std.specs.Prelude.{◌≡◌, false, true, IfSome, Some};
ghost use Rattle.std.specs.Option.{option_map};
ghost use Rattle.std.specs.Int.{w8, w64};
ghost use Rattle.col_types.specs.DataType.{is_integer, same_type};
ghost use Rattle.col_types.specs.declared.data_type.DataType.{DataType};
ghost use Rattle.col_types.specs.declared.cast_options.CastOptions.{CastOptions};
ghost use Rattle.col_model.specs.Arithmetic.{Signed, Unsigned};
ghost use Rattle.col_model.specs.CastTable.{cast_rule, rising, temporal_rule, word_rule};
ghost use Rattle.col_model.specs.CastTable.{is_boolean, is_counted, is_reread};
ghost use Rattle.col_model.specs.Formula.{X};
ghost use Rattle.col_model.specs.UnitChange.{datetime_in_unit, duration_in_unit};
ghost use Rattle.col_cast.specs.Casts.{is_plain, word_of};
ghost use Rattle.col_cast.specs.Rows.{IsRowOf, rule_of};

use col_model::{UnitChange, unit_change};
use col_types::{DataType as Type, TimeUnit};

/// What becomes of each slot.
#[derive(Clone, Copy)]
pub(crate) enum Row {
    /// The slot as it is, in the same word.
    Same,
    /// A truth value as the number 0 or 1.
    Number,
    /// A word as one of the target's.
    Reread,
    /// Whether an integer isn't 0.
    Truth,
    /// The day of a moment.
    Day(TimeUnit),
    /// Ticks of 64 bits.
    Ticks(TickRow),
}

/// What becomes of each slot of a column that is cast to ticks.
#[derive(Clone, Copy)]
pub(crate) enum TickRow {
    /// The moment at which a day begins.
    DayStart(TimeUnit),
    /// The time of a moment.
    Time(TimeUnit),
    /// A moment in another unit.
    Datetime(TimeUnit, TimeUnit),
    /// A length of time in another unit.
    Duration(TimeUnit, TimeUnit),
}

fn is_same_unit(old: TimeUnit, new: TimeUnit) -> bool
    ensures moments { result ≡ is_plain (datetime_in_unit old new X) }
    ensures lengths { result ≡ is_plain (duration_in_unit old new X) }
{
    matches!(unit_change(old, new), UnitChange::Same)
}

/// Moments of a unit as those of another one.
fn datetime_row(old: TimeUnit, new: TimeUnit) -> Row
    ensures rule { (to : DataType) (options : CastOptions) →
        Some (rule_of to options result) ≡ rising (datetime_in_unit old new X) }
    ensures row { (from to : DataType) → word_of from ≡ Some (Signed w64) →
        word_of to ≡ Some (Signed w64) → IsRowOf from to result }
{
    if is_same_unit(old, new) {
        Row::Same
    } else {
        Row::Ticks(TickRow::Datetime(old, new))
    }
}

/// Lengths of time of a unit as those of another one.
fn duration_row(old: TimeUnit, new: TimeUnit) -> Row
    ensures rule { (to : DataType) (options : CastOptions) →
        Some (rule_of to options result) ≡ rising (duration_in_unit old new X) }
    ensures row { (from to : DataType) → word_of from ≡ Some (Signed w64) →
        word_of to ≡ Some (Signed w64) → IsRowOf from to result }
{
    if is_same_unit(old, new) {
        Row::Same
    } else {
        Row::Ticks(TickRow::Duration(old, new))
    }
}

/// The row for a pair of types of dates and times that differ, or none.
fn temporal_row(from: &Type, to: &Type) -> Option<Row>
    ensures rule { (options : CastOptions) →
        option_map (rule_of to.now options) result ≡ temporal_rule from.now to.now options }
    ensures row { IfSome result (IsRowOf from.now to.now) }
{
    match (from, to) {
        (Type::Date, Type::Datetime(unit, _)) => Some(Row::Ticks(TickRow::DayStart(*unit))),
        (Type::Datetime(old, _), Type::Datetime(new, _)) => Some(datetime_row(*old, *new)),
        (Type::Datetime(unit, _), Type::Date) => Some(Row::Day(*unit)),
        (Type::Datetime(unit, _), Type::Time) => Some(Row::Ticks(TickRow::Time(*unit))),
        (Type::Duration(old), Type::Duration(new)) => Some(duration_row(*old, *new)),
        (Type::Time, Type::Duration(unit)) => Some(duration_row(TimeUnit::Nanoseconds, *unit)),
        _ => None,
    }
}

/// Whether the type is that of truth values.
fn is_boolean(dtype: &Type) -> bool
    ensures truth { result ≡ is_boolean dtype.now }
{
    matches!(dtype, Type::Boolean)
}

/// Whether a slot of the type counts something: an integer, or days or ticks.
fn is_counted(dtype: &Type) -> bool
    ensures counted { result ≡ is_counted dtype.now }
{
    dtype.is_integer() || dtype.is_temporal()
}

/// Whether a word of the one type is read as one of the other.
fn is_reread(from: &Type, to: &Type) -> bool
    ensures reread { result ≡ is_reread from.now to.now }
{
    if from.is_integer() {
        is_counted(to)
    } else {
        from.is_temporal() && to.is_integer()
    }
}

/// The row from or to an integer or a truth value, or none.
fn word_row(from: &Type, to: &Type) -> Option<Row>
    ensures rule { (options : CastOptions) →
        option_map (rule_of to.now options) result ≡ word_rule from.now to.now options }
    ensures row { IfSome result (IsRowOf from.now to.now) }
{
    if is_boolean(from) {
        return if is_counted(to) {
            Some(Row::Number)
        } else {
            None
        };
    }
    if is_boolean(to) {
        return if from.is_integer() {
            Some(Row::Truth)
        } else {
            None
        };
    }
    if is_reread(from, to) {
        Some(Row::Reread)
    } else {
        None
    }
}

/// The row from a type to a target that leaves nothing open, or none.
pub(crate) fn row_of(from: &Type, to: &Type) -> Option<Row>
    ensures rule { (options : CastOptions) →
        option_map (rule_of to.now options) result ≡ cast_rule from.now to.now options }
    ensures row { IfSome result (IsRowOf from.now to.now) }
{
    if from.is_same(to) {
        return Some(Row::Same);
    }
    match temporal_row(from, to) {
        Some(row) => Some(row),
        None => word_row(from, to),
    }
}
