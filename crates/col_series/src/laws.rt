// Laws of columns. Each function does nothing: its contract is the law.
ghost use Rattle.std.specs.Prelude.{◌≡◌};
ghost use Rattle.col_types.specs.declared.cast_options.CastOptions.{CastOptions};
ghost use Rattle.col_types.specs.declared.data_type.DataType.{Time};
ghost use Rattle.col_model.specs.Column.{Column, IsValidColumn};
ghost use Rattle.col_series.specs.Laws.{KeepsColumn, TimesLieInTheDay};

/// A cast to the column's own type keeps name, type and slots.
pub fn own_type_keeps_column()
    ensures law { (column : Column) (options : CastOptions) → IsValidColumn column
        → KeepsColumn column options }
{}

/// Each valid slot of a column of times lies in the day, from 0 to 86,399,999,999,999 nanoseconds.
pub fn times_lie_in_the_day()
    ensures law { (column : Column) → IsValidColumn column → column.dtype ≡ Time
        → TimesLieInTheDay column }
{}
