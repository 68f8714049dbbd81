// Laws above the definitions. Each function does nothing: its contract is the law.
ghost use Rattle.std.specs.Prelude.{ℕ, ℤ, ◌<◌};
ghost use Rattle.col_model.specs.Laws.{RoundsDown, RoundsTowardsZero};
ghost use Rattle.col_types.specs.declared.data_type.DataType.{Duration};
ghost use Rattle.col_model.specs.Laws.{KnownDatetimes, KnownDurations, KnownCasts, KnownJoins};
ghost use Rattle.col_model.specs.Laws.{KnownNumbers, KnownWordCasts};
ghost use Rattle.col_model.specs.Arithmetic.{WordType, word_values, wrapped_value, rescaled_value};
ghost use Rattle.col_model.specs.IntervalLaws.{DivisionsRoundDown, TruncatesDivisions};
ghost use Rattle.col_model.specs.RuleLaws.{CastsGiveValues, OperatorsGiveValues};
ghost use Rattle.col_model.specs.RuleLaws.{RightScalarsGiveValues, LeftScalarsGiveValues};
ghost use Rattle.col_model.specs.RuleLaws.{UnitChangesGiveValues};
ghost use Rattle.col_model.specs.IntervalLaws.{DividesByPositive, IsKeptOf, IntervalsHold};
ghost use Rattle.col_model.specs.UnitLaws.{ComesBack, IsOneCast, is_no_coarser, is_no_finer};
ghost use Rattle.col_model.specs.UnitLaws.{moments, clock_unit};
ghost use Rattle.col_types.specs.declared.data_type.DataType.{DataType};
ghost use Rattle.col_types.specs.declared.cast_options.CastOptions.{CastOptions};
ghost use Rattle.col_types.specs.KnownValues.{GivesEach};
ghost use Rattle.col_model.specs.Column.{physical_word};
ghost use Rattle.col_model.specs.CastTable.{resolved_target};
ghost use Rattle.col_model.specs.TableLaws.{StoresValues, SameTypeFirst, SettlesOnce};
ghost use Rattle.col_model.specs.TableLaws.{known_words, known_targets};
ghost use Rattle.col_model.specs.TableLaws.{KnownScalars, KnownUnitChanges};
ghost use Rattle.col_model.specs.KnownWords.{KnownEnds, known_ranges, known_rescalings};

/// The quotient by a positive number, rounded down, is the greatest whose multiple isn't above.
pub fn floor_rounds_down()
    ensures law { (x : ℤ) (k : ℕ) → 0 < k → RoundsDown x k }
{}

/// The quotient rounded towards zero of a negative number is that of its magnitude, negated.
pub fn trunc_rounds_towards_zero()
    ensures law { (n k : ℕ) → RoundsTowardsZero n k }
{}

/// Moments in other units, by hand.
pub fn known_datetimes()
    ensures values { KnownDatetimes }
{}

/// Lengths of time in other units, by hand.
pub fn known_durations()
    ensures values { KnownDurations }
{}

/// Dates, times and lengths from moments, by hand.
pub fn known_casts()
    ensures values { KnownCasts }
{}

/// Sums, differences and rests, by hand.
pub fn known_joins()
    ensures values { KnownJoins }
{}

/// Integers and truth values joined, and lengths of time with integers, by hand.
pub fn known_numbers()
    ensures values { KnownNumbers }
{}

/// Casts from and to integers and truth values, by hand.
pub fn known_word_casts()
    ensures values { KnownWordCasts }
{}

/// A slot that a cast to a finer unit leaves valid comes back as it was.
pub fn finer_and_back()
    ensures moments { ComesBack moments clock_unit }
    ensures lengths { ComesBack Duration (λ unit. unit) }
{}

/// A chain of casts between units of which none is coarser, or of which none is finer, is the one
/// cast from the first type to the last.
pub fn unit_casts_compose()
    ensures finer_moments { IsOneCast moments clock_unit is_no_coarser }
    ensures finer_lengths { IsOneCast Duration (λ unit. unit) is_no_coarser }
    ensures coarser_moments { IsOneCast moments clock_unit is_no_finer }
    ensures coarser_lengths { IsOneCast Duration (λ unit. unit) is_no_finer }
{}

/// A type has a word exactly where an integer type stores it, and the word holds its values.
pub fn words_hold_values()
    ensures stored { (dtype : DataType) → StoresValues dtype }
    ensures known { GivesEach physical_word known_words }
{}

/// A cast to the same type keeps each slot, and other pairs go by the table.
pub fn same_type_comes_first()
    ensures first { (from target : DataType) (options : CastOptions) →
        SameTypeFirst from target options }
{}

/// A settled target leaves nothing to settle, and what decimals leave open, by hand.
pub fn targets_settle_once()
    ensures once { (from target : DataType) → SettlesOnce from target }
    ensures known { GivesEach (λ pair. resolved_target pair.0 pair.1) known_targets }
{}

/// Integers beside a column, by hand.
pub fn known_scalars()
    ensures values { KnownScalars }
{}

/// Changes of a column's unit, by hand.
pub fn known_unit_changes()
    ensures values { KnownUnitChanges }
{}

/// Words at their ends, by hand.
pub fn known_ends()
    ensures ranges { GivesEach word_values known_ranges }
    ensures ends { KnownEnds }
{}

/// Decimals at other scales, by hand.
pub fn known_rescalings()
    ensures values { GivesEach (λ row. rescaled_value row.1 row.2 row.3 row.0) known_rescalings }
{}

/// The quotient rounded down is the greatest integer whose multiple by the divisor doesn't pass
/// the dividend, seen in the divisor's direction, and the rest lies between 0 and the divisor.
pub fn divisions_round_down()
    ensures law { DivisionsRoundDown }
{}

/// The quotient rounded towards zero turns its sign with either side.
pub fn divisions_truncate()
    ensures law { TruncatesDivisions }
{}

/// The quotients by a positive number are those by an integer.
pub fn divisions_by_positive()
    ensures law { (x : ℤ) (k : ℕ) → DividesByPositive x k }
{}

/// A word keeps an integer of its own, which differs by a multiple of 2 to its width.
pub fn words_keep()
    ensures law { (word : WordType) (x : ℤ) → IsKeptOf word x (wrapped_value word x) }
{}

/// A formula that has an interval loses no value, wraps none, and gives none outside it.
pub fn intervals_hold()
    ensures law { IntervalsHold }
{}

/// Each rule of the tables gives values of its answer's type.
pub fn rules_give_values()
    ensures casts { CastsGiveValues }
    ensures operators { OperatorsGiveValues }
    ensures right_scalars { RightScalarsGiveValues }
    ensures left_scalars { LeftScalarsGiveValues }
    ensures unit_changes { UnitChangesGiveValues }
{}
