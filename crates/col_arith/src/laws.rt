// Laws of operators. Each function does nothing: its contract is the law.
ghost use Rattle.std.specs.Prelude.{ℕ, List, Option};
ghost use Rattle.col_types.specs.declared.time_unit.TimeUnit.{TimeUnit};
ghost use Rattle.col_model.specs.Column.{Column};
ghost use Rattle.col_arith.specs.Laws.{AddThenSubtract, SubtractThenAdd};

/// A length of time that is added to a moment and taken away again leaves the moment.
pub fn add_then_subtract()
    ensures law { (moments lengths : Column) (unit : TimeUnit) (zone : Option (List ℕ))
        → AddThenSubtract moments lengths unit zone }
{}

/// A date and what lies between it and another give the other.
pub fn subtract_then_add()
    ensures law { (dates others : Column) → SubtractThenAdd dates others }
{}
