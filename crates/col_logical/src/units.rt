//! Units as types, so that a loop divides by constants.

ghost use Rattle.std.specs.Prelude.{◌≡◌};
ghost use Rattle.col_types.specs.declared.time_unit.TimeUnit.{TimeUnit};
ghost use Rattle.col_types.specs.declared.time_unit.TimeUnit.TheVariants.{Nanoseconds, Microseconds};
ghost use Rattle.col_types.specs.declared.time_unit.TimeUnit.TheVariants.{Milliseconds};

use col_types::TimeUnit as AnyUnit;

/// A unit.
pub trait Unit {
    /// Which one.
    ghost unit: { TimeUnit };

    /// The unit.
    fn get() -> AnyUnit
        ensures unit { result ≡ unit };
}

/// Nanoseconds.
pub struct Nanos;

impl Unit for Nanos {
    ghost unit = { Nanoseconds };

    fn get() -> AnyUnit {
        AnyUnit::Nanoseconds
    }
}

/// Microseconds.
pub struct Micros;

impl Unit for Micros {
    ghost unit = { Microseconds };

    fn get() -> AnyUnit {
        AnyUnit::Microseconds
    }
}

/// Milliseconds.
pub struct Millis;

impl Unit for Millis {
    ghost unit = { Milliseconds };

    fn get() -> AnyUnit {
        AnyUnit::Milliseconds
    }
}
