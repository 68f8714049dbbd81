// The units of ticks.
ghost use Rattle.std.specs.Prelude.{◌≡◌, Some};
ghost use Rattle.col_types.specs.TimeUnit.{unit_name, unit_symbol, nanos_per_tick};
ghost use Rattle.col_types.specs.TimeUnit.{coarser_unit, to_arrow, from_arrow};

use std::fmt;

/// The nanoseconds of a day.
pub const NANOS_PER_DAY: i64 = 86_400_000_000_000;

/// The milliseconds of a day.
pub const MILLIS_PER_DAY: i64 = 86_400_000;

/// The length of a tick, finest first.
#[derive(Clone, Copy, Debug, PartialEq, Eq, PartialOrd, Hash)]
pub enum TimeUnit {
    Nanoseconds,
    Microseconds,
    Milliseconds,
}

/// The units that Arrow has, which is one more.
#[derive(Clone, Copy, Debug, PartialEq, Eq)]
pub enum ArrowTimeUnit {
    Second,
    Millisecond,
    Microsecond,
    Nanosecond,
}

impl TimeUnit {
    /// The name in ASCII: `ns`, `us` or `ms`.
    pub fn to_ascii(self) -> &'static str
        ensures name { result.now ≡ unit_name self }
    {
        match self {
            TimeUnit::Nanoseconds => "ns",
            TimeUnit::Microseconds => "us",
            TimeUnit::Milliseconds => "ms",
        }
    }

    /// How many nanoseconds a tick lasts.
    #[inline(always)]
    pub fn nanos_per_tick(self) -> u32
        ensures value { result ≡ nanos_per_tick self }
    {
        match self {
            TimeUnit::Nanoseconds => 1,
            TimeUnit::Microseconds => 1_000,
            TimeUnit::Milliseconds => 1_000_000,
        }
    }

    /// Arrow's unit of that name.
    pub fn to_arrow(self) -> ArrowTimeUnit
        ensures unit { result ≡ to_arrow self }
    {
        match self {
            TimeUnit::Nanoseconds => ArrowTimeUnit::Nanosecond,
            TimeUnit::Microseconds => ArrowTimeUnit::Microsecond,
            TimeUnit::Milliseconds => ArrowTimeUnit::Millisecond,
        }
    }

    // The name as it is printed: in Greek letters where it is not in ASCII.
    fn symbol(self) -> &'static str
        ensures symbol { result.now ≡ unit_symbol self }
    {
        match self {
            TimeUnit::Nanoseconds => "ns",
            TimeUnit::Microseconds => "μs",
            TimeUnit::Milliseconds => "ms",
        }
    }
}

impl fmt::Display for TimeUnit {
    ghost output = { λ unit. Some (unit_symbol unit) };

    fn fmt<W: fmt::Write>(&self, f: &mut fmt::Formatter<W>) -> fmt::Result {
        f.write_str(self.symbol())
    }
}

impl From<&ArrowTimeUnit> for TimeUnit {
    ghost from_gives = { λ given unit. unit ≡ from_arrow given.now };

    fn from(given: &ArrowTimeUnit) -> Self {
        match given {
            ArrowTimeUnit::Nanosecond => TimeUnit::Nanoseconds,
            ArrowTimeUnit::Microsecond => TimeUnit::Microseconds,
            ArrowTimeUnit::Millisecond | ArrowTimeUnit::Second => TimeUnit::Milliseconds,
        }
    }
}

/// The coarser of two units.
pub fn get_time_units(left: TimeUnit, right: TimeUnit) -> TimeUnit
    ensures unit { result ≡ coarser_unit left right }
{
    if left < right { right } else { left }
}
