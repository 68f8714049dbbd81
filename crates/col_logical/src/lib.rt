//! Columns whose words are read as dates, moments, lengths of time or times of the day.
#![tactic(auto)]

mod appending;
mod changes;
mod conversions;
mod datetime;
mod duration;
mod kinds;
mod logical;
mod rules;
mod units;
mod words;

pub use changes::in_unit;
pub use conversions::{Int32Logical, Int64Logical};
pub use kinds::{DateType, DatetimeType, DurationType, LogicalKind, TimeType};
pub use logical::{DateChunked, DatetimeChunked, DurationChunked, Logical, TimeChunked};
pub use rules::{Lengths, Moments, Ticks, WrappedLengths, WrappedMoments};
pub use units::{Micros, Millis, Nanos, Unit};
pub use words::{day, day_word, kept, kept_day, tick, tick_word};
