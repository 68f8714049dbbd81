//! Civil values of columns of days and ticks: dates, moments, lengths of time and times of the day
//! of the library jiff.
#![tactic(auto)]

mod dates;
mod datetimes;
mod durations;
mod items;
mod iterators;
mod laws;
mod rules;
mod slots;
mod ticks;
mod times;

pub use dates::CivilDates;
pub use datetimes::CivilDatetimes;
pub use durations::CivilDurations;
pub use iterators::{DateIter, DatetimeIter, TimeIter};
pub use laws::dates_come_back;
pub use ticks::{
    datetime_to_timestamp_ms, datetime_to_timestamp_ns, datetime_to_timestamp_us, time_to_time64ns,
};
pub use times::CivilTimes;
