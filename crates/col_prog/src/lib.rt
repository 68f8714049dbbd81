//! Devices that bytes are read from and written to, the words of a command, and how a run ends.
#![tactic(auto)]

mod answer;
mod device;
mod reading;
mod running;
mod status;
mod value;
mod words;
mod writing;

pub use col_expr::Steps;
pub use col_types::{PlSmallStr, PolarsError, PolarsResult};
pub use device::{
    Failed, MemorySink, MemorySource, ReadSource, Sink, Source, SureSink, SureSource, WriteSink,
};
pub use reading::{MAX_SCRIPT, ReadError, read_all};
pub use running::run;
pub use status::Status;
pub use words::{Command, Words};
pub use writing::write_all;
