//! Rows put behind others of one type.

ghost use Rattle.std.specs.Prelude.{◌≡◌};
ghost use Rattle.col_types.specs.PolarsError.{Becomes};
ghost use Rattle.col_model.specs.ChunkCalls.{TakesOver, appended, extended};

use crate::{Logical, LogicalKind};
use col_chunk::Word;
use col_types::{PolarsError, PolarsResult};

impl<K: LogicalKind, T: Word> Logical<K, T> {
    /// Puts the rows of another column behind these, in its chunks. Refused at 2^32 rows or more
    /// (`TooLong`).
    pub fn append(&mut self, other: &Self) -> PolarsResult<()>
        requires dtype { other.now.column.dtype ≡ self.old.column.dtype }
        ensures column { Becomes result self.old self.new (appended self.old other.now) }
    {
        self.phys.append(&other.phys)
    }

    /// Writes the rows of another column behind these, into the last chunk. Refused at 2^32 rows or
    /// more (`TooLong`).
    pub fn extend(&mut self, other: &Self) -> PolarsResult<()>
        requires dtype { other.now.column.dtype ≡ self.old.column.dtype }
        ensures column { Becomes result self.old self.new (extended self.old other.now) }
    {
        self.phys.extend(&other.phys)
    }

    /// Takes the rows of another column over, in its chunks. Where it is refused, the other column
    /// is handed back.
    pub fn append_owned(&mut self, other: Self) -> Result<(), (Self, PolarsError)>
        requires dtype { other.column.dtype ≡ self.old.column.dtype }
        ensures column { TakesOver result self.old self.new other (appended self.old other) }
    {
        match self.append(&other) {
            Ok(()) => Ok(()),
            Err(refusal) => Err((other, refusal)),
        }
    }
}
