//! The words of casts: each knows whether it is one of those in which days, ticks and truth values
//! are kept.

ghost use Rattle.std.specs.Prelude.{◌≡◌, true, IfSome, Some, is_some};
ghost use Rattle.std.specs.Int.{w32, w64};
ghost use Rattle.col_model.specs.Arithmetic.{Signed};
ghost use Rattle.col_cast.specs.Passed.{days_in, made_array, made_lost, made_word, ticks_in};

use col_chunk::{ChunkedArray, Int32Chunked, Int64Chunked, Word};
use col_rule::ChangedArray;

/// A column of words, where they are as wide as those of days or of ticks.
#[derive(Drop)]
pub enum Stored<'a> {
    Days(&'a Int32Chunked),
    Ticks(&'a Int64Chunked),
    Others,
}

/// What a cast makes that gives days, ticks or truth values.
#[derive(Drop)]
pub enum Made {
    Days(ChangedArray<i32>),
    Ticks(ChangedArray<i64>),
    Truths(ChangedArray<u8>),
}

/// A word that casts lead from and to. So that dates and times have loops of their own words alone,
/// each word says whether it is one of theirs.
pub trait CastWord: Word {
    /// The column as one of days or of ticks, where these are kept in such words.
    fn stored(values: &ChunkedArray<Self>) -> Stored<'_>
        ensures days { Self.word_type ≡ Signed w32 → days_in result ≡ Some values.now }
        ensures ticks { Self.word_type ≡ Signed w64 → ticks_in result ≡ Some values.now };

    /// What a cast made as a column of such words, none where it is of others.
    fn passed(made: Made) -> Option<ChangedArray<Self>>
        ensures array { IfSome result (λ changed. changed.array ≡ made_array made) }
        ensures lost { IfSome result (λ changed. changed.lost ≡ made_lost made) }
        ensures own { Self.word_type ≡ made_word made → is_some result ≡ true };
}

impl CastWord for i32 {
    fn stored(values: &Int32Chunked) -> Stored<'_> {
        Stored::Days(values)
    }

    fn passed(made: Made) -> Option<ChangedArray<i32>> {
        match made {
            Made::Days(changed) => Some(changed),
            _ => None,
        }
    }
}

impl CastWord for i64 {
    fn stored(values: &Int64Chunked) -> Stored<'_> {
        Stored::Ticks(values)
    }

    fn passed(made: Made) -> Option<ChangedArray<i64>> {
        match made {
            Made::Ticks(changed) => Some(changed),
            _ => None,
        }
    }
}

impl CastWord for u8 {
    fn stored(_values: &ChunkedArray<u8>) -> Stored<'_> {
        Stored::Others
    }

    fn passed(made: Made) -> Option<ChangedArray<u8>> {
        match made {
            Made::Truths(changed) => Some(changed),
            _ => None,
        }
    }
}

impl CastWord for i8 {
    fn stored(_values: &ChunkedArray<i8>) -> Stored<'_> {
        Stored::Others
    }

    fn passed(_made: Made) -> Option<ChangedArray<i8>> {
        None
    }
}

impl CastWord for i16 {
    fn stored(_values: &ChunkedArray<i16>) -> Stored<'_> {
        Stored::Others
    }

    fn passed(_made: Made) -> Option<ChangedArray<i16>> {
        None
    }
}

impl CastWord for i128 {
    fn stored(_values: &ChunkedArray<i128>) -> Stored<'_> {
        Stored::Others
    }

    fn passed(_made: Made) -> Option<ChangedArray<i128>> {
        None
    }
}

impl CastWord for u16 {
    fn stored(_values: &ChunkedArray<u16>) -> Stored<'_> {
        Stored::Others
    }

    fn passed(_made: Made) -> Option<ChangedArray<u16>> {
        None
    }
}

impl CastWord for u32 {
    fn stored(_values: &ChunkedArray<u32>) -> Stored<'_> {
        Stored::Others
    }

    fn passed(_made: Made) -> Option<ChangedArray<u32>> {
        None
    }
}

impl CastWord for u64 {
    fn stored(_values: &ChunkedArray<u64>) -> Stored<'_> {
        Stored::Others
    }

    fn passed(_made: Made) -> Option<ChangedArray<u64>> {
        None
    }
}
