// How many rows the chunks of a column have to have.
use col_chunk::Int64Chunked;

/// The rows of each chunk.
#[derive(Clone, Copy)]
pub enum Lengths<'a> {
    /// One chunk of so many rows.
    One(usize),
    /// So many chunks of one row.
    Rows(usize),
    /// Those of a column.
    Same(&'a Int64Chunked),
    /// Those of a column, and those of another one behind them.
    Followed(&'a Int64Chunked, &'a Int64Chunked),
    /// Those of a column, the last of them so much longer.
    Extended(&'a Int64Chunked, usize),
}

impl Lengths<'_> {
    pub fn count(&self) -> usize {
        match self {
            Lengths::One(_) => 1,
            Lengths::Rows(rows) => *rows,
            Lengths::Same(column) => column.n_chunks(),
            Lengths::Followed(column, behind) => {
                column.n_chunks().saturating_add(behind.n_chunks())
            }
            Lengths::Extended(column, _) => column.n_chunks().max(1),
        }
    }

    /// The rows of a chunk.
    pub fn length(&self, index: usize) -> usize {
        match self {
            Lengths::One(rows) => *rows,
            Lengths::Rows(_) => 1,
            Lengths::Same(column) => length_of(column, index),
            Lengths::Followed(column, behind) => {
                let count = column.n_chunks();
                if index < count {
                    length_of(column, index)
                } else {
                    length_of(behind, index - count)
                }
            }
            Lengths::Extended(column, rows) => {
                let length = length_of(column, index);
                if index < column.n_chunks().saturating_sub(1) {
                    length
                } else {
                    length.saturating_add(*rows)
                }
            }
        }
    }
}

/// The rows of a chunk, none where there is no such chunk.
fn length_of(column: &Int64Chunked, index: usize) -> usize {
    if index < column.n_chunks() {
        column.chunk_len(index)
    } else {
        0
    }
}
