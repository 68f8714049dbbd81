//! What is read of a chunk of runs: parts of its leaf, for as long as it is borrowed.
#![tactic(auto, using(crate::proofs::RunLaws::run_laws))]

ghost use Rattle.std.specs.Prelude.{◌≡◌, ◌+◌, ◌<◌, ◌≤◌, true, IfSome, None, length, take, drop, slice_index_or};
ghost use Rattle.std.specs.Option.{option_map};
ghost use Rattle.col_model.specs.Value.{Value};

use crate::runs::bounds;
use crate::{Reading, RunChunk};
use col_buffer::is_valid;
use col_chunk::{Chunk, View};

/// A part of a leaf.
#[derive(Clone, Copy)]
pub struct RunView<'a, L> {
    pub leaf: &'a L,
    pub start: usize,
    pub len: usize,
}

impl<L: Chunk, R: Reading> RunChunk<L, R> {
    /// The run of a row.
    pub fn run(&self, index: usize) -> Option<RunView<'_, L>>
        requires inside { index < length self.now }
        ensures slot { option_map (λ run. R.reading
            (take run.len (drop run.start (L.slots run.leaf.now)))) result
            ≡ slice_index_or self.now index None }
        ensures inside { IfSome result (λ run.
            run.start + run.len ≤ length (L.slots run.leaf.now)) }
        ensures fits { IfSome result (λ run. R.is_value (R.reading
            (take run.len (drop run.start (L.slots run.leaf.now)))) ≡ true) }
    {
        let place = self.offset + index;
        if is_valid(&self.validity, place) {
            let (start, len) = bounds(&self.leaf, &self.ends, place);
            Some(RunView {
                leaf: &self.leaf,
                start,
                len,
            })
        } else {
            None
        }
    }
}

/// What a reader is given of a run.
pub trait Reader<'a, L: Chunk + 'a>: Reading {
    type Row;

    /// The value that was given.
    ghost value_of: { Self.Row → Value };

    /// The value of a run.
    fn read(leaf: &'a L, start: usize, len: usize) -> Self::Row
        requires inside { start + len ≤ length (L.slots leaf.now) }
        requires fits { Self.is_value (Self.reading
            (take len (drop start (L.slots leaf.now)))) ≡ true }
        ensures value { value_of result
            ≡ Self.reading (take len (drop start (L.slots leaf.now))) };
}

impl<'a, L: Chunk + 'a, R: Reader<'a, L>> View<'a> for RunChunk<L, R> {
    type Slot = Option<R::Row>;

    ghost slot_of = { λ slot. option_map R.value_of slot };

    fn get(&'a self, index: usize) -> Option<R::Row> {
        match self.run(index) {
            Some(run) => Some(R::read(run.leaf, run.start, run.len)),
            None => None,
        }
    }
}
