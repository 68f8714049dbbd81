//! Bytes and texts as readings of plain bytes, and what is read and written of both.
#![tactic(auto, using(crate::proofs::ByteLaws::byte_laws))]

ghost use Rattle.std.specs.Prelude.{◌≡◌, ◌+◌, ◌<◌, ◌≤◌, ◌∷◌, ◌++◌, [], ℕ, true, refl, List, Option, IfSome, OnOk, Some, None, length, map, take, drop, slice_index_or};
ghost use Rattle.std.specs.Option.{option_map};
ghost use Rattle.std.proofs.lemmas.Str.{IsUtf8-append, IsUtf8-from_is_utf8, is_utf8-from_IsUtf8};
ghost use Rattle.col_types.specs.declared.data_type.DataType.{Binary, String as StringType};
ghost use Rattle.col_model.specs.Value.{Value};
ghost use Rattle.col_string.specs.Texts.{byte_slot, bytes_reading, bytes_value, is_bytes_value, is_text_value, joined_bytes};

use crate::runs::last_end;
use crate::{PlainBytes, Reader, Reading, RunBuilder, RunChunk};
use col_buffer::add_valid;
use std::alloc::AllocError;

/// Runs of bytes are bytes.
#[derive(Drop)]
pub struct AsBytes;

impl Reading for AsBytes {
    ghost dtype = { Binary };

    ghost reading = { bytes_reading };

    ghost is_value = { is_bytes_value };

    fn mark() {}
}

/// Runs of bytes are texts: they are in UTF-8.
#[derive(Drop)]
pub struct AsText;

impl Reading for AsText {
    ghost dtype = { StringType };

    ghost reading = { bytes_reading };

    ghost is_value = { is_text_value };

    fn mark() {}
}

/// A reading of bytes whose values may stand behind one another.
pub trait ByteReading: Reading {
    /// A run is the value of its bytes.
    ghost reads: { (run : List (Option Value)) → Self.reading run ≡ bytes_reading run };

    /// Two values behind each other are a value.
    ghost joins: { (a b : List ℕ) → Self.is_value (bytes_value a) ≡ true
        → Self.is_value (bytes_value b) ≡ true → Self.is_value (bytes_value (a ++ b)) ≡ true };
}

impl ByteReading for AsBytes {
    ghost reads = { λ run. refl };

    ghost joins = { λ a b left right. refl };
}

impl ByteReading for AsText {
    ghost reads = { λ run. refl };

    ghost joins = { λ a b left right. is_utf8-from_IsUtf8 (a ++ b)
        (IsUtf8-append a b (IsUtf8-from_is_utf8 a left) (IsUtf8-from_is_utf8 b right)) };
}

impl<'a> Reader<'a, PlainBytes> for AsBytes {
    type Row = &'a [u8];

    ghost value_of = { λ bytes. bytes_value bytes.now };

    fn read(leaf: &'a PlainBytes, start: usize, len: usize) -> &'a [u8] {
        bytes_in(leaf, start, len)
    }
}

impl<'a> Reader<'a, PlainBytes> for AsText {
    type Row = &'a str;

    ghost value_of = { λ text. bytes_value text.now };

    fn read(leaf: &'a PlainBytes, start: usize, len: usize) -> &'a str {
        let bytes = bytes_in(leaf, start, len);
        unsafe { std::str::from_utf8_unchecked(bytes) }
    }
}

/// The bytes of a part.
fn bytes_in(leaf: &PlainBytes, start: usize, len: usize) -> &[u8]
    requires inside { start + len ≤ length leaf.now }
    ensures bytes { bytes_value result.now
        ≡ bytes_reading (take len (drop start (map byte_slot leaf.now))) }
{
    &leaf.bytes()[start..start + len]
}

/// The bytes of a row.
pub(crate) fn bytes_at<R: ByteReading>(
    chunk: &RunChunk<PlainBytes, R>,
    index: usize,
) -> Option<&[u8]>
    requires inside { index < length chunk.now }
    ensures slot { option_map (λ bytes. bytes_value bytes.now) result
        ≡ slice_index_or chunk.now index None }
    ensures fits { IfSome result (λ bytes. R.is_value (bytes_value bytes.now) ≡ true) }
{
    match chunk.run(index) {
        Some(run) => Some(bytes_in(run.leaf, run.start, run.len)),
        None => None,
    }
}

impl<R: ByteReading> RunBuilder<PlainBytes, R> {
    /// Writes the bytes of both as one slot behind those that were written.
    pub(crate) fn push_joined(&mut self, left: &[u8], right: &[u8]) -> Result<(), AllocError>
        requires fits { R.is_value (bytes_value (left.now ++ right.now)) ≡ true }
        ensures slots { OnOk result (self.new
            ≡ self.old ++ Some (bytes_value (left.now ++ right.now)) ∷ []) }
    {
        let end = match last_end(self.ends.as_slice()).checked_add(left.len()) {
            Some(end) => end,
            None => return Err(AllocError),
        };
        let end = match end.checked_add(right.len()) {
            Some(end) => end,
            None => return Err(AllocError),
        };
        let mut items = match self.leaf.take() {
            Some(items) => items,
            None => return Err(AllocError),
        };
        items.extend_from_slice(left)?;
        items.extend_from_slice(right)?;
        let place = self.ends.len();
        add_valid(*self.ends.allocator(), &mut self.validity, place, true)?;
        self.ends.push(end)?;
        self.leaf = Some(items);
        Ok(())
    }

    /// Writes bytes as one slot behind those that were written.
    pub(crate) fn push_bytes(&mut self, bytes: &[u8]) -> Result<(), AllocError>
        requires fits { R.is_value (bytes_value bytes.now) ≡ true }
        ensures slots { OnOk result (self.new ≡ self.old ++ Some (bytes_value bytes.now) ∷ []) }
    {
        self.push_joined(&[], bytes)
    }

    /// Writes the bytes of both slots as one slot behind those that were written, null where one
    /// is.
    pub(crate) fn push_both(
        &mut self,
        left: Option<&[u8]>,
        right: Option<&[u8]>,
    ) -> Result<(), AllocError>
        requires left { IfSome left (λ bytes. R.is_value (bytes_value bytes.now) ≡ true) }
        requires right { IfSome right (λ bytes. R.is_value (bytes_value bytes.now) ≡ true) }
        ensures slots { OnOk result (self.new ≡ self.old ++ joined_bytes
            (option_map (λ bytes. bytes_value bytes.now) left.entry)
            (option_map (λ bytes. bytes_value bytes.now) right.entry) ∷ []) }
    {
        match left {
            None => self.push_null(),
            Some(left) => match right {
                None => self.push_null(),
                Some(right) => self.push_joined(left, right),
            },
        }
    }
}
