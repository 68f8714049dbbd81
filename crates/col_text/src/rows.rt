// The lines of a column's slots.
ghost use Rattle.std.specs.Prelude.{◌≡◌, ◌≤◌, ◌+◌, ◌-◌, ◌++◌, ◌∷◌, [], OnOk, Some, length, drop};
ghost use Rattle.std.specs.List.{flat_map};
ghost use Rattle.std.specs.Fmt.{signed_decimal};
ghost use Rattle.col_buffer.specs.Validity.{Reaches, masked, slot_if};
ghost use Rattle.col_chunk.specs.Chunks.{joined};
ghost use Rattle.col_text.specs.Answer.{line_feed, line_of, slot_line};

use col_buffer::is_set;
use col_chunk::{Word, WordChunk};
use itoa::write_digits;
use std::alloc::AllocError;

/// A word that keeps a tick.
pub(crate) trait TickWord: Word {
    /// The tick.
    fn tick(self) -> i64
        ensures tick { result ≡ Self.reading self };
}

impl TickWord for i32 {
    #[inline(always)]
    #[tactic(auto, using(crate::proofs::RowLemmas::readings))]
    fn tick(self) -> i64 {
        i64::from(self)
    }
}

impl TickWord for i64 {
    #[inline(always)]
    #[tactic(auto, using(crate::proofs::RowLemmas::readings))]
    fn tick(self) -> i64 {
        self
    }
}

/// A sign, 19 digits and a line feed.
const LONGEST_LINE: usize = 21;

/// Writes the line of a tick at the end of the buffer, where its line feed stands already, and
/// tells where it begins.
fn write_tick(line: &mut [u8], tick: i64) -> usize
    requires size { length line.old ≡ LONGEST_LINE }
    requires end { drop (LONGEST_LINE - 1) line.old ≡ line_feed ∷ [] }
    ensures start { result ≤ LONGEST_LINE }
    ensures written { drop result line.new ≡ line_of (signed_decimal tick) }
    ensures end { drop (LONGEST_LINE - 1) line.new ≡ line_feed ∷ [] }
{
    let start = write_digits(tick.unsigned_abs(), line, LONGEST_LINE - 1);
    if tick >= 0 {
        return start;
    }
    line[start - 1] = b'-';
    start - 1
}

/// Adds the line of a tick, in one piece.
fn push_tick(text: &mut Vec<u8>, line: &mut [u8], tick: i64) -> Result<(), AllocError>
    requires size { length line.old ≡ LONGEST_LINE }
    requires end { drop (LONGEST_LINE - 1) line.old ≡ line_feed ∷ [] }
    ensures text { OnOk result (text.new.items ≡ text.old.items
        ++ line_of (signed_decimal tick)) }
    ensures end { drop (LONGEST_LINE - 1) line.new ≡ line_feed ∷ [] }
{
    let start = write_tick(line, tick);
    text.extend_from_slice(&line[start..])
}

/// Adds the line of a word, or that of a null.
fn push_slot<W: TickWord>(
    text: &mut Vec<u8>,
    line: &mut [u8],
    value: W,
    valid: bool,
) -> Result<(), AllocError>
    requires size { length line.old ≡ LONGEST_LINE }
    requires end { drop (LONGEST_LINE - 1) line.old ≡ line_feed ∷ [] }
    ensures text { OnOk result (text.new.items ≡ text.old.items
        ++ slot_line (slot_if W.reading valid value)) }
    ensures end { drop (LONGEST_LINE - 1) line.new ≡ line_feed ∷ [] }
{
    if valid {
        push_tick(text, line, value.tick())
    } else {
        text.extend_from_slice(b"null\n")
    }
}

/// Adds the lines of words that are all valid.
// A function of its own, so that its loop has the registers to itself.
#[inline(never)]
fn push_plain<W: TickWord>(text: &mut Vec<u8>, values: &[W]) -> Result<(), AllocError>
    ensures text { OnOk result (text.new.items ≡ text.old.items
        ++ flat_map (λ word. line_of (signed_decimal (W.reading word))) values.now) }
{
    let mut line = [b'\n'; LONGEST_LINE];
    for value in values {
        push_tick(text, &mut line, value.tick())?;
    }
    Ok(())
}

/// Adds the lines of words that are valid where the bits from an offset on are set.
#[inline(never)]
fn push_marked<W: TickWord>(
    text: &mut Vec<u8>,
    values: &[W],
    words: &[u64],
    offset: usize,
) -> Result<(), AllocError>
    requires reach { Reaches (Some words.now) (offset + length values.now) }
    requires fits { offset + length values.now ≤ usize.MAX }
    ensures text { OnOk result (text.new.items ≡ text.old.items
        ++ flat_map slot_line (masked W.reading (Some words.now) offset values.now)) }
{
    let mut line = [b'\n'; LONGEST_LINE];
    for at in 0..values.len() {
        let value = values[at];
        let valid = is_set(words, offset + at);
        push_slot(text, &mut line, value, valid)?;
    }
    Ok(())
}

/// Adds the lines of a chunk.
fn push_chunk<W: TickWord>(text: &mut Vec<u8>, chunk: &WordChunk<W>) -> Result<(), AllocError>
    ensures text { OnOk result (text.new.items ≡ text.old.items
        ++ flat_map slot_line chunk.now) }
{
    let (values, validity, offset) = chunk.buffers();
    match validity {
        None => push_plain(text, values),
        Some(words) => push_marked(text, values, words, offset),
    }
}

/// Adds the lines of chunks.
pub(crate) fn push_chunks<W: TickWord>(
    text: &mut Vec<u8>,
    chunks: &[WordChunk<W>],
) -> Result<(), AllocError>
    ensures text { OnOk result (text.new.items ≡ text.old.items
        ++ flat_map slot_line (joined (λ chunk. chunk) chunks.now)) }
{
    for chunk in chunks {
        push_chunk(text, chunk)?;
    }
    Ok(())
}
