// The slots of a column's line, read straight into the words that keep them.
ghost use Rattle.std.specs.Prelude.{◌≡◌, ◌<◌, ◌≤◌, ◌+◌, ◌++◌, ◌∷◌, [], ℕ, List, Err, IfOk, OnOk, None, length};
ghost use Rattle.std.specs.Option.{option_map};
ghost use Rattle.col_model.specs.Arithmetic.{fitting_value, is_within};
ghost use Rattle.col_model.specs.Column.{day_values};
ghost use Rattle.col_token.specs.Tokens.{words_in};
ghost use Rattle.col_text.specs.Slots.{
  DateRange,
  TickRange,
  TimeRange,
  WordRange,
  closed,
  column_slot_in,
  ends_chunk,
  interval_of,
  lengths_behind,
  lengths_from,
  lengths_in,
  slots_of_line,
  tick_slot_in,
  with_front,
  word_slot,
};
ghost use Rattle.col_text.specs.Reading.{Becomes, ReadsBy};

use crate::line_error::LineError;
use crate::ticks::{front_tick, tick};
use crate::words::is_word;
use col_chunk::{Chunk, Word, WordBuilder, WordChunk};
use col_model::ticks_per_day;
use col_token::first_token;
use col_types::TimeUnit;
use std::alloc::{AllocError, Global};

/// The values that the slots of a type have, and the words that keep them.
pub(crate) trait Values<W: Word> {
    /// Which values these are.
    ghost range: { TickRange };

    /// The word of a tick, if it is one of the values.
    fn word(tick: i64) -> Option<W>
        ensures word { option_map W.reading result ≡ fitting_value (interval_of range) tick };
}

/// The days of dates.
pub(crate) struct Days;

impl Values<i32> for Days {
    ghost range = { DateRange };

    #[inline(always)]
    fn word(tick: i64) -> Option<i32> {
        i32::from_i128(i128::from(tick))
    }
}

/// The nanoseconds of a day.
pub(crate) struct TimesOfDay;

impl Values<i64> for TimesOfDay {
    ghost range = { TimeRange };

    #[inline(always)]
    fn word(tick: i64) -> Option<i64> {
        if is_time(tick) {
            i64::from_i128(i128::from(tick))
        } else {
            None
        }
    }
}

/// All ticks of 64 bits.
pub(crate) struct Ticks;

impl Values<i64> for Ticks {
    ghost range = { WordRange };

    #[inline(always)]
    fn word(tick: i64) -> Option<i64> {
        i64::from_i128(i128::from(tick))
    }
}

/// Whether a tick is a time of the day, in nanoseconds.
#[inline(always)]
fn is_time(tick: i64) -> bool
    ensures within { result ≡ is_within day_values tick }
{
    0 <= tick && tick < ticks_per_day(TimeUnit::Nanoseconds)
}

fn ends_chunk(token: &[u8]) -> bool
    ensures end { result ≡ ends_chunk token.now }
{
    is_word(token, "|")
}

/// The slot of a tick, if it is one of the values.
fn tick_slot<W: Word, V: Values<W>>(tick: i64) -> Option<Option<W>>
    ensures slot { option_map (word_slot W.reading) result ≡ tick_slot_in V.range tick }
{
    match V::word(tick) {
        Some(word) => Some(Some(word)),
        None => None,
    }
}

/// The slot that a token spells.
fn slot<W: Word, V: Values<W>>(token: &[u8]) -> Option<Option<W>>
    ensures slot { option_map (word_slot W.reading) result ≡ column_slot_in V.range token.now }
{
    if is_word(token, "null") {
        return Some(None);
    }
    match tick(token) {
        Some(tick) => tick_slot::<W, V>(tick),
        None => None,
    }
}

/// Adds the slot that a token spells.
fn push_token<W: Word, V: Values<W>>(
    slots: &mut WordBuilder<W>,
    token: &[u8],
) -> Result<(), LineError>
    ensures slots { Becomes result slots.new
        (option_map (λ slot. slots.old ++ slot ∷ []) (column_slot_in V.range token.now)) }
{
    match slot::<W, V>(token) {
        Some(slot) => Ok(slots.push(slot)?),
        None => Err(LineError::Bad),
    }
}

/// Adds the slot of a tick.
#[inline(always)]
fn push_tick<W: Word, V: Values<W>>(slots: &mut WordBuilder<W>, tick: i64) -> Result<(), LineError>
    ensures slots { Becomes result slots.new
        (option_map (λ slot. slots.old ++ slot ∷ []) (tick_slot_in V.range tick)) }
{
    match V::word(tick) {
        Some(word) => Ok(slots.push(Some(word))?),
        None => Err(LineError::Bad),
    }
}

/// What the front of a line is: a slot, the end of a chunk, or nothing but blanks.
#[derive(Clone, Copy)]
pub(crate) enum Front {
    Slot,
    Bar,
    Blank,
}

/// Adds the slot of a line's first token, if it is one, and gives what follows it.
#[inline(always)]
fn push_front<'a, W: Word, V: Values<W>>(
    slots: &mut WordBuilder<W>,
    line: &'a [u8],
) -> Result<(Front, &'a [u8]), LineError>
    requires some { 0 < length line.now }
    ensures step { IfOk result (λ cut. with_front slots.new (slots_of_line V.range cut.1.now)
        ≡ with_front slots.old (slots_of_line V.range line.now)) }
    ensures front { IfOk result (λ cut. (n : ℕ) → lengths_from n (words_in line.now)
        ≡ lengths_behind cut.0 n (words_in cut.1.now)) }
    ensures shorter { IfOk result (λ cut. length cut.1.now < length line.now) }
    ensures bad { result ≡ Err LineError.Bad →
        with_front slots.old (slots_of_line V.range line.now) ≡ None }
{
    match front_tick(line) {
        Some((tick, rest)) => match push_tick::<W, V>(slots, tick) {
            Ok(()) => Ok((Front::Slot, rest)),
            Err(error) => Err(error),
        },
        None => match first_token(line) {
            Some((token, rest)) => {
                if ends_chunk(token) {
                    return Ok((Front::Bar, rest));
                }
                match push_token::<W, V>(slots, token) {
                    Ok(()) => Ok((Front::Slot, rest)),
                    Err(error) => Err(error),
                }
            }
            None => Ok((Front::Blank, &[])),
        },
    }
}

/// Adds the length of a chunk that ends, unless it has no slot.
fn close(lengths: &mut Vec<usize>, begun: usize) -> Result<(), AllocError>
    ensures lengths { OnOk result (lengths.new.items ≡ lengths.old.items ++ closed begun) }
{
    if begun == 0 {
        return Ok(());
    }
    lengths.push(begun)?;
    Ok(())
}

/// How many slots the last chunk has behind the front of a line. One that ends there is added to
/// the others.
#[inline(always)]
fn count(lengths: &mut Vec<usize>, begun: usize, front: Front) -> Result<usize, AllocError>
    requires room { begun < usize.MAX }
    ensures lengths { IfOk result (λ next. (tokens : List (List ℕ)) →
        lengths.new.items ++ lengths_from next tokens
        ≡ lengths.old.items ++ lengths_behind front begun tokens) }
    ensures few { IfOk result (λ next. next ≤ begun + 1) }
{
    match front {
        Front::Slot => Ok(begun + 1),
        Front::Bar => {
            close(lengths, begun)?;
            Ok(0)
        }
        Front::Blank => Ok(begun),
    }
}

/// The slots of a line in one buffer, and the lengths of its chunks.
#[derive(Drop)]
pub(crate) struct ReadSlots<W: Word> {
    pub(crate) slots: WordChunk<W>,
    pub(crate) lengths: Vec<usize>,
}

/// The slots of a line.
// A function of its own, so that its loop has the registers to itself.
#[inline(never)]
pub(crate) fn read_slots<W: Word, V: Values<W>>(
    alloc: Global,
    line: &[u8],
) -> Result<ReadSlots<W>, LineError>
    ensures slots { ReadsBy (λ read. read.slots) result (slots_of_line V.range line.now) }
    ensures lengths { IfOk result (λ read. read.lengths.items ≡ lengths_in (words_in line.now)) }
{
    let mut slots = WordChunk::<W>::builder(alloc, 0)?;
    let mut lengths = Vec::new(alloc);
    let mut begun = 0;
    let mut rest = line;
    'slots: while !rest.is_empty() {
        match push_front::<W, V>(&mut slots, rest) {
            Ok((front, more)) => {
                begun = count(&mut lengths, begun, front)?;
                rest = more;
            }
            Err(error) => return Err(error),
        }
    }
    close(&mut lengths, begun)?;
    let slots = WordChunk::build(alloc, slots)?;
    Ok(ReadSlots { slots, lengths })
}
