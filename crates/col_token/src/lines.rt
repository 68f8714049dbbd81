//! The lines of a text, taken off one at a time.

ghost use Rattle.std.specs.Prelude.{◌≡◌, ◌<◌, ◌≤◌, ◌+◌, ◌∷◌, length, drop};
ghost use Rattle.std.specs.List.{position};
ghost use Rattle.std.specs.Str.Lines.{strip_carriage_return};
ghost use Rattle.col_token.specs.Lines.{lines_of, is_line_feed};
ghost use Rattle.col_token.specs.Places.{longest_text};

use memchr::memchr;

/// The most bytes of a text whose places and lines are told.
pub const MAX_TEXT: usize = 16_777_216;

fn first_line_feed(text: &[u8]) -> Option<usize>
    ensures place { result ≡ position is_line_feed text.now }
{
    memchr(b'\n', text)
}

/// The first line of a text that is not empty, without its line feed, and what follows that.
pub fn first_line(text: &[u8]) -> (&[u8], &[u8])
    requires filled { 0 < length text.now }
    ensures cut { lines_of text.now ≡ result.0.now ∷ lines_of result.1.now }
    ensures rest { result.1.now ≡ drop (length result.0.now + 1) text.now }
    ensures within { length result.0.now ≤ length text.now }
    ensures shorter { length result.1.now < length text.now }
{
    match first_line_feed(text) {
        Some(end) => (&text[..end], &text[end + 1..]),
        None => (text, &[]),
    }
}

/// A line without the carriage return at its end, if it has one there.
pub fn content(line: &[u8]) -> &[u8]
    ensures content { result.now ≡ strip_carriage_return line.now }
    ensures within { length result.now ≤ length line.now }
{
    match line {
        [front @ .., b'\r'] => front,
        _ => line,
    }
}

/// The number of lines of a text of at most `MAX_TEXT` bytes.
pub fn line_count(text: &[u8]) -> u32
    requires short { length text.now ≤ longest_text }
    ensures count { result ≡ length (lines_of text.now) }
{
    let mut count = 0;
    let mut rest = text;
    while !rest.is_empty() {
        (_, rest) = first_line(rest);
        count += 1;
    }
    count
}
