//! The tokens of a text, each with its place and its line.

ghost use Rattle.std.specs.Prelude.{◌≡◌, ◌≤◌, ◌+◌, ◌∷◌, ◌++◌, [], List, length, IfSome, IfNone, All};
ghost use Rattle.col_token.specs.Lines.{lines_of};
ghost use Rattle.col_token.specs.Places.{
  PlacedToken,
  StandsIn,
  longest_text,
  placed_lines,
  placed_token,
  placed_tokens,
  placed_words,
};

use crate::lines::{content, first_line};
use crate::words::first_token;
use std::marker::Model;

/// A token of a text: its bytes, the place of the first one from 0, and its line from 1.
#[derive(Clone, Copy, Debug, Drop, PartialEq, Eq)]
pub struct Token<'a> {
    pub text: &'a [u8],
    pub start: usize,
    pub line: u32,
}

/// A reader of the tokens of a text.
#[derive(Drop)]
pub struct Tokens<'a> {
    // What is left of the line that is being read, the place of its first byte and its number.
    words: &'a [u8],
    start: usize,
    line: u32,
    // The lines behind it, and the place of their first byte.
    rest: &'a [u8],
    rest_start: usize,
}

impl<'a> Model for Tokens<'a> {
    ghost Value = { List PlacedToken };

    ghost view = { λ t. placed_words t.start t.line t.words.now
        ++ placed_lines t.rest_start (t.line + 1) (lines_of t.rest.now) };

    ghost invariant = { λ t. (t.line + length t.rest.now ≤ longest_text)
        × (t.start + length t.words.now ≤ longest_text)
        × (t.rest_start + length t.rest.now ≤ longest_text) };
}

impl<'a> Tokens<'a> {
    /// A reader before the first token of a text of at most 16_777_216 bytes.
    pub fn new(text: &'a [u8]) -> Tokens<'a>
        requires short { length text.now ≤ longest_text }
        ensures tokens { result ≡ placed_tokens text.now }
        ensures places { All (StandsIn text.now) result }
    {
        Tokens {
            words: &[],
            start: 0,
            line: 0,
            rest: text,
            rest_start: 0,
        }
    }

    /// The next token, in the order of the text, or `None` behind the last one.
    pub fn next(&mut self) -> Option<Token<'a>>
        ensures first { IfSome result (λ t.
            self.old ≡ placed_token t.text.now t.start t.line ∷ self.new) }
        ensures none { IfNone result (self.old ≡ []) }
        ensures ended { IfNone result (self.new ≡ []) }
    {
        loop {
            if let Some((text, words)) = first_token(self.words) {
                let start = self.start + (self.words.len() - words.len() - text.len());
                self.start = start + text.len();
                self.words = words;
                return Some(Token {
                    text,
                    start,
                    line: self.line,
                });
            }
            if self.rest.is_empty() {
                return None;
            }
            let (line, rest) = first_line(self.rest);
            self.words = content(line);
            self.start = self.rest_start;
            self.line += 1;
            self.rest_start += self.rest.len() - rest.len();
            self.rest = rest;
        }
    }
}
