// What the bytes of a token are.
ghost use Rattle.std.specs.Prelude.{◌≡◌, true, false, Some, IfSome, IfNone};
ghost use Rattle.std.specs.Char.{is_ascii_graphic};
ghost use Rattle.std.specs.List.{list_all};
ghost use Rattle.std.specs.Str.{IsUtf8, bytes_eq};
ghost use Rattle.col_text.specs.Reading.{Reads};

use crate::line_error::LineError;
use col_types::PlSmallStr;
use std::alloc::Global;

/// Whether the token has the bytes of the word.
pub(crate) fn is_word(token: &[u8], word: &str) -> bool
    ensures same { result ≡ bytes_eq token.now word.now }
{
    token == word.as_bytes()
}

/// Whether all bytes of the token are visible ones of ASCII.
pub(crate) fn are_graphic(token: &[u8]) -> bool
    ensures graphic { result ≡ list_all is_ascii_graphic token.now }
{
    token.iter().all(u8::is_ascii_graphic)
}

/// The token as a text, where all its bytes are visible ones of ASCII.
pub(crate) fn graphic_text(token: &[u8]) -> Option<&str>
    ensures graphic { IfSome result (λ text. list_all is_ascii_graphic token.now ≡ true) }
    ensures same { IfSome result (λ text. text.now ≡ token.now) }
    ensures none { IfNone result (list_all is_ascii_graphic token.now ≡ false) }
{
    if !are_graphic(token) {
        return None;
    }
    match str::from_utf8(token) {
        Ok(text) => Some(text),
        Err(_) => unreachable!(),
    }
}

/// A copy of a token that is text.
pub(crate) fn shared_text(alloc: Global, token: &[u8]) -> Result<PlSmallStr, LineError>
    requires text { IsUtf8 token.now }
    ensures same { Reads result (Some token.now) }
{
    match str::from_utf8(token) {
        Ok(text) => match PlSmallStr::from_str(alloc, text) {
            Ok(copy) => Ok(copy),
            Err(_) => Err(LineError::NoMemory),
        },
        Err(_) => unreachable!(),
    }
}
