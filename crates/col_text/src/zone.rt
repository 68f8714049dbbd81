// The line of a zone.
ghost use Rattle.std.specs.Prelude.{◌≡◌, ◌∷◌, [], true, IfOk};
ghost use Rattle.std.specs.List.{list_all};
ghost use Rattle.col_token.specs.Tokens.{words_in};
ghost use Rattle.col_text.specs.Reading.{Reads};
ghost use Rattle.col_text.specs.Zone.{is_zone_byte, is_zone_name, zone_line};

use crate::line_error::LineError;
use crate::words::shared_text;
use col_token::first_token;
use col_types::{MAX_ZONE_BYTES, PlSmallStr};
use std::alloc::Global;

fn is_zone_byte(byte: u8) -> bool
    ensures value { result ≡ is_zone_byte byte }
{
    byte.is_ascii_alphanumeric() || matches!(byte, b'/' | b'_' | b'+' | b'-' | b':')
}

fn are_zone_bytes(token: &[u8]) -> bool
    ensures all { result ≡ list_all is_zone_byte token.now }
{
    token.iter().all(|byte| is_zone_byte(*byte))
}

fn is_zone_name(token: &[u8]) -> bool
    ensures name { result ≡ is_zone_name token.now }
{
    !token.is_empty() && token.len() <= MAX_ZONE_BYTES && are_zone_bytes(token)
}

fn zone_of(alloc: Global, name: &[u8]) -> Result<PlSmallStr, LineError>
    ensures name { Reads result (zone_line (name.now ∷ [])) }
    ensures named { IfOk result (λ name. is_zone_name name ≡ true) }
{
    if is_zone_name(name) {
        shared_text(alloc, name)
    } else {
        Err(LineError::Bad)
    }
}

/// The zone that stands behind `zone`: one name.
pub(crate) fn zone_line(alloc: Global, line: &[u8]) -> Result<PlSmallStr, LineError>
    ensures name { Reads result (zone_line (words_in line.now)) }
    ensures named { IfOk result (λ name. is_zone_name name ≡ true) }
{
    let Some((name, rest)) = first_token(line) else {
        return Err(LineError::Bad);
    };
    match first_token(rest) {
        Some(_) => Err(LineError::Bad),
        None => zone_of(alloc, name),
    }
}
