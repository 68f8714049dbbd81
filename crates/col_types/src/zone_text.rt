// What a text says of a zone: other spellings, accepted names, fixed offsets.
ghost use Rattle.std.specs.Prelude.{◌≡◌, ◌≤◌, drop, true, false, IsTrue, length};
ghost use Rattle.std.specs.Char.{is_ascii_digit};
ghost use Rattle.col_types.specs.Zones.{max_zone_bytes, gmt_prefix};
ghost use Rattle.col_types.specs.Zones.{is_utc_spelling, is_gmt_name, is_accepted, accepted_name};
ghost use Rattle.col_types.specs.Zones.{is_gmt_ending, is_short_ending, is_long_ending};
ghost use Rattle.col_types.specs.Zones.{offset_name, unsigned_offset_name, is_offset};
ghost use Rattle.col_types.specs.Zones.{is_full_hour, two_digits, gmt_name};

use crate::{TimeZone, ZoneNames};

// What the name of each zone by whole hours begins with.
const GMT_PREFIX: &str = "Etc/GMT";

// Whether the text is one of the other spellings of `UTC`.
pub(crate) fn is_utc_spelling(text: &str) -> bool
    ensures value { result ≡ is_utc_spelling text.now }
{
    text == "+00:00" || text == "00:00" || text == "utc"
}

// Whether the name is accepted, which no name is that a zone has no room for.
pub(crate) fn is_accepted(name: &str, names: &ZoneNames) -> bool
    ensures value { result ≡ is_accepted names.now name.now }
    ensures short { IsTrue result → length name.now ≤ max_zone_bytes }
{
    if name == "UTC" {
        return true;
    }
    if is_gmt_name(name) {
        return true;
    }
    names.contains(name)
}

// The zone, where its name is accepted.
pub(crate) fn accepted_zone(zone: TimeZone, names: &ZoneNames) -> Option<TimeZone>
    ensures name { result ≡ accepted_name names.now zone }
{
    if is_accepted(zone.as_str(), names) {
        Some(zone)
    } else {
        None
    }
}

// Whether the name is one of those by whole hours.
pub(crate) fn is_gmt_name(name: &str) -> bool
    ensures value { result ≡ is_gmt_name name.now }
    ensures short { IsTrue result → length name.now ≤ max_zone_bytes }
{
    if !name.starts_with(GMT_PREFIX) {
        return false;
    }
    is_gmt_ending(after_gmt(name.as_bytes()))
}

fn after_gmt(name: &[u8]) -> &[u8]
    requires prefix { length gmt_prefix ≤ length name.now }
    ensures rest { result.now ≡ drop (length gmt_prefix) name.now }
{
    &name[GMT_PREFIX.len()..]
}

fn is_gmt_ending(ending: &[u8]) -> bool
    ensures value { result ≡ is_gmt_ending ending.now }
    ensures short { IsTrue result → length ending.now ≤ 3 }
{
    match ending {
        [sign, ones] => is_short_ending(*sign, *ones),
        [sign, tens, ones] => is_long_ending(*sign, *tens, *ones),
        _ => false,
    }
}

fn is_short_ending(sign: u8, ones: u8) -> bool
    ensures value { result ≡ is_short_ending sign ones }
{
    (sign == b'+' || sign == b'-') && ones.is_ascii_digit()
}

fn is_long_ending(sign: u8, tens: u8, ones: u8) -> bool
    ensures value { result ≡ is_long_ending sign tens ones }
{
    tens == b'1' && ones >= b'0' && (sign == b'-' && ones <= b'4' || sign == b'+' && ones <= b'2')
}

// The zone of a fixed offset, whether or not its name is accepted.
pub(crate) fn offset_zone(text: &[u8]) -> Option<TimeZone>
    ensures name { result ≡ offset_name text.now }
{
    let (first, rest) = text.split_first()?;
    match *first {
        b'+' => unsigned_offset_zone(false, rest),
        b'-' => unsigned_offset_zone(true, rest),
        _ => unsigned_offset_zone(false, text),
    }
}

fn unsigned_offset_zone(behind: bool, text: &[u8]) -> Option<TimeZone>
    ensures name { result ≡ unsigned_offset_name behind text.now }
{
    match text {
        [tens, ones, minutes @ ..] if is_offset(*tens, *ones, minutes) => {
            Some(gmt_zone(behind, two_digits(*tens, *ones)))
        }
        _ => None,
    }
}

fn is_offset(tens: u8, ones: u8, minutes: &[u8]) -> bool
    ensures value { result ≡ is_offset tens ones minutes.now }
{
    tens.is_ascii_digit()
        && ones.is_ascii_digit()
        && two_digits(tens, ones) <= 14
        && is_full_hour(minutes)
}

fn is_full_hour(minutes: &[u8]) -> bool
    ensures value { result ≡ is_full_hour minutes.now }
{
    matches!(minutes, b"00" | b":00")
}

fn two_digits(tens: u8, ones: u8) -> u8
    requires tens { IsTrue (is_ascii_digit tens) }
    requires ones { IsTrue (is_ascii_digit ones) }
    ensures value { result ≡ two_digits tens ones }
{
    (tens - b'0') * 10 + (ones - b'0')
}

// A clock behind `UTC` has the sign `+` in its name, and one before it `-`.
fn gmt_zone(behind: bool, hour: u8) -> TimeZone
    requires hour { hour ≤ 14 }
    ensures name { result ≡ gmt_name behind hour }
{
    if behind {
        TimeZone::named(name_behind(hour))
    } else {
        TimeZone::named(name_before(hour))
    }
}

fn name_behind(hour: u8) -> &'static str
    requires hour { hour ≤ 14 }
    ensures name { result.now ≡ gmt_name true hour }
    ensures short { length result.now ≤ max_zone_bytes }
{
    match hour {
        0 => "Etc/GMT+0",
        1 => "Etc/GMT+1",
        2 => "Etc/GMT+2",
        3 => "Etc/GMT+3",
        4 => "Etc/GMT+4",
        5 => "Etc/GMT+5",
        6 => "Etc/GMT+6",
        7 => "Etc/GMT+7",
        8 => "Etc/GMT+8",
        9 => "Etc/GMT+9",
        10 => "Etc/GMT+10",
        11 => "Etc/GMT+11",
        12 => "Etc/GMT+12",
        13 => "Etc/GMT+13",
        _ => "Etc/GMT+14",
    }
}

fn name_before(hour: u8) -> &'static str
    requires hour { hour ≤ 14 }
    ensures name { result.now ≡ gmt_name false hour }
    ensures short { length result.now ≤ max_zone_bytes }
{
    match hour {
        0 => "Etc/GMT-0",
        1 => "Etc/GMT-1",
        2 => "Etc/GMT-2",
        3 => "Etc/GMT-3",
        4 => "Etc/GMT-4",
        5 => "Etc/GMT-5",
        6 => "Etc/GMT-6",
        7 => "Etc/GMT-7",
        8 => "Etc/GMT-8",
        9 => "Etc/GMT-9",
        10 => "Etc/GMT-10",
        11 => "Etc/GMT-11",
        12 => "Etc/GMT-12",
        13 => "Etc/GMT-13",
        _ => "Etc/GMT-14",
    }
}
