// A zone's name, kept in place: the bytes of the name, and zeros after it.
ghost use Rattle.std.specs.Prelude.{◌≡◌, ◌≤◌, ◌-◌, ◌++◌, nat_eq, length, drop, replicate, codes};
ghost use Rattle.std.specs.Prelude.{Some, option_map, if◌then◌else◌};
ghost use Rattle.std.specs.Option.{ok_or, option_copied as copied};
ghost use Rattle.std.specs.Cmp.{partial_equiv_from_equiv};
ghost use Rattle.std.specs.Cmp.Lexicographic.{pointwise, nat_list_eq_equiv};
ghost use Rattle.std.specs.Cmp.Rules.{hashing};
ghost use Rattle.std.specs.Hash as fed;
ghost use Rattle.std.proofs.Common.{rules};
ghost use Rattle.col_types.specs.declared.error.PolarsError.TheVariants.{Zone};
ghost use Rattle.col_types.specs.PolarsError.{Gives};
ghost use Rattle.col_types.specs.Zones.{max_zone_bytes, is_utc_spelling};
ghost use Rattle.col_types.specs.Zones.{zone_of, opt_zone, canonical_text};
ghost use Rattle.col_types.specs.Zones.{parsed_zone, validated_zone, parsed_offset};
ghost use Rattle.col_types.specs.Zones.{eq_wildcard_aware, eq_none_as_utc, none_as_utc};

use crate::{PlSmallStr, PolarsError, PolarsResult, ZoneNames, zone_text};
use std::alloc::Global;
use std::fmt;
use std::hash::{Hash, Hasher};
use std::marker::Model;

/// How many bytes of a name a zone has room for.
pub const MAX_ZONE_BYTES: usize = 64;

/// The name of a zone, of at most 64 bytes. A contract sees it as the bytes of the name.
#[derive(Clone, Copy)]
pub struct TimeZone {
    bytes: [u8; MAX_ZONE_BYTES],
    len: u8,
}

impl Model for TimeZone {
    ghost use Rattle.std.specs.Prelude.{List, ℕ, take};

    ghost Value = { List ℕ };

    ghost use Rattle.col_types.specs.TimeZone.{IsPadded, padded, padded_back};

    ghost view = { λ z. take z.len z.bytes };

    ghost invariant = { IsPadded };

    ghost inverse = { padded };

    ghost inverse_ok = { padded_back };
}

impl TimeZone {
    /// The name.
    pub fn as_str(&self) -> &str
        ensures name { result.now ≡ self.now }
    {
        match str::from_utf8(&self.bytes[..self.len as usize]) {
            Ok(name) => name,
            Err(_) => unreachable!(),
        }
    }

    /// The zone `UTC`.
    pub fn utc() -> TimeZone
        ensures name { result ≡ codes "UTC" }
    {
        TimeZone::named("UTC")
    }

    /// The zone that a text names. None and the empty text give none; `*` gives the wildcard;
    /// `+00:00`, `00:00` and `utc` give `UTC`; an accepted name gives the zone of that name; a
    /// fixed offset gives its `Etc/GMT` zone, where that name is accepted. Every other text is
    /// refused.
    pub fn opt_try_new(zone: Option<&str>, names: &ZoneNames) -> PolarsResult<Option<TimeZone>>
        ensures zone { result ≡ opt_zone names.now (copied zone.entry) }
    {
        match zone {
            Some(text) if !text.is_empty() => some_zone(text, names),
            _ => Ok(None),
        }
    }

    /// `UTC` for its other spellings, none for the empty text, and every other text as it is.
    pub fn _canonical_timezone_impl(zone: Option<&str>) -> Option<&str>
        ensures text { copied result ≡ canonical_text (copied zone.entry) }
    {
        match zone {
            Some(text) if !text.is_empty() => Some(canonical(text)),
            _ => None,
        }
    }

    /// Whether the name is accepted: `UTC`, one of the `Etc/GMT` names, or one of the names.
    pub fn validate_time_zone(zone: &str, names: &ZoneNames) -> PolarsResult<()>
        ensures accepted { result ≡ validated_zone names.now zone.now }
    {
        if zone_text::is_accepted(zone, names) {
            Ok(())
        } else {
            Err(PolarsError::Zone)
        }
    }

    /// Whether the zones are equal, or one of them is the wildcard.
    pub fn eq_wildcard_aware(this: &TimeZone, other: &TimeZone) -> bool
        ensures value { result ≡ eq_wildcard_aware this.now other.now }
    {
        this.as_str() == other.as_str() || this.as_str() == "*" || other.as_str() == "*"
    }

    /// Whether the zones are equal, where none counts as `UTC`.
    pub fn eq_none_as_utc(this: Option<&TimeZone>, other: Option<&TimeZone>) -> bool
        ensures value { result ≡ eq_none_as_utc (copied this.entry) (copied other.entry) }
    {
        name_or_utc(this) == name_or_utc(other)
    }

    // The zone of a name that has room in it.
    pub(crate) fn named(name: &str) -> TimeZone
        requires short { length name.now ≤ max_zone_bytes }
        ensures name { result ≡ name.now }
    {
        let bytes = padded_bytes(name.as_bytes());
        TimeZone {
            bytes,
            len: name.len() as u8,
        }
    }
}

/// The zone of an accepted name.
pub fn parse_time_zone(zone: &str, names: &ZoneNames) -> PolarsResult<TimeZone>
    ensures zone { result ≡ parsed_zone names.now zone.now }
{
    if zone_text::is_accepted(zone, names) {
        Ok(TimeZone::named(zone))
    } else {
        Err(PolarsError::Zone)
    }
}

/// The `Etc/GMT` name of a fixed offset, whose sign is the other one. Names that were handed in
/// don't count.
pub fn parse_fixed_offset(alloc: Global, zone: &str) -> PolarsResult<PlSmallStr>
    ensures name { Gives result (parsed_offset zone.now) }
{
    match zone_text::offset_zone(zone.as_bytes()) {
        Some(named) if zone_text::is_gmt_name(named.as_str()) => PlSmallStr::from_str(
            alloc,
            named.as_str(),
        ),
        _ => Err(PolarsError::Zone),
    }
}

// The zone of a text that isn't empty.
fn some_zone(text: &str, names: &ZoneNames) -> PolarsResult<Option<TimeZone>>
    ensures zone { result ≡ ok_or (option_map Some (zone_of names.now text.now)) Zone }
{
    match zone_of(text, names) {
        Some(found) => Ok(Some(found)),
        None => Err(PolarsError::Zone),
    }
}

fn zone_of(text: &str, names: &ZoneNames) -> Option<TimeZone>
    ensures name { result ≡ zone_of names.now text.now }
{
    if text == "*" {
        return Some(TimeZone::named("*"));
    }
    if zone_text::is_utc_spelling(text) {
        return Some(TimeZone::utc());
    }
    if zone_text::is_accepted(text, names) {
        return Some(TimeZone::named(text));
    }
    zone_text::accepted_zone(zone_text::offset_zone(text.as_bytes())?, names)
}

fn canonical(text: &str) -> &str
    ensures text { result.now ≡ (if is_utc_spelling text.now then codes "UTC" else text.now) }
{
    if zone_text::is_utc_spelling(text) {
        "UTC"
    } else {
        text
    }
}

fn name_or_utc(zone: Option<&TimeZone>) -> &str
    ensures name { result.now ≡ none_as_utc (copied zone.entry) }
{
    match zone {
        Some(zone) => zone.as_str(),
        None => "UTC",
    }
}

// The bytes of a name, and zeros after it.
fn padded_bytes(name: &[u8]) -> [u8; MAX_ZONE_BYTES]
    requires short { length name.now ≤ max_zone_bytes }
    ensures bytes { result ≡ name.now ++ replicate (max_zone_bytes - length name.now) 0 }
{
    let mut bytes = [0; MAX_ZONE_BYTES];
    copy_front(&mut bytes, name);
    bytes
}

// The name, and what stood behind it.
fn copy_front(bytes: &mut [u8], name: &[u8])
    requires room { length name.now ≤ length bytes.old }
    ensures bytes { bytes.new ≡ name.now ++ drop (length name.now) bytes.old }
{
    bytes[..name.len()].copy_from_slice(name);
}

impl PartialEq for TimeZone {
    ghost eq = { pointwise nat_eq };

    ghost laws = { partial_equiv_from_equiv nat_list_eq_equiv };

    fn eq(&self, other: &TimeZone) -> bool {
        self.as_str() == other.as_str()
    }
}

impl Eq for TimeZone {
    ghost laws = { nat_list_eq_equiv };
}

impl Hash for TimeZone {
    ghost hash_input = { fed.str };

    ghost respects_eq = { Prim.search (hashing, rules) };

    fn hash<H: Hasher>(&self, state: &mut H) {
        self.as_str().hash(state);
    }
}

impl fmt::Debug for TimeZone {
    fn fmt<W: fmt::Write>(&self, f: &mut fmt::Formatter<W>) -> fmt::Result {
        f.write_str(self.as_str())
    }
}

impl fmt::Display for TimeZone {
    ghost output = { λ zone. Some zone };

    fn fmt<W: fmt::Write>(&self, f: &mut fmt::Formatter<W>) -> fmt::Result {
        f.write_str(self.as_str())
    }
}
