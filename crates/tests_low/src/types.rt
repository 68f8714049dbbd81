// What no clause says: printed texts, and that each call succeeds. Values by hand stand as laws.
use crate::same::{holds, same};
use col_types::*;
use std::alloc::Global;
use std::fmt;
use std::process::Abort;

/// The value prints so.
fn prints<T: fmt::Display + Drop>(rt: &impl Abort, alloc: Global, value: T, wanted: &str) {
    let text = format!(in alloc; "{value}").expect(rt, "a text");
    same(rt, wanted, text.as_str(), wanted);
}

const LEFT: Kind = Kind::Date;

const RIGHT: Kind = Kind::Duration(TimeUnit::Milliseconds);

/// Each refusal, and its name.
const REFUSALS: [(PolarsError, &str); 18] = [
    (PolarsError::Lengths { left: 2, right: 3 }, "Lengths"),
    (
        PolarsError::Types {
            op: OpName::Add,
            left: LEFT,
            right: RIGHT,
        },
        "Types",
    ),
    (
        PolarsError::CastPair {
            from: LEFT,
            to: RIGHT,
        },
        "CastPair",
    ),
    (PolarsError::BadType { dtype: LEFT }, "BadType"),
    (PolarsError::Scale { scale: 39 }, "Scale"),
    (PolarsError::Scalar { value: -1 }, "Scalar"),
    (PolarsError::Strict { row: 0 }, "Strict"),
    (
        PolarsError::Precision {
            precision: 2,
            digits: 3,
        },
        "Precision",
    ),
    (PolarsError::Calendar { row: 0 }, "Calendar"),
    (PolarsError::Fit { row: 0 }, "Fit"),
    (PolarsError::OutOfBounds { index: 3, len: 3 }, "OutOfBounds"),
    (PolarsError::TooLong { len: 4_294_967_296 }, "TooLong"),
    (PolarsError::GatherZero, "GatherZero"),
    (PolarsError::Zone, "Zone"),
    (PolarsError::Format, "Format"),
    (PolarsError::SchemaMismatch, "SchemaMismatch"),
    (PolarsError::FalseMark, "FalseMark"),
    (PolarsError::NoMemory, "NoMemory"),
];

#[test]
fn refusals_print_their_names(rt: HostRuntime) {
    for (refusal, name) in REFUSALS {
        prints(&rt, rt.alloc(), refusal, name);
    }
}

#[test]
fn units_have_names(rt: HostRuntime) {
    let unit = TimeUnit::Microseconds;
    let back: TimeUnit = (&unit.to_arrow()).into();
    prints(&rt, rt.alloc(), unit, "\u{3bc}s");
    same(&rt, "ascii", unit.to_ascii(), "us");
    same(&rt, "nanos", unit.nanos_per_tick(), 1_000);
    same(&rt, "arrow", back, unit);
    holds(&rt, "order", unit < TimeUnit::Milliseconds);
    let coarser = get_time_units(unit, TimeUnit::Nanoseconds);
    same(&rt, "coarser", coarser, unit);
}

#[test]
fn small_words_have_defaults(rt: HostRuntime) {
    let options: CastOptions = Default::default();
    holds(&rt, "options", options.is_strict());
    let plain: CastOptionsImpl = Default::default();
    let switches: CastOptionsImpl = CastOptions::Overflowing.into();
    same(&rt, "plain", (plain.wrapped, plain.partial), (false, false));
    holds(&rt, "switches", switches.wrapped);
    let turned = IsSorted::Ascending.reverse();
    same(&rt, "turned", turned, IsSorted::Descending);
}

#[test]
fn texts_are_copied(rt: HostRuntime) {
    let text = PlSmallStr::from_str(rt.alloc(), "Zeit μ").expect(&rt, "a text");
    let copy = text.clone().expect(&rt, "a copy");
    same(&rt, "copy", copy.as_str(), "Zeit μ");
    holds(&rt, "equal", copy == text);
}

/// What a type is: nested, of a column, built, a target of expressions.
fn traits_of(dtype: &DataType) -> (bool, bool, bool, bool) {
    let (nested, column) = (dtype.is_nested(), dtype.is_column_type());
    (
        nested,
        column,
        dtype.is_built(),
        dtype.is_expression_target(),
    )
}

#[test]
fn types_keep_their_nesting(rt: HostRuntime) {
    let alloc = rt.alloc();
    let leaf = Box::new(alloc, DataType::Date).expect(&rt, "a leaf");
    let dates = DataType::List(leaf);
    let copy = dates.try_clone(alloc).expect(&rt, "a copy");
    holds(&rt, "equal", copy == dates);
    holds(&rt, "same", copy.is_same(&dates));
    same(&rt, "list", traits_of(&copy), (true, true, false, false));
    holds(&rt, "leaf", copy.leaf_dtype().is_temporal());
}

#[test]
fn leaves_are_changed(rt: HostRuntime) {
    let alloc = rt.alloc();
    let time = DataType::Date.cast_leaf(alloc, &DataType::Time);
    let time = time.expect(&rt, "a time");
    holds(
        &rt,
        "time",
        time.is_same(&DataType::Time) && time.is_built(),
    );
    let stored = time.to_physical(alloc).expect(&rt, "an integer");
    holds(&rt, "stored", stored.is_same(&DataType::Int64));
    holds(&rt, "integer", stored.is_integer() && !time.is_integer());
    holds(&rt, "expression", stored.is_expression_type());
}

#[test]
fn supertypes_are_refused_with_both_types(rt: HostRuntime) {
    let alloc = rt.alloc();
    let wide = try_get_supertype(alloc, &DataType::Int8, &DataType::UInt8);
    let wide = wide.expect(&rt, "a type");
    holds(&rt, "wide", wide.is_same(&DataType::Int16));
    let none = flat_supertype(&DataType::Date, &DataType::Time);
    holds(&rt, "none", none.is_none());
    let refusal = PolarsError::Types {
        op: OpName::Supertype,
        left: Kind::Date,
        right: Kind::Time,
    };
    let answer = try_get_supertype(alloc, &DataType::Date, &DataType::Time);
    let refused = match answer {
        Ok(_) => false,
        Err(given) => given == refusal,
    };
    holds(&rt, "refused", refused);
}

/// The zone `Europe/Berlin`, handed in.
fn berlin(rt: &impl Abort, alloc: Global) -> ZoneNames {
    let mut names = ZoneNames::new(alloc);
    let name = PlSmallStr::from_str(alloc, "Europe/Berlin").expect(rt, "a name");
    names.insert(name).expect(rt, "a zone");
    names
}

/// Whether the text names the zone.
fn is_named(text: &str, names: &ZoneNames, wanted: &str) -> bool {
    match TimeZone::opt_try_new(Some(text), names) {
        Ok(Some(zone)) => zone.as_str() == wanted,
        _ => false,
    }
}

#[test]
fn texts_name_zones(rt: HostRuntime) {
    let names = berlin(&rt, rt.alloc());
    let berlin = "Europe/Berlin";
    holds(&rt, "handed in", names.contains(berlin));
    holds(&rt, "a name", is_named(berlin, &names, berlin));
    holds(&rt, "an offset", is_named("+13:00", &names, "Etc/GMT-13"));
    holds(&rt, "no offset", !is_named("-13:00", &names, "Etc/GMT+13"));
    let valid = TimeZone::validate_time_zone("Etc/GMT+12", &names);
    holds(&rt, "valid", valid.is_ok());
    let canonical = TimeZone::_canonical_timezone_impl(Some("utc"));
    same(&rt, "canonical", canonical, Some("UTC"));
}

#[test]
fn offsets_have_names(rt: HostRuntime) {
    let behind = parse_fixed_offset(rt.alloc(), "-0300").expect(&rt, "a zone");
    same(&rt, "offset", behind.as_str(), "Etc/GMT+3");
}

#[test]
fn zones_are_compared(rt: HostRuntime) {
    let names = ZoneNames::new(rt.alloc());
    let utc = TimeZone::utc();
    let east = parse_time_zone("Etc/GMT-1", &names).expect(&rt, "a zone");
    prints(&rt, rt.alloc(), east, "Etc/GMT-1");
    let equal = TimeZone::eq_wildcard_aware(&utc, &east);
    holds(&rt, "two zones", !equal);
    holds(&rt, "none", TimeZone::eq_none_as_utc(None, Some(&utc)));
}
