// The types of columns.
ghost use Rattle.std.specs.Prelude.{◌≡◌, false};
ghost use Rattle.col_types.specs.DataType.{kind_of, is_nested};
ghost use Rattle.col_types.specs.DataType.{same_type, same_unit, same_zone, same_number};

use crate::{TimeUnit, TimeZone};

/// The type of a column. `Decimal` has its precision, then its scale; `Array` its width.
#[derive(Drop, Debug, PartialEq, Eq, Hash)]
pub enum DataType {
    Int8,
    Int16,
    Int32,
    Int64,
    Int128,
    UInt8,
    UInt16,
    UInt32,
    UInt64,
    Boolean,
    String,
    Binary,
    Date,
    Datetime(TimeUnit, Option<TimeZone>),
    Duration(TimeUnit),
    Time,
    Decimal(Option<usize>, Option<usize>),
    List(Box<DataType>),
    Array(Box<DataType>, usize),
}

/// The variant of a type, with the unit where it has one.
#[derive(Clone, Copy, Debug, PartialEq, Eq)]
pub enum Kind {
    Int8,
    Int16,
    Int32,
    Int64,
    Int128,
    UInt8,
    UInt16,
    UInt32,
    UInt64,
    Boolean,
    String,
    Binary,
    Date,
    Datetime(TimeUnit),
    Duration(TimeUnit),
    Time,
    Decimal,
    List,
    Array,
}

impl DataType {
    /// The variant.
    pub fn kind(&self) -> Kind
        ensures value { result ≡ kind_of self.now }
    {
        match self {
            DataType::Int8 => Kind::Int8,
            DataType::Int16 => Kind::Int16,
            DataType::Int32 => Kind::Int32,
            DataType::Int64 => Kind::Int64,
            DataType::Int128 => Kind::Int128,
            DataType::UInt8 => Kind::UInt8,
            DataType::UInt16 => Kind::UInt16,
            DataType::UInt32 => Kind::UInt32,
            DataType::UInt64 => Kind::UInt64,
            DataType::Boolean => Kind::Boolean,
            DataType::String => Kind::String,
            DataType::Binary => Kind::Binary,
            DataType::Date => Kind::Date,
            DataType::Datetime(unit, _) => Kind::Datetime(*unit),
            DataType::Duration(unit) => Kind::Duration(*unit),
            DataType::Time => Kind::Time,
            DataType::Decimal(_, _) => Kind::Decimal,
            DataType::List(_) => Kind::List,
            DataType::Array(_, _) => Kind::Array,
        }
    }

    /// An equal type, of one that isn't nested. It takes no memory.
    pub fn clone_flat(&self) -> DataType
        requires flat { is_nested self.now ≡ false }
        ensures equal { result ≡ self.now }
    {
        match self {
            DataType::Int8 => DataType::Int8,
            DataType::Int16 => DataType::Int16,
            DataType::Int32 => DataType::Int32,
            DataType::Int64 => DataType::Int64,
            DataType::Int128 => DataType::Int128,
            DataType::UInt8 => DataType::UInt8,
            DataType::UInt16 => DataType::UInt16,
            DataType::UInt32 => DataType::UInt32,
            DataType::UInt64 => DataType::UInt64,
            DataType::Boolean => DataType::Boolean,
            DataType::String => DataType::String,
            DataType::Binary => DataType::Binary,
            DataType::Date => DataType::Date,
            DataType::Datetime(unit, zone) => DataType::Datetime(*unit, *zone),
            DataType::Duration(unit) => DataType::Duration(*unit),
            DataType::Time => DataType::Time,
            DataType::Decimal(precision, scale) => DataType::Decimal(*precision, *scale),
            DataType::List(_) | DataType::Array(_, _) => unreachable!(),
        }
    }

    /// Whether the types are equal, zones, precisions, scales and widths too.
    pub fn is_same(&self, other: &DataType) -> bool
        ensures same { result ≡ same_type self.now other.now }
    {
        match (self, other) {
            (DataType::Int8, DataType::Int8) => true,
            (DataType::Int16, DataType::Int16) => true,
            (DataType::Int32, DataType::Int32) => true,
            (DataType::Int64, DataType::Int64) => true,
            (DataType::Int128, DataType::Int128) => true,
            (DataType::UInt8, DataType::UInt8) => true,
            (DataType::UInt16, DataType::UInt16) => true,
            (DataType::UInt32, DataType::UInt32) => true,
            (DataType::UInt64, DataType::UInt64) => true,
            (DataType::Boolean, DataType::Boolean) => true,
            (DataType::String, DataType::String) => true,
            (DataType::Binary, DataType::Binary) => true,
            (DataType::Date, DataType::Date) => true,
            (DataType::Time, DataType::Time) => true,
            (DataType::Datetime(u, y), DataType::Datetime(v, z)) => same_unit(*u, *v)
                && same_zone(y, z),
            (DataType::Duration(u), DataType::Duration(v)) => same_unit(*u, *v),
            (DataType::Decimal(p, s), DataType::Decimal(q, t)) => same_number(*p, *q)
                && same_number(*s, *t),
            (DataType::List(a), DataType::List(b)) => a.is_same(b),
            (DataType::Array(a, m), DataType::Array(b, n)) => *m == *n && a.is_same(b),
            _ => false,
        }
    }
}

fn same_unit(left: TimeUnit, right: TimeUnit) -> bool
    ensures same { result ≡ same_unit left right }
{
    left.nanos_per_tick() == right.nanos_per_tick()
}

/// Whether the zones are equal, or both are none.
pub fn same_zone(left: &Option<TimeZone>, right: &Option<TimeZone>) -> bool
    ensures same { result ≡ same_zone left.now right.now }
{
    match (left, right) {
        (None, None) => true,
        (Some(left), Some(right)) => left.as_str() == right.as_str(),
        _ => false,
    }
}

fn same_number(left: Option<usize>, right: Option<usize>) -> bool
    ensures same { result ≡ same_number left right }
{
    match (left, right) {
        (None, None) => true,
        (Some(left), Some(right)) => left == right,
        _ => false,
    }
}
