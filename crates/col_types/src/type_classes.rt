// Which types are what. No call takes memory.
ghost use Rattle.std.specs.Prelude.{◌≡◌, false};
ghost use Rattle.col_types.specs.DataType.{is_integer, is_temporal, is_nested, is_built};
ghost use Rattle.col_types.specs.DataType.{holds_integers, leaf_of, has_scale};
ghost use Rattle.col_types.specs.DataType.{is_wildcard, is_allowed_digits};
ghost use Rattle.col_types.specs.DataType.{is_bad_leaf, is_bad_target, is_column_type};
ghost use Rattle.col_types.specs.DataType.{is_expression_type, is_expression_target};

use crate::{DataType, TimeZone};

/// The most digits that a decimal has, and the most behind its point.
pub const MAX_DIGITS: usize = 38;

impl DataType {
    /// Whether the type is one of the nine integers.
    pub fn is_integer(&self) -> bool
        ensures value { result ≡ is_integer self.now }
    {
        matches!(
            self,
            DataType::Int8
                | DataType::Int16
                | DataType::Int32
                | DataType::Int64
                | DataType::Int128
                | DataType::UInt8
                | DataType::UInt16
                | DataType::UInt32
                | DataType::UInt64
        )
    }

    /// Whether the type has a civil meaning: dates, datetimes, durations and times.
    pub fn is_temporal(&self) -> bool
        ensures value { result ≡ is_temporal self.now }
    {
        matches!(
            self,
            DataType::Date | DataType::Datetime(_, _) | DataType::Duration(_) | DataType::Time
        )
    }

    /// Whether columns of the type exist so far: each further type adds itself here.
    pub fn is_built(&self) -> bool
        ensures value { result ≡ is_built self.now }
    {
        matches!(
            self,
            DataType::Date
                | DataType::Datetime(_, _)
                | DataType::Duration(_)
                | DataType::Time
                | DataType::Int64
        )
    }

    /// Whether a slot holds slots: lists and arrays.
    pub fn is_nested(&self) -> bool
        ensures value { result ≡ is_nested self.now }
    {
        matches!(self, DataType::List(_) | DataType::Array(_, _))
    }

    /// Whether each valid slot is an integer: integers, booleans, temporal types and decimals.
    pub fn holds_integers(&self) -> bool
        ensures value { result ≡ holds_integers self.now }
    {
        match self {
            DataType::Boolean | DataType::Decimal(_, _) => true,
            _ => self.is_integer() || self.is_temporal(),
        }
    }

    /// Whether no cast can have the type as its target: its leaf has the wildcard as its zone, or
    /// a precision or a scale over 38, or the type is nested more than once.
    pub fn is_bad_target(&self) -> bool
        ensures value { result ≡ is_bad_target self.now }
    {
        match self {
            DataType::List(leaf) | DataType::Array(leaf, _) => leaf.is_nested()
                || leaf.is_bad_leaf(),
            _ => self.is_bad_leaf(),
        }
    }

    /// Whether a column can be of the type: it is no bad target, and a decimal has a scale.
    pub fn is_column_type(&self) -> bool
        ensures value { result ≡ is_column_type self.now }
    {
        !self.is_bad_target() && self.leaf_dtype().has_scale()
    }

    /// Whether an expression's column can be of the type.
    pub fn is_expression_type(&self) -> bool
        ensures value { result ≡ is_expression_type self.now }
    {
        self.is_column_type() && self.holds_integers()
    }

    /// Whether a cast in an expression can have the type as its target.
    pub fn is_expression_target(&self) -> bool
        ensures value { result ≡ is_expression_target self.now }
    {
        self.holds_integers() && !self.is_bad_target()
    }

    /// The innermost type, below every list and array.
    pub fn leaf_dtype(&self) -> &DataType
        ensures leaf { result.now ≡ leaf_of self.now }
        ensures flat { is_nested result.now ≡ false }
    {
        match self {
            DataType::List(leaf) | DataType::Array(leaf, _) => leaf.leaf_dtype(),
            _ => self,
        }
    }

    fn is_bad_leaf(&self) -> bool
        ensures value { result ≡ is_bad_leaf self.now }
    {
        match self {
            DataType::Datetime(_, name) => is_wildcard(name),
            DataType::Decimal(precision, scale) => !(is_allowed(*precision) && is_allowed(*scale)),
            _ => false,
        }
    }

    fn has_scale(&self) -> bool
        ensures value { result ≡ has_scale self.now }
    {
        !matches!(self, DataType::Decimal(_, None))
    }
}

fn is_wildcard(zone: &Option<TimeZone>) -> bool
    ensures value { result ≡ is_wildcard zone.now }
{
    match zone {
        Some(name) => name.as_str() == "*",
        None => false,
    }
}

fn is_allowed(digits: Option<usize>) -> bool
    ensures value { result ≡ is_allowed_digits digits }
{
    match digits {
        Some(digits) => digits <= MAX_DIGITS,
        None => true,
    }
}
