//! A rule of the cast table that was chosen for two types.

ghost use Rattle.std.specs.Prelude.{◌≡◌, false, true, IfSome};
ghost use Rattle.col_types.specs.DataType.{is_bad_target, is_column_type, is_nested};
ghost use Rattle.col_types.specs.declared.cast_options.CastOptions.TheVariants.{NonStrict};
ghost use Rattle.col_model.specs.CastTable.{is_boolean, resolved_target};
ghost use Rattle.col_cast.specs.Casts.{IsListed, is_plain, is_wrapping, kept_in, rule_in, ruled};
ghost use Rattle.col_cast.specs.Casts.{word_of};
ghost use Rattle.col_cast.specs.Rows.{IsRowOf, formula_of, rule_of};

use crate::row::{Row, TickRow, row_of};
use col_types::{CastOptions, DataType};
use std::marker::Model;

/// A rule of the cast table, with the types and the options that it was chosen for.
#[derive(Drop)]
pub struct CastRule {
    from: DataType,
    to: DataType,
    options: CastOptions,
    row: Row,
}

impl Model for CastRule {
    ghost use Rattle.std.specs.Coded.{codes};
    ghost use Rattle.col_types.specs.contracts.data_type.DataType as data_type;
    ghost use Rattle.col_cast.specs.Casts.{Ruled};

    ghost Value = { Ruled };

    ghost coded = { Prim.hlevel (codes, data_type.the_row.coded) };

    ghost use Rattle.col_cast.specs.Rows.{IsChosen};

    ghost view = { λ r. record { from = r.from; to = r.to; options = r.options } };

    ghost invariant = { λ r. IsChosen r.from r.to r.row };
}

/// The rule for a cast from a type to a target by the options, and none where the table has none.
/// What the target leaves open, a decimal's precision and scale, is taken from the type. Neither is
/// nested; columns can have the type, and the target isn't a bad one. No memory is taken.
pub fn cast_rule(from: &DataType, to: &DataType, options: CastOptions) -> Option<CastRule>
    requires from_flat { is_nested from.now ≡ false }
    requires to_flat { is_nested to.now ≡ false }
    requires column_type { is_column_type from.now ≡ true }
    requires good_target { is_bad_target to.now ≡ false }
    ensures rule { result ≡ ruled from.now to.now options }
    ensures listed { IfSome result IsListed }
{
    let to = settled(from, to);
    match row_of(from, &to) {
        Some(row) => Some(CastRule {
            from: from.clone_flat(),
            to,
            options,
            row,
        }),
        None => None,
    }
}

/// The target with what it leaves open taken from the type.
fn settled(from: &DataType, to: &DataType) -> DataType
    requires to_flat { is_nested to.now ≡ false }
    ensures target { result ≡ resolved_target from.now to.now }
{
    match (from, to) {
        (DataType::Decimal(old, digits), DataType::Decimal(precision, scale)) => {
            DataType::Decimal(precision.or(*old), scale.or(*digits))
        }
        (_, DataType::Decimal(precision, scale)) => {
            DataType::Decimal(*precision, Some(scale.unwrap_or(0)))
        }
        _ => to.clone_flat(),
    }
}

impl CastRule {
    /// The type of the column that is cast.
    pub fn from_type(&self) -> &DataType
        ensures from { result.now ≡ self.now.from }
    {
        &self.from
    }

    /// The target, which leaves nothing open.
    pub fn to_type(&self) -> &DataType
        ensures to { result.now ≡ self.now.to }
    {
        &self.to
    }

    /// Whether the cast wraps what the target has no room for, where it has a form that wraps.
    pub fn wrapped(&self) -> bool
        ensures wrapped { result ≡ is_wrapping self.now.options }
    {
        matches!(self.options, CastOptions::Overflowing)
    }

    /// Whether the cast never decreases: a greater slot doesn't become a lesser one.
    pub fn is_monotone(&self) -> bool
        ensures monotone { result ≡ (rule_in self.now).monotone }
    {
        match self.row {
            Row::Truth | Row::Ticks(TickRow::Time(_)) => false,
            _ => true,
        }
    }

    /// Whether each slot is kept as it is, in the same word unless it is a truth value.
    pub fn keeps_words(&self) -> bool
        ensures kept { result ≡ is_plain (rule_in self.now).formula }
        ensures words { result ≡ true → is_boolean self.now.from ≡ false →
            word_of self.now.to ≡ word_of self.now.from }
    {
        matches!(self.row, Row::Same | Row::Number)
    }

    /// What the cast does with a value that the target has no room for.
    pub(crate) fn options(&self) -> CastOptions
        ensures options { result ≡ self.now.options }
    {
        self.options
    }

    /// The row of the table.
    pub(crate) fn row(&self) -> Row
        ensures rule { rule_in self.now ≡ rule_of self.now.to self.now.options result }
        ensures kept { kept_in self.now ≡ formula_of self.now.to NonStrict result }
        ensures row { IsRowOf self.now.from self.now.to result }
    {
        self.row
    }
}
