// Casts from unit to unit that wait over a column.
ghost use Rattle.std.specs.Prelude.{◌≡◌, true};
ghost use Rattle.col_expr.specs.Built.{is_built_cast};

use col_series::{DataType, Series};

// Where a cast from unit to unit leads.
#[derive(Clone, Copy)]
pub(crate) enum Way {
    Finer,
    Coarser,
}

// A cast of a node to a type of another unit.
#[derive(Drop)]
pub(crate) struct UnitCast {
    pub(crate) node: u32,
    pub(crate) target: DataType,
    pub(crate) way: Way,
    ghost built: { is_built_cast target ≡ true },
}

// A column, and the casts over it that are not done yet.
#[derive(Drop)]
pub(crate) enum Waiting {
    Column(Series),
    Cast(Box<Waiting>, UnitCast),
}
