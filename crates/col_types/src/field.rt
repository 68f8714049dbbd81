// A column's name and type, without its slots.
use crate::{DataType, PlSmallStr};

/// The name and the type of a column.
#[derive(Drop, Debug, PartialEq, Eq)]
pub struct Field {
    pub name: PlSmallStr,
    pub dtype: DataType,
}
