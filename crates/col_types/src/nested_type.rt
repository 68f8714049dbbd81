// Copies of types, also under nesting, which takes memory.
ghost use Rattle.std.specs.Prelude.{◌≡◌, false, Ok};
ghost use Rattle.col_types.specs.PolarsError.{GivesBy};
ghost use Rattle.col_types.specs.DataType.{is_nested, shape_of};
ghost use Rattle.col_types.specs.DataType.{with_leaf, physical_leaf, physical_of};

use crate::{DataType, PolarsResult};
use std::alloc::Global;

impl DataType {
    /// An equal type. The one refusal is `NoMemory`.
    #[tactic(auto, using(crate::proofs::TypeLemmas::own_leaf))]
    pub fn try_clone(&self, alloc: Global) -> PolarsResult<DataType>
        ensures equal { GivesBy shape_of result (Ok (shape_of self.now)) }
    {
        self.cast_leaf(alloc, self.leaf_dtype())
    }

    /// The type that stores the values, under the same nesting. The one refusal is `NoMemory`.
    pub fn to_physical(&self, alloc: Global) -> PolarsResult<DataType>
        ensures dtype { GivesBy shape_of result (Ok (shape_of (physical_of self.now))) }
    {
        self.cast_leaf(alloc, &self.leaf_dtype().physical_leaf())
    }

    /// The same nesting over a leaf that isn't nested. The one refusal is `NoMemory`.
    pub fn cast_leaf(&self, alloc: Global, leaf: &DataType) -> PolarsResult<DataType>
        requires flat { is_nested leaf.now ≡ false }
        ensures dtype { GivesBy shape_of result (Ok (shape_of (with_leaf self.now leaf.now))) }
    {
        match self {
            DataType::List(inner) => {
                let inner = inner.cast_leaf(alloc, leaf)?;
                Ok(DataType::List(Box::new(alloc, inner)?))
            }
            DataType::Array(inner, width) => {
                let inner = inner.cast_leaf(alloc, leaf)?;
                Ok(DataType::Array(Box::new(alloc, inner)?, *width))
            }
            _ => Ok(leaf.clone_flat()),
        }
    }

    fn physical_leaf(&self) -> DataType
        requires flat { is_nested self.now ≡ false }
        ensures dtype { result ≡ physical_leaf self.now }
        ensures flat { is_nested result ≡ false }
    {
        match self {
            DataType::Date => DataType::Int32,
            DataType::Datetime(_, _) | DataType::Duration(_) | DataType::Time => DataType::Int64,
            DataType::Decimal(_, _) => DataType::Int128,
            _ => self.clone_flat(),
        }
    }
}
