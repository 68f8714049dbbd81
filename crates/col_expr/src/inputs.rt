// The columns of an expression.
ghost use Rattle.std.specs.Prelude.{◌≡◌, ◌<◌, ◌-◌, ◌^◌, ◌++◌, [], ◌∷◌, length};
ghost use Rattle.std.specs.Prelude.{slice_get, OnOk, IfErr};
ghost use Rattle.std.specs.Option.{option_copied};
ghost use Rattle.std.specs.List.{All};
ghost use Rattle.col_model.specs.Column.{IsValidColumn};
ghost use Rattle.col_model.specs.Chunked.{columns_of};

use col_series::Series;
use std::alloc::Global;
use std::marker::Model;

/// A list of columns. A contract sees it as that list, each column with its chunks.
#[derive(Drop)]
pub struct Inputs {
    columns: Vec<Series>,
}

impl Model for Inputs {
    ghost use Rattle.std.specs.Prelude.{List, ◌<◌, ◌^◌, length};
    ghost use Rattle.std.specs.Coded.{codes};
    ghost use Rattle.std.specs.List.{All};
    ghost use Rattle.col_types.specs.contracts.data_type.DataType as data_type;
    ghost use Rattle.col_model.specs.Column.{IsValidColumn};
    ghost use Rattle.col_model.specs.Chunked.{Chunked, columns_of};

    ghost Value = { List Chunked };

    ghost coded = { Prim.hlevel (codes, data_type.the_row.coded) };

    ghost view = { λ a. a.columns.items };

    ghost invariant = { λ a. (length a.columns.items < 2 ^ 32)
        × All IsValidColumn (columns_of a.columns.items) };
}

impl Inputs {
    /// No columns. It takes no memory.
    pub fn new(alloc: Global) -> Inputs
        ensures empty { result ≡ [] }
    {
        Inputs {
            columns: Vec::new(alloc),
        }
    }

    /// Adds a column behind the others. An `Err` is want of memory, and hands the column back.
    pub fn push(&mut self, column: Series) -> Result<(), Series>
        requires room { length self.old < 2 ^ 32 - 1 }
        ensures added { OnOk result (self.new ≡ self.old ++ column ∷ []) }
        ensures back { IfErr result (λ c. c ≡ column) }
        ensures unchanged { IfErr result (λ _. self.new ≡ self.old) }
    {
        column.known();
        match self.columns.push(column) {
            Ok(()) => Ok(()),
            Err(refused) => Err(refused.value),
        }
    }

    /// How many columns there are.
    pub fn len(&self) -> u32
        ensures value { result ≡ length self.now }
    {
        self.columns.len() as u32
    }

    /// The column of this number, none where it is at or past `len`.
    pub fn get(&self, index: u32) -> Option<&Series>
        ensures column { option_copied result ≡ slice_get self.now index }
    {
        self.columns.get(index as usize)
    }

    /// Does nothing: its clause tells what holds of the columns.
    pub fn known(&self)
        ensures valid { All IsValidColumn (columns_of self.now) }
    {
        let _ = &self.columns;
    }
}
