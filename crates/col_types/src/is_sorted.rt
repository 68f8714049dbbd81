// The claim on order that a column keeps.
ghost use Rattle.std.specs.Prelude.{◌≡◌};
ghost use Rattle.col_types.specs.IsSorted.{reversed};

/// The order that the valid slots of a column are known to be in.
#[derive(Clone, Copy, Debug, PartialEq, Eq, Hash)]
pub enum IsSorted {
    Ascending,
    Descending,
    /// No order is known.
    Not,
}

impl IsSorted {
    /// The order of the slots backwards.
    pub fn reverse(self) -> Self
        ensures order { result ≡ reversed self }
    {
        match self {
            IsSorted::Ascending => IsSorted::Descending,
            IsSorted::Descending => IsSorted::Ascending,
            IsSorted::Not => IsSorted::Not,
        }
    }
}
