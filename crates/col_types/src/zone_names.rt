// The names of zones that a caller hands in.
ghost use Rattle.std.specs.Prelude.{◌≡◌, ◌≢◌, ◌<◌, ◌≤◌, [], Ok, IsTrue, length, codes};
ghost use Rattle.col_types.specs.Zones.{max_zone_bytes, has_name, with_name};
ghost use Rattle.col_types.specs.PolarsError.{Becomes};

use crate::{PlSmallStr, PolarsResult};
use std::alloc::Global;
use std::collections::BTreeSet;
use std::marker::Model;
use std::rc::RcStr;

/// A set of names of zones. A contract sees it as the names in the order of their bytes.
#[derive(Drop)]
pub struct ZoneNames {
    names: BTreeSet<RcStr>,
}

impl Model for ZoneNames {
    ghost use Rattle.std.specs.Prelude.{List, ℕ, map};
    ghost use Rattle.std.specs.Rc.{rc_str_bytes};
    ghost use Rattle.col_types.specs.Zones.{AreShort};

    ghost Value = { List (List ℕ) };

    ghost view = { λ z. map rc_str_bytes z.names.keys };

    ghost invariant = { λ z. AreShort (map rc_str_bytes z.names.keys) };
}

impl ZoneNames {
    /// No names.
    pub fn new(alloc: Global) -> ZoneNames
        ensures none { result ≡ [] }
    {
        ZoneNames {
            names: BTreeSet::new(alloc),
        }
    }

    /// Hands in a name of 1 to 64 bytes that isn't the wildcard. The one refusal is `NoMemory`.
    pub fn insert(&mut self, name: PlSmallStr) -> PolarsResult<()>
        requires filled { 0 < length name }
        requires short { length name ≤ max_zone_bytes }
        requires no_wildcard { name ≢ codes "*" }
        ensures names { Becomes result self.old self.new (Ok (with_name self.old name)) }
    {
        self.names.insert(name.into_text())?;
        Ok(())
    }

    /// Whether the name was handed in.
    pub fn contains(&self, name: &str) -> bool
        ensures value { result ≡ has_name self.now name.now }
        ensures short { IsTrue result → length name.now ≤ max_zone_bytes }
    {
        self.names.contains(name)
    }
}
