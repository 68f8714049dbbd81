// Laws above the definitions. Each function does nothing: its contract is the law.
ghost use Rattle.std.specs.Prelude.{◌≡◌, ◌↔◌, List, ℕ, [], true, Option, Some, None, Ok};
ghost use Rattle.std.specs.Cmp.{IsEquivalence};
ghost use Rattle.col_types.specs.declared.data_type.DataType.{DataType};
ghost use Rattle.col_types.specs.DataType.{same_type, shape_of};
ghost use Rattle.col_types.specs.declared.is_sorted.IsSorted.{IsSorted};
ghost use Rattle.col_types.specs.declared.time_unit.TimeUnit.{TimeUnit};
ghost use Rattle.col_types.specs.TimeUnit.{coarser_unit, to_arrow, from_arrow};
ghost use Rattle.col_types.specs.IsSorted.{reversed};
ghost use Rattle.col_types.specs.Zones.{opt_zone, eq_wildcard_aware, eq_none_as_utc};
ghost use Rattle.col_types.specs.Laws.{OrdersByTick, HasOneMore, GivesItselfAgain};
ghost use Rattle.col_types.specs.Laws.{WildcardJoinsWhatDiffers};
ghost use Rattle.col_types.specs.KnownValues.{KnownUnits, KnownZones};
ghost use Rattle.col_types.specs.KnownValues.{KnownTypes, KnownSupertypes};

use crate::{DataType, TimeUnit};

/// The claim that was turned twice is the first one.
pub fn reverse_flag()
    ensures twice { (order : IsSorted) → reversed (reversed order) ≡ order }
{}

/// A unit is less than another exactly where its tick is shorter.
pub fn units_are_ordered()
    ensures order { OrdersByTick ⟦<TimeUnit as PartialOrd>⟧.partial_cmp }
{}

/// Arrow has each unit under its name, and of two units it doesn't matter which comes first.
pub fn units_translate()
    ensures back { (unit : TimeUnit) → from_arrow (to_arrow unit) ≡ unit }
    ensures coarser { (u v : TimeUnit) → coarser_unit u v ≡ coarser_unit v u }
{}

/// Of names with one more, those are had that were there, and the new one.
pub fn names_are_kept()
    ensures kept { (names : List (List ℕ)) (name : List ℕ) → HasOneMore names name }
{}

/// The name of a zone names that zone, and the empty text names none.
pub fn zone_names_are_canonical()
    ensures again { (names : List (List ℕ)) (text : Option (List ℕ)) → GivesItselfAgain names text }
    ensures empty { (names : List (List ℕ)) → opt_zone names (Some []) ≡ Ok None }
{}

/// Equality where none counts as `UTC` is an equivalence; that where the wildcard equals each zone
/// is reflexive and symmetric, but not transitive.
pub fn zone_equalities()
    ensures none_as_utc { IsEquivalence eq_none_as_utc }
    ensures reflexive { (y : List ℕ) → eq_wildcard_aware y y ≡ true }
    ensures symmetric { (y z : List ℕ) → eq_wildcard_aware y z ≡ eq_wildcard_aware z y }
    ensures not_transitive { WildcardJoinsWhatDiffers }
{}

/// Two types are equal by `==` exactly where they are equal wherever their boxes lie, which is
/// where they have one shape.
pub fn equal_types()
    ensures derived { (a b : DataType) → ⟦<DataType as PartialEq>⟧.eq a b ≡ same_type a b }
    ensures shapes { (a b : DataType) → (same_type a b ≡ true) ↔ (shape_of a ≡ shape_of b) }
{}

/// Ticks of a day and coarser units, by hand.
pub fn known_units()
    ensures values { KnownUnits }
{}

/// Texts that name zones and texts that don't, by hand.
pub fn known_zones()
    ensures values { KnownZones }
{}

/// Types and their classes, by hand.
pub fn known_types()
    ensures values { KnownTypes }
{}

/// Pairs of types and their supertypes, by hand.
pub fn known_supertypes()
    ensures values { KnownSupertypes }
{}
