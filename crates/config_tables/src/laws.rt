//! Laws of the judging of tables, each the contract of a call that does nothing.
ghost use Rattle.std.specs.Prelude.{◌≡◌, ℕ, List, Some, None};
ghost use Rattle.toml.specs.Data.{Members};
ghost use Rattle.toml.specs.View.{table_view};
ghost use Rattle.config_tables.specs.Holding.{TablesHold};
ghost use Rattle.config_tables.specs.Judging.{tables_fault};
ghost use Rattle.config_tables.specs.Keys.{unknown_key};
ghost use Rattle.config_tables.specs.Laws.{AreKnown, IsLeastUnknown};
ghost use Rattle.config_tables.specs.Rules.{Kind, Rule};

use toml::Table;

/// The unknown key that a table is refused for is the least of its unknown keys by their bytes.
pub fn the_least_unknown_key_is_told(table: &Table)
    ensures { (known : List (List ℕ)) (k : List ℕ) → unknown_key known (table_view table.now) ≡ Some k
        → IsLeastUnknown known (table_view table.now) k }
{
    let _ = table.len();
}

/// Where no unknown key is given, each key is known.
#[tactic(auto, using(crate::proofs::LeastKey::all_known))]
pub fn keys_without_a_fault_are_known()
    ensures { (known : List (List ℕ)) (ms : Members) → unknown_key known ms ≡ None → AreKnown known ms }
{}

/// A document without a fault by the description of its tables meets each rule of it.
pub fn tables_without_a_fault_meet_their_rules()
    ensures { (top : List (Rule Kind)) (tables : List (List ℕ × List (Rule Kind))) (ms : Members)
        → tables_fault top tables ms ≡ None → TablesHold top tables ms }
{}
