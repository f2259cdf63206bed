//! Things that clash with earlier ones of their list.
ghost use Rattle.std.specs.Prelude.{◌≡◌, Bool, []};
ghost use Rattle.std.specs.List.{list_any};
ghost use Rattle.adapter_policies.specs.BandRelations.{rows_share_one, share_one};
ghost use Rattle.adapter_policies.specs.Found.{first_clash};
ghost use Rattle.adapter_policies.specs.NameRelations.{same_name, same_key};

use crate::adapter::AdapterTable;
use crate::band::BandTable;
use crate::inbound::InboundTable;
use crate::object::ObjectTable;

/// What may clash with another of its kind.
pub trait Clashing {
    ghost clash: { Self → Self → Bool };

    /// Whether it clashes with another one after it.
    fn clashes(&self, other: &Self) -> bool
        ensures { result ≡ clash self.now other.now };
}

/// Adapters clash by their names.
impl Clashing for AdapterTable {
    ghost clash = { same_name };

    fn clashes(&self, other: &AdapterTable) -> bool {
        self.name == other.name
    }
}

/// Objects clash by their keys.
impl Clashing for ObjectTable {
    ghost clash = { same_key };

    fn clashes(&self, other: &ObjectTable) -> bool {
        self.key == other.key
    }
}

/// Bands clash where they share a priority.
impl Clashing for BandTable {
    ghost clash = { share_one };

    fn clashes(&self, other: &BandTable) -> bool {
        self.low <= other.high && other.low <= self.high
    }
}

/// Rows of a transform clash where their bands share a priority.
impl Clashing for InboundTable {
    ghost clash = { rows_share_one };

    fn clashes(&self, other: &InboundTable) -> bool {
        self.low <= other.high && other.low <= self.high
    }
}

/// The number of the first thing that clashes with an earlier one. The work is the square of their number.
pub fn first_clash<T: Clashing>(things: &[T]) -> Option<usize>
    ensures { result ≡ first_clash T.clash [] 0 things.now }
{
    for n in 0..things.len() {
        if clashes_with_one(&things[..n], &things[n]) {
            return Some(n);
        }
    }
    None
}

/// Whether one of some things clashes with another.
fn clashes_with_one<T: Clashing>(things: &[T], other: &T) -> bool
    ensures { result ≡ list_any (λ e. T.clash e other.now) things.now }
{
    things.iter().any(|thing| thing.clashes(other))
}
