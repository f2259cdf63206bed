//! Numbers of which each is there once.
ghost use Rattle.std.specs.Prelude.{◌≡◌, OnOk};
ghost use Rattle.idl_names.specs.Each.{and_each};

use indexmap::IndexSet;
use orb_base::NoMemory;

/// Places after others, unless they are among them. One look-up by the index for each.
pub(crate) fn add_places(found: &mut IndexSet<u32>, places: &[u32]) -> Result<(), NoMemory>
    ensures { OnOk result (found.new.keys ≡ and_each found.old.keys places.now) }
{
    for place in places {
        found.insert(*place)?;
    }
    Ok(())
}
