//! Which adapters may have a transform.
ghost use Rattle.std.specs.Prelude.{◌≡◌, position};
ghost use Rattle.config_tables.specs.Fault.{Judged};
ghost use Rattle.adapter_policies.specs.TransformRelations.{has_idle_transform, has_rows, transform_not_allowed_fault};

use crate::adapter::AdapterTable;
use crate::inbound::InboundTable;
use crate::name_relations::lets_stand;
use crate::refusals::refuse_entry_key;
use config_tables::{ConfigCause, SetupError};
use std::alloc::Global;

/// Judges that an adapter has a transform only where it lets the client's priority stand.
pub fn judge_transforms(alloc: Global, adapters: &[AdapterTable]) -> Result<(), SetupError>
    ensures { Judged result (transform_not_allowed_fault adapters.now) }
{
    let found = first_idle(adapters);
    refuse_entry_key(
        alloc,
        "adapter",
        "inbound",
        ConfigCause::TransformNotAllowed,
        found,
    )
}

/// The number of the first adapter that has a transform and doesn't let the client's priority stand.
fn first_idle(adapters: &[AdapterTable]) -> Option<usize>
    ensures { result ≡ position has_idle_transform adapters.now }
{
    adapters
        .iter()
        .position(|adapter| has_idle_transform(adapter))
}

/// Whether an adapter has a transform and doesn't let the client's priority stand.
fn has_idle_transform(adapter: &AdapterTable) -> bool
    ensures { result ≡ has_idle_transform adapter.now }
{
    !lets_stand(adapter) && has_rows(adapter.inbound.as_slice())
}

/// Whether there is a row.
fn has_rows(rows: &[InboundTable]) -> bool
    ensures { result ≡ has_rows rows.now }
{
    !rows.is_empty()
}
