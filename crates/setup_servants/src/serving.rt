//! Whether each object of a setup is served.
ghost use Rattle.std.specs.Prelude.{◌≡◌};
ghost use Rattle.std.specs.List.{position_from};
ghost use Rattle.config_tables.specs.Fault.{Judged};
ghost use Rattle.dynamic_servants.specs.Served.{served_of};
ghost use Rattle.setup_servants.specs.Serving as Spec;

use adapter_policies::{ObjectSpec, Setup};
use config_tables::{ConfigCause, SetupError, entry_path, refuse_key};
use dynamic_servants::Servants;
use std::alloc::Global;

/// Whether no servant serves the interface of an object.
#[tactic(auto, unfolding(crate::specs::Serving::is_unserved))]
fn is_unserved(servants: &Servants, object: &ObjectSpec) -> bool
    ensures { result ≡ Spec.is_unserved (served_of servants.now) object.now }
{
    !servants.serves(object.interface.as_slice())
}

/// The number of the first object that no servant serves.
#[tactic(auto, using(crate::proofs::Walks::object_there, crate::proofs::Walks::passed_over, crate::proofs::Walks::found_there, crate::proofs::Walks::none_there))]
fn first_unserved(setup: &Setup, servants: &Servants) -> Option<u16>
    ensures { result ≡ position_from (Spec.is_unserved (served_of servants.now)) 0 setup.now.objects }
{
    let mut n: u16 = 0;
    while let Some(object) = setup.object(n) {
        if is_unserved(servants, object) {
            return Some(n);
        }
        n += 1;
    }
    None
}

/// Judges that each object is of an interface that a servant serves. One pass over the objects.
pub(crate) fn judge_served(
    alloc: Global,
    setup: &Setup,
    servants: &Servants,
) -> Result<(), SetupError>
    ensures { Judged result (Spec.unserved_fault (served_of servants.now) setup.now) }
{
    match first_unserved(setup, servants) {
        None => Ok(()),
        Some(n) => match entry_path(alloc, "object", usize::from(n)) {
            Ok(entry) => Err(refuse_key(
                alloc,
                entry.as_str(),
                "interface",
                ConfigCause::UnknownInterface,
            )),
            Err(_) => Err(SetupError::NoMemory),
        },
    }
}
