//! Which interfaces an interface is one of.
ghost use Rattle.std.specs.Prelude.{◌≡◌};
ghost use Rattle.idl_types.specs.Contents.{things_of};
ghost use Rattle.dynamic_servants.specs.Kin as Spec;

use idl_types::Repository;

/// Whether the interface of the first id is one of the other's. Follows no base twice. Takes no memory.
pub(crate) fn is_one_of(repository: &Repository, id: &[u8], other: &[u8]) -> bool
    ensures { result ≡ Spec.is_one_of (things_of repository.now) id.now other.now }
{
    repository.is_a(id, other)
}
