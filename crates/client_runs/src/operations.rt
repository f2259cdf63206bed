//! The operation of a call.
ghost use Rattle.std.specs.Prelude.{◌≡◌};
ghost use Rattle.idl_types.specs.Contents.{things_of};
ghost use Rattle.idl_types.specs.Views.{operation_of};
ghost use Rattle.client_runs.specs.Judging as Spec;

use crate::call_end::{CallEnd, LocalFault};
use crate::call_words::CallWords;
use client_stub::Remote;
use idl_types::{Operation, Repository};
use orb_base::Text;

/// The id of the interface that is called.
fn interface_id<'a>(words: &'a CallWords, remote: &'a Remote) -> &'a Text
    ensures { result.now ≡ Spec.interface_id words.now remote.now }
{
    match &words.interface {
        Some(id) => id,
        None => &remote.type_id,
    }
}

/// The operation of this name, in the interface of this id.
fn operation_in<'r>(
    repository: &'r Repository,
    id: &Text,
    name: &Text,
) -> Result<&'r Operation, CallEnd>
    ensures { Spec.Gives (λ o. operation_of o.now) result (Spec.operation_in (things_of repository.now) id.now name.now) }
{
    if repository.interface(id.as_slice()).is_none() {
        return Err(CallEnd::Local(LocalFault::NoInterface));
    }
    match repository.find_operation(id.as_slice(), name.as_slice()) {
        Some(operation) => Ok(operation),
        None => Err(CallEnd::Local(LocalFault::NoOperation)),
    }
}

/// The operation that the words name: in the interface of their id, or else in that of the reference's type. Costs three hashes. Takes no
/// memory.
pub(crate) fn operation_by<'r>(
    repository: &'r Repository,
    words: &CallWords,
    remote: &Remote,
) -> Result<&'r Operation, CallEnd>
    ensures { Spec.Gives (λ o. operation_of o.now) result (Spec.operation_by words.now (things_of repository.now) remote.now) }
{
    operation_in(repository, interface_id(words, remote), &words.operation)
}
