//! References of objects, as they are published.
ghost use Rattle.std.specs.Prelude.{◌≡◌, ◌<◌, ◌+◌, ◌^◌, ◌∷◌, [], IfOk, length};
ghost use Rattle.std.specs.List.{AllByRecursion};
ghost use Rattle.cdr_core.specs.Lists.{FitsList, FitsTagged};
ghost use Rattle.object_refs.specs.Profiles.{IsFirstProfile, tagged_profile};
ghost use Rattle.object_refs.specs.Layout.{FitsProfile, FitsReference, FitsText, IsCountedProfile};
ghost use Rattle.service_contexts.specs.Layout.{IsBand, IsPriority};
ghost use Rattle.adapter_policies.specs.Publishing.{Tells, model_tagged, bands_tagged, policies_of, component_of, profile_of, reference_of};

use crate::adapter_spec::AdapterSpec;
use crate::object_spec::ObjectSpec;
use object_refs::{IiopProfile, Ior, write_iiop};
use orb_base::{Band, List, NoMemory, Octets, Priority, Tagged, Text};
use service_contexts::{
    BANDS_POLICY, MODEL_POLICY, POLICIES_TAG, bands_policy, model_policy, policies_component,
};
use std::alloc::Global;

/// Tagged octets, where an unsigned long counts them.
fn counted(tag: u32, bytes: Octets) -> Result<Tagged, NoMemory>
    ensures tagged { IfOk result (λ t. (t.tag ≡ tag) × (t.bytes ≡ bytes.items)) }
    ensures fits { IfOk result FitsTagged }
{
    if bytes.len() > 4_294_967_295 {
        return Err(NoMemory);
    }
    Ok(Tagged { tag, bytes })
}

/// The policy of an object's priority model.
fn model_policy_of(
    alloc: Global,
    adapter: &AdapterSpec,
    object: &ObjectSpec,
) -> Result<Tagged, NoMemory>
    ensures value { IfOk result (λ t. t ≡ model_tagged adapter.now object.now) }
    ensures fits { IfOk result FitsTagged }
{
    let value = model_policy(adapter.model, object.priority);
    let bytes = Vec::from_slice(alloc, &value)?;
    counted(MODEL_POLICY, List::from_vec(bytes))
}

/// The policy of an adapter's bands.
fn bands_policy_of(alloc: Global, bands: &[Band]) -> Result<Tagged, NoMemory>
    requires { length bands.now < 2 ^ 32 }
    ensures value { IfOk result (λ t. t ≡ bands_tagged bands.now) }
    ensures fits { IfOk result FitsTagged }
{
    let bytes = bands_policy(alloc, bands)?;
    counted(BANDS_POLICY, bytes)
}

/// A list of one.
fn one(alloc: Global, first: Tagged) -> Result<List<Tagged>, NoMemory>
    requires { FitsTagged first }
    ensures items { IfOk result (λ list. list.items ≡ first ∷ []) }
    ensures fits { IfOk result (λ list. FitsList FitsTagged list.items) }
{
    let mut list = List::new(alloc);
    match list.push(first) {
        Ok(()) => Ok(list),
        Err(_) => Err(NoMemory),
    }
}

/// A list of two.
fn two(alloc: Global, first: Tagged, second: Tagged) -> Result<List<Tagged>, NoMemory>
    requires first { FitsTagged first }
    requires second { FitsTagged second }
    ensures items { IfOk result (λ list. list.items ≡ first ∷ second ∷ []) }
    ensures fits { IfOk result (λ list. FitsList FitsTagged list.items) }
{
    let mut list = one(alloc, first)?;
    match list.push(second) {
        Ok(()) => Ok(list),
        Err(_) => Err(NoMemory),
    }
}

/// The policies of an object.
#[tactic(auto, using(crate::proofs::Published::bands_some))]
fn policies_of(
    alloc: Global,
    adapter: &AdapterSpec,
    object: &ObjectSpec,
) -> Result<List<Tagged>, NoMemory>
    requires { length adapter.now.bands < 2 ^ 32 }
    ensures value { IfOk result (λ list. list.items ≡ policies_of adapter.now object.now) }
    ensures fits { IfOk result (λ list. FitsList FitsTagged list.items) }
{
    let model = model_policy_of(alloc, adapter, object)?;
    if adapter.bands.is_empty() {
        return one(alloc, model);
    }
    let bands = bands_policy_of(alloc, adapter.bands.as_slice())?;
    two(alloc, model, bands)
}

/// The component that carries policies.
#[tactic(auto, using(crate::proofs::Published::are_counted))]
fn component_of(alloc: Global, policies: &[Tagged]) -> Result<Tagged, NoMemory>
    requires { FitsList FitsTagged policies.now }
    ensures value { IfOk result (λ t. t ≡ component_of policies.now) }
    ensures fits { IfOk result FitsTagged }
{
    let bytes = policies_component(alloc, policies)?;
    counted(POLICIES_TAG, bytes)
}

/// The profile of an object at a host and a port, with its component.
fn profile_with(
    alloc: Global,
    component: Tagged,
    object: &ObjectSpec,
    host: &Text,
    port: u16,
) -> Result<IiopProfile, NoMemory>
    requires { FitsTagged component }
    ensures value { IfOk result (λ p. p ≡ (record {
      minor = 2;
      host = host.now;
      port = port;
      key = object.now.key;
      components = component ∷ [];
    })) }
    ensures fits { IfOk result (λ p. FitsList FitsTagged p.components) }
{
    let host = host.copy(alloc)?;
    let key = Vec::from_slice(alloc, object.key.as_slice())?;
    let components = one(alloc, component)?;
    Ok(IiopProfile {
        minor: 2,
        host,
        port,
        key: List::from_vec(key),
        components,
    })
}

/// Shows that a priority is 0 to 32767.
fn show_priority(priority: Priority)
    ensures { IsPriority priority }
{
    let _ = priority.get();
}

/// Shows that a band's ends are priorities, the low one not above the high one.
fn show_band(band: Band)
    ensures { IsBand band }
{
    show_priority(band.high());
}

/// Shows that bands are bands. One pass over them.
fn show_bands(bands: &[Band])
    ensures { AllByRecursion IsBand bands.now }
{
    for band in bands {
        show_band(*band);
    }
}

/// The profile of an object at a host and a port.
fn profile_of(
    alloc: Global,
    adapter: &AdapterSpec,
    object: &ObjectSpec,
    host: &Text,
    port: u16,
) -> Result<IiopProfile, NoMemory>
    ensures value { IfOk result (λ p. p ≡ profile_of adapter.now object.now host.now port) }
    ensures fits { IfOk result (λ p. FitsList FitsTagged p.components) }
    ensures told { IfOk result (λ p. Tells adapter.now object.now.priority p.components) }
{
    if adapter.bands.len() > 4_294_967_295 {
        return Err(NoMemory);
    }
    show_priority(object.priority);
    show_bands(adapter.bands.as_slice());
    let policies = policies_of(alloc, adapter, object)?;
    let component = component_of(alloc, policies.as_slice())?;
    profile_with(alloc, component, object, host, port)
}

/// Tagged data, where an unsigned long counts its octets.
fn counted_tagged(tagged: Tagged) -> Result<Tagged, NoMemory>
    ensures same { IfOk result (λ t. t ≡ tagged) }
    ensures fits { IfOk result FitsTagged }
{
    counted(tagged.tag, tagged.bytes)
}

/// The text of an interface, where an unsigned long counts it with its NUL.
fn interface_of(alloc: Global, interface: &Text) -> Result<Text, NoMemory>
    ensures same { IfOk result (λ t. t ≡ interface.now) }
    ensures fits { IfOk result FitsText }
{
    if interface.as_slice().len() > 4_294_967_294 {
        return Err(NoMemory);
    }
    interface.copy(alloc)
}

/// The reference with a profile, which is read back.
fn reference_with(alloc: Global, interface: &Text, profile: &IiopProfile) -> Result<Ior, NoMemory>
    requires fits { FitsProfile profile.now }
    requires version { profile.now.minor ≡ 2 }
    requires counted { IsCountedProfile profile.now }
    ensures value { IfOk result (λ r. r ≡ (record { type_id = interface.now; profiles = tagged_profile profile.now ∷ [] })) }
    ensures fits { IfOk result FitsReference }
    ensures first { IfOk result (IsFirstProfile profile.now) }
{
    let type_id = interface_of(alloc, interface)?;
    let tagged = counted_tagged(write_iiop(alloc, profile)?)?;
    let profiles = one(alloc, tagged)?;
    Ok(Ior { type_id, profiles })
}

/// The reference of an object at a host and a port: its interface, and one profile of IIOP 1.2 with the object's policies.
#[tactic(auto, using(crate::proofs::Published::are_counted))]
pub fn reference_of(
    alloc: Global,
    adapter: &AdapterSpec,
    object: &ObjectSpec,
    host: &Text,
    port: u16,
) -> Result<Ior, NoMemory>
    requires host { length host.now + 1 < 2 ^ 32 }
    requires key { length object.now.key < 2 ^ 32 }
    ensures spelled { IfOk result (λ r. r ≡ reference_of adapter.now object.now host.now port) }
    ensures fits { IfOk result FitsReference }
    ensures first { IfOk result (IsFirstProfile (profile_of adapter.now object.now host.now port)) }
    ensures told { IfOk result (λ r. Tells adapter.now object.now.priority
        (profile_of adapter.now object.now host.now port).components) }
{
    let _ = host.as_slice();
    let profile = profile_of(alloc, adapter, object, host, port)?;
    reference_with(alloc, &object.interface, &profile)
}
