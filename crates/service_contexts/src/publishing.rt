//! The policies that a profile publishes.
ghost use Rattle.std.specs.Prelude.{◌≡◌, ◌∷◌, [], IfOk, option_map};
ghost use Rattle.std.specs.Option.{option_and_then, option_or};
ghost use Rattle.std.specs.Result.{result_ok};
ghost use Rattle.cdr_core.specs.Lists.{made_at, tagged_of};
ghost use Rattle.cdr_core.specs.Sequence.{times};
ghost use Rattle.service_contexts.specs.Moves.{items_of};
ghost use Rattle.service_contexts.specs.Publishing as Spec;

use crate::bands::read_bands_policy;
use crate::model::read_model_policy;
use crate::policies::{BANDS_POLICY, MODEL_POLICY, POLICIES_TAG};
use cdr_core::Reader;
use orb_base::{Band, NoMemory, Priority, PriorityModel, Tagged, are_apart};
use std::alloc::Global;

/// What was found so far, or else the value of this policy, where it is of the type.
#[tactic(auto, unfolding(crate::specs::Publishing::first_bytes))]
fn first_value<'a>(
    found: Option<&'a [u8]>,
    wanted: u32,
    kind: u32,
    value: &'a [u8],
) -> Option<&'a [u8]>
    ensures { option_map (λ x. x.now) result ≡ option_or (option_map (λ x. x.now) found.entry)
        (Spec.first_bytes wanted (record { tag = kind; bytes = value.now } ∷ [])) }
{
    match found {
        Some(value) => Some(value),
        None if kind == wanted => Some(value),
        None => None,
    }
}

/// Takes so many policies, and gives the value of the first one of the type. One pass over them.
fn find_policy<'a>(wanted: u32, count: u32, reader: &mut Reader<'a>) -> Option<&'a [u8]>
    ensures { option_map (λ x. x.now) result
        ≡ option_and_then (λ policies. Spec.first_bytes wanted policies.0)
        (result_ok (times (made_at tagged_of) count reader.old)) }
{
    let mut found = None;
    for _ in 0..count {
        match reader.take_item() {
            Ok((kind, value)) => found = first_value(found, wanted, kind, value),
            Err(_) => return None,
        }
    }
    found
}

/// The value of the first policy of the type in the data of a component.
#[tactic(auto, unfolding(crate::specs::Publishing::policy_value, crate::specs::Policies::policies_at, crate::specs::Reading::carried, cdr_core::specs::Lists::list_at))]
fn policy_value(kind: u32, component: &[u8]) -> Option<&[u8]>
    ensures { option_map (λ x. x.now) result ≡ Spec.policy_value kind component.now }
{
    let mut reader = Reader::encapsulated(component).ok()?;
    let count = reader.take_count().ok()?;
    find_policy(kind, count, &mut reader)
}

/// The data of the first component with policies.
#[tactic(auto, unfolding(crate::specs::Publishing::first_bytes))]
fn policies_of(components: &[Tagged]) -> Option<&[u8]>
    ensures { option_map (λ x. x.now) result ≡ Spec.first_bytes POLICIES_TAG components.now }
{
    let component = components
        .iter()
        .find(|component| component.tag == POLICIES_TAG)?;
    Some(component.bytes.as_slice())
}

/// The value of the policy of the type that counts.
#[tactic(auto, unfolding(crate::specs::Publishing::published))]
fn published(kind: u32, components: &[Tagged]) -> Option<&[u8]>
    ensures { option_map (λ x. x.now) result ≡ Spec.published kind components.now }
{
    let policies = policies_of(components)?;
    policy_value(kind, policies)
}

/// The priority model and the server's priority that the components of a profile publish: those of the first policy of
/// the type in the first component of policies, where each has a reading. Takes no memory. Work grows with that component.
#[tactic(auto, unfolding(crate::specs::Publishing::published_model))]
pub fn published_model(components: &[Tagged]) -> Option<(PriorityModel, Priority)>
    ensures { result ≡ Spec.published_model components.now }
{
    let value = published(MODEL_POLICY, components)?;
    read_model_policy(value)
}

/// The bands that the components of a profile publish, found in the same way; bands of which two share a priority count as
/// absent. Work grows with the first component of policies and, for n bands, with n log n.
#[tactic(auto, unfolding(crate::specs::Publishing::published_bands))]
pub fn published_bands(
    alloc: Global,
    components: &[Tagged],
) -> Result<Option<orb_base::List<Band>>, NoMemory>
    ensures { IfOk result (λ bands. option_map items_of bands ≡ Spec.published_bands components.now) }
{
    let Some(value) = published(BANDS_POLICY, components) else {
        return Ok(None);
    };
    let Some(bands) = read_bands_policy(alloc, value)? else {
        return Ok(None);
    };
    if are_apart(alloc, bands.as_slice())? {
        Ok(Some(bands))
    } else {
        Ok(None)
    }
}
