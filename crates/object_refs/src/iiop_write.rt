//! The writing of IIOP profiles: CORBA 3.0.3, section 15.7.2.
ghost use Rattle.std.specs.Prelude.{◌≡◌, ◌+◌, ◌<◌, ◌≤◌, ◌^◌, [], ◌∷◌, ◌++◌, ◌⊎◌, length, IfOk};
ghost use Rattle.std.specs.Int.{w8, w16};
ghost use Rattle.orb_base.specs.declared.order.Order.TheVariants.{Big};
ghost use Rattle.cdr_core.specs.Encapsulation.{encapsulation};
ghost use Rattle.cdr_core.specs.Field.{number, string_fields, octets_fields};
ghost use Rattle.cdr_core.specs.Writing.{Puts};
ghost use Rattle.cdr_core.specs.Lists.{AreCounted, item_of_tagged};
ghost use Rattle.object_refs.specs.Layout.{FitsProfile, IsCountedProfile};
ghost use Rattle.object_refs.specs.Layout.{components_fields, profile_fields};
ghost use Rattle.object_refs.specs.Profiles.{IsProfile, tagged_profile};

use crate::iiop_profile::IiopProfile;
use crate::iiop_read::IIOP_TAG;
use cdr_core::{Writer, put_list};
use orb_base::{NoMemory, Octets, Order, Tagged, Text};
use std::alloc::Global;

/// Puts an address: a host and a port.
fn put_address(into: &mut Writer, host: &Text, port: u16) -> Result<(), NoMemory>
    requires { length host.now + 1 < 2 ^ 32 }
    ensures { Puts result into.old into.new (string_fields host.now ++ number w16 port ∷ []) }
{
    into.put_string(host)?;
    into.put_u16(port)
}

/// Puts a version: 1 and the minor version.
fn put_version(into: &mut Writer, minor: u8) -> Result<(), NoMemory>
    ensures { Puts result into.old into.new (number w8 1 ∷ number w8 minor ∷ []) }
{
    into.put_u8(1)?;
    into.put_u8(minor)
}

/// Puts components, where the version has them.
fn put_components(into: &mut Writer, present: bool, list: &[Tagged]) -> Result<(), NoMemory>
    requires { AreCounted item_of_tagged list.now }
    ensures { Puts result into.old into.new (components_fields present list.now) }
{
    if present {
        put_list(into, list)
    } else {
        Ok(())
    }
}

/// Puts a profile.
fn put_profile(into: &mut Writer, profile: &IiopProfile) -> Result<(), NoMemory>
    requires { IsCountedProfile profile.now }
    ensures { Puts result into.old into.new (profile_fields profile.now) }
{
    put_version(into, profile.minor)?;
    put_address(into, &profile.host, profile.port)?;
    into.put_octets(profile.key.as_slice())?;
    put_components(into, profile.minor > 0, profile.components.as_slice())
}

/// The encapsulation of a profile, big endian.
fn encapsulated(alloc: Global, profile: &IiopProfile) -> Result<Octets, NoMemory>
    requires { IsCountedProfile profile.now }
    ensures { IfOk result (λ o. o.items ≡ encapsulation Big (profile_fields profile.now)) }
{
    let mut into = Writer::new(alloc, Order::Big, 0);
    into.put_u8(0)?;
    put_profile(&mut into, profile)?;
    Ok(into.finish())
}

/// Writes a profile of IIOP 1.`minor` as the one spelling of it in big order: the tag of IIOP, and the encapsulation.
/// Each length must be below 2^32, and a profile of version 1.0 has no components. Work grows with the profile.
pub fn write_iiop(alloc: Global, profile: &IiopProfile) -> Result<Tagged, NoMemory>
    requires counted { IsCountedProfile profile.now }
    requires version { (1 ≤ profile.now.minor) ⊎ (profile.now.components ≡ []) }
    ensures tagged { IfOk result (λ t. t ≡ tagged_profile profile.now) }
    // From version 1.2 on, what is written is read as the profile.
    ensures reads_back { FitsProfile profile.now → 2 ≤ profile.now.minor
        → IfOk result (λ t. IsProfile profile.now t.bytes) }
{
    let bytes = encapsulated(alloc, profile)?;
    Ok(Tagged {
        tag: IIOP_TAG,
        bytes,
    })
}
