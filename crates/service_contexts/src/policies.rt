//! The component of a profile that carries policies.
ghost use Rattle.std.specs.Prelude.{◌≡◌, IfOk, List};
ghost use Rattle.std.specs.Option.{option_map};
ghost use Rattle.orb_base.specs.Tagged as Plain;
ghost use Rattle.orb_base.specs.declared.order.Order.TheVariants.{Big};
ghost use Rattle.cdr_core.specs.Encapsulation.{encapsulation};
ghost use Rattle.cdr_core.specs.Lists.{list_fields, tagged_fields, AreCounted, item_of_tagged};
ghost use Rattle.service_contexts.specs.Laws.{IsExactly};
ghost use Rattle.service_contexts.specs.Moves.{Moves, items_of};
ghost use Rattle.service_contexts.specs.Policies.{CarriesPolicies, policies_at};
ghost use Rattle.service_contexts.specs.Reading.{carried};

use cdr_core::{CdrError, Reader, Writer, put_list, take_list};
use orb_base::{NoMemory, Octets, Order, Tagged};
use std::alloc::Global;

/// The tag of the component that carries policies, TAG_POLICIES: CORBA 3.0.3, section 13.6.6.
pub const POLICIES_TAG: u32 = 2;

/// The type of the priority model policy: Real-time CORBA 1.2, Priority models.
pub const MODEL_POLICY: u32 = 40;

/// The type of the priority banded connection policy: Real-time CORBA 1.2, Priority banded connections.
pub const BANDS_POLICY: u32 = 45;

/// The data of a component of policies, big endian: the encapsulation of the number of policies and of each policy's
/// type, as its tag, and value, as its octets. Each length must be below 2^32. Work grows with the bytes. Own profile.
pub fn policies_component(alloc: Global, policies: &[Tagged]) -> Result<Octets, NoMemory>
    requires { AreCounted item_of_tagged policies.now }
    ensures { IfOk result (λ octets. octets.items ≡ encapsulation Big (list_fields tagged_fields policies.now)) }
{
    let mut into = Writer::new(alloc, Order::Big, 0);
    into.put_u8(0)?;
    put_list(&mut into, policies)?;
    Ok(into.finish())
}

/// The policies that the data of a component of policies carries, in either byte order: of each its type as the tag and
/// its value as the octets, which are copied. Ok(None) exactly where the bytes have no reading; bytes after are
/// ignored. Takes memory as policies come. Work grows with the bytes.
#[tactic(auto, unfolding(crate::specs::Reading::carried))]
pub fn read_policies_component(
    alloc: Global,
    bytes: &[u8],
) -> Result<Option<orb_base::List<Tagged>>, NoMemory>
    ensures exact { IfOk result (λ policies. option_map items_of policies ≡ carried policies_at bytes.now) }
    ensures carries { IfOk result (λ policies.
        IsExactly (option_map items_of policies) (λ list. CarriesPolicies list bytes.now)) }
{
    match Reader::encapsulated(bytes) {
        Ok(mut reader) => take_policies(alloc, &mut reader),
        Err(_) => Ok(None),
    }
}

/// Takes policies after their number.
#[tactic(auto, unfolding(crate::specs::Policies::policies_at))]
fn take_policies(
    alloc: Global,
    reader: &mut Reader<'_>,
) -> Result<Option<orb_base::List<Tagged>>, NoMemory>
    ensures { IfOk result (λ policies.
        Moves (option_map items_of policies) reader.new (policies_at reader.old)) }
{
    match take_list(alloc, reader) {
        Ok(policies) => Ok(Some(policies)),
        Err(CdrError::Refused(_)) => Ok(None),
        Err(CdrError::NoMemory) => Err(NoMemory),
    }
}
