//! The value of a priority model policy.
ghost use Rattle.std.specs.Prelude.{◌≡◌};
ghost use Rattle.std.specs.Int.{w32};
ghost use Rattle.cdr_core.specs.Encapsulation.{encapsulation};
ghost use Rattle.cdr_core.specs.Field.{number_bytes};
ghost use Rattle.orb_base.specs.Priorities.{model_number};
ghost use Rattle.orb_base.specs.declared.order.Order.TheVariants.{Big};
ghost use Rattle.service_contexts.specs.Carrying.{CarriesModel};
ghost use Rattle.service_contexts.specs.Laws.{IsExactly};
ghost use Rattle.service_contexts.specs.Layout.{model_fields};
ghost use Rattle.service_contexts.specs.Reading.{model_at, carried};

use crate::read::take_model;
use crate::short::short_bytes;
use cdr_core::{Reader, bytes_of_u32};
use orb_base::{Order, Priority, PriorityModel};

/// The value of a priority model policy, big endian: the encapsulation of the number of the model and of the server's
/// priority as a short. Takes no memory. Own profile.
pub fn model_policy(model: PriorityModel, priority: Priority) -> [u8; 10]
    ensures { result ≡ encapsulation Big (model_fields (model, priority)) }
{
    let [a, b, c, d] = model_bytes(model);
    let [e, f] = short_bytes(Order::Big, priority);
    [0, 0, 0, 0, a, b, c, d, e, f]
}

/// The number of the model as an unsigned long.
fn model_bytes(model: PriorityModel) -> [u8; 4]
    ensures { result ≡ number_bytes Big w32 (model_number model) }
{
    bytes_of_u32(Order::Big, model.number())
}

/// The model and the server's priority that the value of a priority model policy carries, in either byte order. None
/// exactly where the bytes have no reading; bytes after are ignored. Takes no memory.
#[tactic(auto, unfolding(crate::specs::Reading::carried))]
pub fn read_model_policy(bytes: &[u8]) -> Option<(PriorityModel, Priority)>
    ensures exact { result ≡ carried model_at bytes.now }
    ensures carries { IsExactly result (λ value. CarriesModel value bytes.now) }
{
    let mut reader = Reader::encapsulated(bytes).ok()?;
    take_model(&mut reader)
}
