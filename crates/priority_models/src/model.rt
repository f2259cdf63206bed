//! The mandated priority.
ghost use Rattle.std.specs.Prelude.{◌≡◌};
ghost use Rattle.priority_models.specs.Transforms.{mandated};

use crate::transform::Transform;
use orb_base::{Priority, PriorityModel};

/// The priority that a request runs at. Under SERVER_DECLARED it is the server's; under CLIENT_PROPAGATED it is the server's
/// where none was sent, else what becomes of the one that was sent, and None where no row of the transform holds that. The
/// server's is the object's, which is the adapter's where the object names none. One pass over the rows, no memory.
pub fn mandated(
    model: PriorityModel,
    server: Priority,
    inbound: &Transform,
    sent: Option<Priority>,
) -> Option<Priority>
    ensures { result ≡ mandated model server inbound.now sent }
{
    match (model, sent) {
        (PriorityModel::ClientPropagated, Some(priority)) => inbound.inbound(priority),
        _ => Some(server),
    }
}
