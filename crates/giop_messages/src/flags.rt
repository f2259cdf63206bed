//! The response flags of a request.
ghost use Rattle.std.specs.Prelude.{◌≡◌};
ghost use Rattle.giop_messages.specs.Flags as Spec;

use orb_base::Due;

/// When a reply is due, by a request's response flags: never where bit 0 is clear, early at 1, late at
/// every other value (CORBA 3.0.3, section 15.4.2).
pub fn due_of(flags: u8) -> Due
    ensures { result ≡ Spec.due_of flags }
{
    if flags % 2 == 0 {
        Due::Nothing
    } else if flags == 1 {
        Due::Early
    } else {
        Due::Late
    }
}
