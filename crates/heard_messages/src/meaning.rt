//! What one message means by a judge.
ghost use Rattle.std.specs.Prelude.{◌≡◌, IfOk};
ghost use Rattle.giop_messages.specs.MessageReading.{IsMessage};
ghost use Rattle.heard_messages.specs.Hearing as Spec;

use crate::judge::Judge;
use crate::means::Means;
use giop_frames::Whole;
use giop_messages::read_parts;
use orb_base::NoMemory;
use std::alloc::Global;

/// What a message means by a judge, by what was settled before it and by the number of the calls before it: what the judge says of what is
/// read, or that it breaks the connection for the first fault in it. Memory is taken by the judge alone, and the work per byte is constant, but
/// for that of the judge.
pub fn meaning_of<J: Judge>(
    alloc: Global,
    judge: &J,
    bound: &J::Bound,
    serial: u32,
    whole: &Whole,
) -> Result<Means<J::Bound, J::Call>, NoMemory>
    requires { IsMessage whole.now }
    ensures { IfOk result (Spec.IsMeant (J.means judge.now) bound.now serial whole.now) }
{
    match read_parts(whole) {
        Ok(parts) => {
            let size = whole.bytes.len() as u32;
            judge.judge(alloc, bound, serial, whole.order, size, parts)
        }
        Err(fault) => match fault.cause() {
            Some(cause) => Ok(Means::Breaks(cause)),
            // Reading in parts takes no memory.
            None => Err(NoMemory),
        },
    }
}
