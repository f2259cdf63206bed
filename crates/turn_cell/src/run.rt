//! One try of a call, on the object and its history.
ghost use Rattle.std.specs.Prelude.{◌≡◌, true};
ghost use Rattle.turn_cell.specs.Tries.{Ran};

use crate::board::Core;
use crate::entry::Entry;
use crate::object::Object;
use crate::tried::{Hold, Tried};
use orb_base::NoMemory;

pub(crate) fn run<O: Object>(core: &mut Core<O>, number: u32, call: O::Call) -> Tried<O>
    requires { O.ready core.old.object call ≡ true → O.sound core.old.object call }
    ensures { Ran O.ready O.step number call core.old core.new result }
{
    if core.history.len() >= core.history.length as usize {
        return Tried::Worn(call);
    }
    if !core.object.ready(&call) {
        let word = core.history.len() as u64 * 2;
        return Tried::NotYet(call, Hold::Unready(word));
    }
    match core.object.apply(&call) {
        Ok((first, second)) => {
            core.history.push(Entry {
                caller: number,
                call,
                reply: first,
            });
            Tried::Replied(second)
        }
        Err(NoMemory) => Tried::NotYet(call, Hold::Memory),
    }
}
