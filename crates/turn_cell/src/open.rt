//! How a table is opened.
ghost use Rattle.std.specs.Prelude.{◌≡◌, ◌∷◌, [], IfOk, MatchResult};
ghost use Rattle.turn_cell.specs.Views.{starting};

use crate::bells::Bells;
use crate::board::{Core, Place, Terms};
use crate::cell::Board;
use crate::log::Log;
use crate::object::Object;
use atomic_table::{Refused, Table};
use std::alloc::{AllocError, Global};
use std::snapshot::Snapshot;

impl<T> Log<T> {
    pub(crate) fn with_room(alloc: Global, length: u32) -> Result<Log<T>, AllocError>
        ensures { IfOk result (λ l. (l.list.items ≡ []) × (l.length ≡ length)) }
    {
        Ok(Log {
            list: Vec::with_capacity(alloc, length as usize)?,
            length,
        })
    }
}

// Takes the object out of the slots that came back.
fn back<O: Object>(mut slots: Vec<Option<Core<O>>>) -> O
    requires { (core : _) × (slots.items ≡ Some core ∷ []) × (core.history.list.items ≡ []) }
    ensures { (core : _) → slots.items ≡ Some core ∷ [] → result ≡ core.object }
{
    let Some(Some(core)) = slots.pop() else {
        unreachable!()
    };
    slots.destroy_empty();
    let Core { object, history: _ } = core;
    object
}

fn one_slot<O: Object>(
    alloc: Global,
    object: O,
    history: Log<crate::entry::Entry<O>>,
) -> Result<Vec<Option<Core<O>>>, (O, Log<crate::entry::Entry<O>>)>
    ensures { MatchResult result (λ v. v.items ≡ Some (record { object = object; history = history }) ∷ []) (λ e. e ≡ (object, history)) }
{
    let Ok(mut slots) = Vec::with_capacity(alloc, 1) else {
        return Err((object, history));
    };
    slots.push_reserved(Some(Core { object, history }));
    Ok(slots)
}

impl<O: Object> Board<O> {
    pub(crate) fn open(alloc: Global, object: O, length: u32) -> Result<(Board<O>, Place<O>), O>
        requires { O.opens object }
        ensures { MatchResult result (λ p. (p.0.table.shared.key.value ≡ record { opening = object; length = length }) × (p.1.table_id ≡ p.0.table.shared.table_id) × (p.1.me ≡ (starting (record { opening = object; length = length }), []))) (λ o. o ≡ object) }
    {
        let Ok(history) = Log::with_room(alloc, length) else {
            return Err(object);
        };
        let terms = Terms {
            opening: object,
            length,
        };
        let about = Snapshot::of(&terms);
        let Terms {
            opening: object,
            length: _,
        } = terms;
        let slots = match one_slot(alloc, object, history) {
            Ok(slots) => slots,
            Err((object, _)) => return Err(object),
        };
        match Table::new(alloc, &[0], slots, &about) {
            Ok((table, place)) => Ok((
                Board {
                    table,
                    bells: Bells::new(),
                },
                place,
            )),
            Err(Refused { slots }) => Err(back(slots)),
        }
    }
}
