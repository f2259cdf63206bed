//! The single steps of a call.
ghost use Rattle.std.specs.Prelude.{◌≡◌, ℕ, ◌*◌, true, [], ◌∷◌, length, IfNone, IfSome};
ghost use Rattle.turn_cell.specs.Steps.{Took, MayGo};
ghost use Rattle.turn_cell.specs.Views.{resting};
ghost use Rattle.turn_cell.specs.Tries.{Sits, Tries};

use crate::board::{Core, Place};
use crate::cell::Board;
use crate::object::Object;
use crate::plays::{Release, Take};
use crate::run::run;
use crate::tried::{Hold, Tried};

impl<O: Object> Board<O> {
    // One try for the turn.
    pub(crate) fn take(&self, place: &mut Place<O>) -> Option<(u64, Core<O>)>
        requires place { (place.old.table_id ≡ self.now.table.shared.table_id) × (place.old.me.1 ≡ []) }
        requires number { (n : ℕ) × (place.old.me.0.number ≡ Some n) }
        ensures same { (place.new.table_id ≡ place.old.table_id) × (place.new.id ≡ place.old.id) }
        ensures none { IfNone result (place.new.me ≡ place.old.me) }
        ensures some { IfSome result (λ t. Took O.ready O.sound O.step O.opens O.fit place.old.me.0 place.new.me t.0 t.1) }
    {
        let shared = &self.table.shared;
        let word = shared.peek(0);
        if word % 2 == 1 {
            return None;
        }
        if shared.compare_exchange::<Take<O>>(place, 0, word, word + 1) != word {
            return None;
        }
        match shared.exchange(place, 0, None) {
            Some(core) => Some((word, core)),
            None => unreachable!(),
        }
    }

    // Gives the turn back.
    pub(crate) fn give(&self, place: &mut Place<O>, core: Core<O>)
        requires place { (place.old.table_id ≡ self.now.table.shared.table_id) × (place.old.me.0.turn ≡ true) × (place.old.me.1 ≡ (0, None) ∷ []) }
        requires core { MayGo O.ready O.sound O.step O.opens O.fit place.old.me.0 core }
        ensures same { (place.new.table_id ≡ place.old.table_id) × (place.new.id ≡ place.old.id) }
        ensures rests { place.new.me ≡ (resting place.old.me.0 core.history.list.items, []) }
    {
        let shared = &self.table.shared;
        let word = core.history.len() as u64 * 2;
        match shared.exchange(place, 0, Some(core)) {
            None => {}
            Some(_) => unreachable!(),
        }
        shared.store::<Release<O>>(place, 0, word);
    }

    // One try of a call.
    pub(crate) fn attempt(&self, place: &mut Place<O>, number: u32, call: O::Call) -> Tried<O>
        requires place { (place.old.table_id ≡ self.now.table.shared.table_id) × (place.old.me.1 ≡ []) }
        requires sits { Sits O.ready O.sound O.step O.opens O.fit self.now.table.shared.key.value number place.old.me.0 }
        requires fit { O.fit self.now.table.shared.key.value.opening number place.old.me.0.mine call }
        ensures same { (place.new.table_id ≡ place.old.table_id) × (place.new.id ≡ place.old.id) × (place.new.me.1 ≡ []) }
        ensures tells { Tries O.ready O.sound O.step O.opens O.fit self.now.table.shared.key.value number call place.old.me.0 place.new.me.0 result }
    {
        match self.take(place) {
            None => Tried::NotYet(call, Hold::Turn),
            Some((_, mut core)) => {
                let tried = run(&mut core, number, call);
                let rung = self.rung_by(&core, &tried);
                self.give(place, core);
                self.wake(rung);
                tried
            }
        }
    }
}
