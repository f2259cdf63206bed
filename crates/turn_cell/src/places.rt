//! How places at the table are cut and put together.
ghost use Rattle.std.specs.Prelude.{◌≡◌, ℕ, ◌≤◌, List, false, length, [], ◌∷◌};
ghost use mathlib.Core.Option.{none};
ghost use Rattle.atomic_table.specs.Table.{step};
ghost use Rattle.turn_cell.specs.History.{of};
ghost use Rattle.turn_cell.specs.Numbers.{IsWhole};
ghost use Rattle.turn_cell.specs.Steps.{heard};
ghost use Rattle.turn_cell.specs.Views.{parted, child, note, joined, telling};
ghost use Rattle.turn_cell.specs.Whole.{numbers, Ends};

use crate::board::{Core, Place};
use crate::cell::Board;
use crate::object::Object;
use crate::plays::{Hear, Joining, Parting, Telling};

impl<O: Object> Board<O> {
    // Takes in what was given.
    pub(crate) fn hear(&self, place: &mut Place<O>)
        requires place { (place.old.table_id ≡ self.now.table.shared.table_id) × (place.old.me.0.turn ≡ false) }
        requires counts { (n : ℕ) → place.old.me.0.number ≡ Some n → length place.old.me.0.mine ≤ length (of n place.old.me.0.seen) }
        ensures same { (place.new.table_id ≡ place.old.table_id) × (place.new.id ≡ place.old.id) }
        ensures hears { heard O.ready O.sound O.step O.opens O.fit (step 1 0 0 0 none) place.old.me 0 place.new.me }
    {
        self.table.shared.load::<Hear<O>>(place, 0);
    }

    pub(crate) fn split(&self, place: &mut Place<O>) -> Place<O>
        requires place { place.old.table_id ≡ self.now.table.shared.table_id }
        requires heir { ((n : ℕ) × ((m : ℕ) × (place.old.me.0.number ≡ Some n) × (O.heir n place.old.me.0.splits ≡ Some m))) }
        ensures place { (place.new.table_id ≡ place.old.table_id) × (place.new.me ≡ (parted place.old.me.0, place.old.me.1)) }
        ensures new { (result.table_id ≡ place.old.table_id) × (result.me ≡ (child O.heir place.old.me.0, [])) }
    {
        self.table.shared.split_seat::<Parting<O>>(place)
    }

    pub(crate) fn join(&self, place: &mut Place<O>, other: Place<O>)
        requires place { (place.old.table_id ≡ self.now.table.shared.table_id) × (place.old.me.0.turn ≡ false) }
        requires other { (other.table_id ≡ self.now.table.shared.table_id) × (other.me.1 ≡ []) × (other.me.0.turn ≡ false) × ((n : ℕ) × (other.me.0.number ≡ Some n)) }
        ensures { (place.new.table_id ≡ place.old.table_id) × (place.new.me ≡ (joined place.old.me.0 other.me.0, place.old.me.1)) }
    {
        self.table.shared.join_seat::<Joining<O>>(place, other);
    }

    // Tells a place what another has seen.
    pub(crate) fn meet(&self, teller: &mut Place<O>, hearer: &mut Place<O>)
        requires teller { teller.old.table_id ≡ self.now.table.shared.table_id }
        requires hearer { (hearer.old.table_id ≡ self.now.table.shared.table_id) × (hearer.old.me.0.turn ≡ false) }
        ensures teller { (teller.new.table_id ≡ teller.old.table_id) × (teller.new.me ≡ teller.old.me) }
        ensures hearer { (hearer.new.table_id ≡ hearer.old.table_id) × (hearer.new.me ≡ (telling hearer.old.me.0 (note teller.old.me.0), hearer.old.me.1)) }
    {
        let told = self.table.shared.split_seat::<Telling<O>>(teller);
        self.table.shared.join_seat::<Telling<O>>(hearer, told);
    }

    // Every other place was joined into this one.
    pub(crate) fn close(self, place: Place<O>) -> Core<O>
        requires place { (place.table_id ≡ self.table.shared.table_id) × (place.me.0.turn ≡ false) }
        requires whole { (n : ℕ) × (place.me.0.number ≡ Some n) × IsWhole O.heir (numbers n place.me.0.splits place.me.0.ended) }
        ensures { (n : ℕ) → place.me.0.number ≡ Some n → Ends O.ready O.sound O.step O.opens O.fit self.table.shared.key.value n place.me.0 result }
    {
        let Board { table, bells: _ } = self;
        let mut closed = table.close_with(place);
        let slot = closed.take(0);
        closed.free();
        match slot {
            Some(core) => core,
            None => unreachable!(),
        }
    }
}
