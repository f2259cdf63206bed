//! The map that slots share.
ghost use Rattle.std.specs.Prelude.{◌≡◌};
ghost use Rattle.turn_cell.specs.Calls.{IsOf};
ghost use Rattle.name_map.specs.Callers.{IsFit};
ghost use Rattle.names_hall.specs.Seats.{Makes};

use name_map::{NamesCall, NamesCell, NamesReply};
use std::marker::Model;
use std::sync::Wait;
use turn_cell::{Seat, TurnCell};

/// The map that slots share: a turn cell with room for every call that may come. It holds no seat, so that it may be shared.
#[derive(Drop)]
pub struct NamesMap {
    pub(crate) cell: TurnCell<NamesCell>,
}

impl Model for NamesMap {
    ghost use Rattle.std.specs.Prelude.{◌≡◌};
    ghost use Rattle.name_map.specs.declared.limits.TheConstants.{MAX_ENTRIES};
    ghost use Rattle.names_hall.specs.Hands.{Cell};

    ghost Value = { Cell };

    ghost view = { λ m. m.cell };

    ghost invariant = { λ m. m.cell.terms.length ≡ MAX_ENTRIES };
}

impl NamesMap {
    // Makes a call by a seat. The history has room for it, by the law of length.
    pub(crate) fn call<R: Wait>(
        &self,
        rt: &R,
        seat: &mut Seat<NamesCell>,
        call: NamesCall,
    ) -> NamesReply
        requires cell { IsOf self.now seat.old }
        requires fit { IsFit self.now.terms.opening seat.old.number seat.old.mine call }
        ensures { Makes self.now call result seat.old seat.new }
    {
        match self.cell.call(rt, seat, call) {
            Ok(reply) => reply,
            Err(_) => unreachable!(),
        }
    }
}
