//! How a map is opened.
ghost use Rattle.std.specs.Prelude.{◌≡◌, ◌<◌, ◌≤◌, ◌+◌, length, IfOk};
ghost use Rattle.name_map.specs.declared.limits.TheConstants.{MAX_CALLERS};
ghost use Rattle.names_hall.specs.Seats.{MainAt, IsFresh, AreFresh};

use crate::hand::{NamesHand, RootSeat};
use crate::map::NamesMap;
use name_map::NamesCell;
use name_map::limits::{MAX_CALLERS, MAX_CALLS, MAX_ENTRIES};
use orb_base::{NoMemory, Told};
use std::alloc::Global;
use turn_cell::{Seat, TurnCell};

/// An open map with its seats.
#[derive(Drop)]
pub struct Opened {
    pub map: NamesMap,
    /// To which all other seats come back.
    pub root: RootSeat,
    /// One for each slot, in order.
    pub hands: Vec<NamesHand>,
}

/// Opens the empty map for four slots. Takes the memory for all its keys, for the whole history and for the hands.
pub fn open(alloc: Global) -> Result<Opened, NoMemory>
    ensures root { IfOk result (λ o. MainAt o.map MAX_CALLERS o.root) }
    ensures hands { IfOk result (λ o. AreFresh o.map 0 o.hands.items) }
    ensures all { IfOk result (λ o. length o.hands.items ≡ MAX_CALLERS) }
{
    let object = NamesCell::new(alloc)?;
    let Ok((cell, mut main)) = TurnCell::new(alloc, object, MAX_ENTRIES) else {
        return Err(NoMemory);
    };
    let hands = hands(alloc, &cell, &mut main)?;
    Ok(Opened {
        map: NamesMap { cell },
        root: RootSeat { main },
        hands,
    })
}

/// Splits the seat of the next slot off the first one, and makes its hand.
#[tactic(auto, using(crate::proofs::Growing::fresh, crate::proofs::Growing::split_on))]
fn next(
    cell: &TurnCell<NamesCell>,
    main: &mut Seat<NamesCell>,
    slot: u8,
) -> Result<NamesHand, NoMemory>
    requires main { MainAt cell.now slot main.old }
    requires room { slot < MAX_CALLERS }
    ensures main { IfOk result (λ s. MainAt cell.now (slot + 1) main.new) }
    ensures hand { IfOk result (λ s. IsFresh cell.now slot s) }
{
    let seat = cell.split(main)?;
    Ok(NamesHand {
        seat,
        slot,
        spare: MAX_CALLS,
        done: Told::new(),
    })
}

/// The hands of all slots.
#[tactic(auto, using(crate::proofs::Growing::grows))]
fn hands(
    alloc: Global,
    cell: &TurnCell<NamesCell>,
    main: &mut Seat<NamesCell>,
) -> Result<Vec<NamesHand>, NoMemory>
    requires main { MainAt cell.now 0 main.old }
    ensures main { IfOk result (λ v. MainAt cell.now MAX_CALLERS main.new) }
    ensures hands { IfOk result (λ v. (length v.items ≡ MAX_CALLERS) × AreFresh cell.now 0 v.items) }
{
    let Ok(mut hands) = Vec::with_capacity(alloc, MAX_CALLERS as usize) else {
        return Err(NoMemory);
    };
    for slot in 0..MAX_CALLERS as u8 {
        let hand = next(cell, main, slot)?;
        if hands.push(hand).is_err() {
            return Err(NoMemory);
        }
    }
    Ok(hands)
}
