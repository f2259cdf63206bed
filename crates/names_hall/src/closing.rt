//! How a map ends.
ghost use Rattle.std.specs.Prelude.{◌≡◌, ◌≤◌, [], length};
ghost use Rattle.std.specs.Vec.{vec_capacity};
ghost use Rattle.turn_cell.specs.Calls.{IsOf};
ghost use Rattle.turn_cell.specs.History.{replay};
ghost use Rattle.name_map.specs.declared.limits.TheConstants.{MAX_CALLERS};
ghost use Rattle.name_map.specs.Machine.{step};
ghost use Rattle.names_hall.specs.Closing.{IsLawful, AreKept, done_by, told_in, TakesIn};
ghost use Rattle.names_hall.specs.Seats.{MainAt, AreHands, AreIn};

use crate::hand::{NamesHand, RootSeat};
use crate::map::NamesMap;
use name_map::NamesCell;
use orb_base::{Answer, List, Told};
use turn_cell::{Entry, Seat, TurnCell};

/// What a map leaves.
#[derive(Drop)]
pub struct Closed {
    /// The map after the last call.
    pub map: NamesCell,
    /// The one history of all its calls.
    pub history: List<Entry<NamesCell>>,
    /// What each slot did, in order of the slots.
    pub done: Vec<Told<Answer>>,
}

/// Ends a map, to whose first seat those of all hands come back. What the hands did is put into `none`, which has room for it. Takes no
/// memory.
pub fn close(
    map: NamesMap,
    root: RootSeat,
    hands: Vec<NamesHand>,
    none: Vec<Told<Answer>>,
) -> Closed
    requires root { MainAt map MAX_CALLERS root }
    requires hands { AreHands map 0 hands.items }
    requires all { length hands.items ≡ MAX_CALLERS }
    requires room { (none.items ≡ []) × (MAX_CALLERS ≤ vec_capacity none) }
    // All calls are one legal history, in which each was fit for its caller.
    ensures lawful { IsLawful result.history.items }
    // Each slot's entries are those of its invocations, in order and each once.
    ensures kept { AreKept result.history.items 0 (done_by hands.items) }
    ensures done { told_in result.done.items ≡ done_by hands.items }
    ensures map { result.map ≡ replay step [] result.history.items }
{
    let NamesMap { cell } = map;
    let RootSeat { mut main } = root;
    let done = take_all(&cell, &mut main, hands, none);
    let (map, history) = cell.close(main);
    Closed { map, history, done }
}

/// Joins the seats of hands into the first one, and gives what they did.
#[tactic(auto, using(crate::proofs::Giving::in_front, crate::proofs::Giving::in_last, crate::proofs::Giving::taken_none, crate::proofs::Giving::taken_more, crate::proofs::Giving::told_none, crate::proofs::Giving::told_more))]
fn take_all(
    cell: &TurnCell<NamesCell>,
    main: &mut Seat<NamesCell>,
    hands: Vec<NamesHand>,
    none: Vec<Told<Answer>>,
) -> Vec<Told<Answer>>
    requires main { IsOf cell.now main.old }
    requires hands { AreIn cell.now hands.items }
    requires room { (none.items ≡ []) × (length hands.items ≤ vec_capacity none) }
    ensures taken { TakesIn cell.now hands.items main.old main.new }
    ensures done { told_in result.items ≡ done_by hands.items }
    ensures room { vec_capacity result ≡ vec_capacity none }
{
    let mut before = hands;
    match before.pop() {
        None => none,
        Some(hand) => {
            let mut done = take_all(cell, main, before, none);
            let NamesHand {
                seat,
                slot: _,
                spare: _,
                done: last,
            } = hand;
            cell.join(main, seat);
            done.push_reserved(last);
            done
        }
    }
}
