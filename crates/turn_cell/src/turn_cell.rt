//! An object that threads call, and whose calls are one legal history.
ghost use Rattle.std.specs.Prelude.{◌≡◌, ℕ, [], ◌^◌, ◌-◌, ◌↔◌, MatchResult, IfOk, IfErr, IsErr, OnErr};
ghost use Rattle.turn_cell.specs.Calls.{IsOpened, IsOf, IsGood, TriesOn, Calls, WornOut, IsSplit, IsJoined, HasMet};
ghost use Rattle.turn_cell.specs.Good.{Good};
ghost use Rattle.turn_cell.specs.History.{of, replay, StartsWith};
ghost use Rattle.turn_cell.specs.Numbers.{Each, Has, IsWhole};
ghost use Rattle.turn_cell.specs.Whole.{numbers, IsWholeOf};

use crate::board::Core;
use crate::cell::Board;
use crate::entry::Entry;
use crate::log::Log;
use crate::object::Object;
use crate::seat::Seat;
use crate::tried::Tried;
use orb_base::{List, NoMemory};
use std::alloc::Global;
use std::marker::Model;
use std::sync::Wait;

/// An object after one turn, beside the history of its calls. Contracts see which cell it is, and what it was opened with.
#[derive(Drop)]
pub struct TurnCell<O: Object> {
    board: Board<O>,
}

impl<O: Object> Model for TurnCell<O> {
    ghost use Rattle.turn_cell.specs.Seats.{CellView};

    ghost Value = { CellView O };

    ghost view = { λ c. record { id = c.board.table.shared.table_id; terms = c.board.table.shared.key.value } };
}

/// The history has its whole length. The call comes back.
#[derive(Drop)]
pub struct Worn<C>(pub C);

impl<O: Object> TurnCell<O> {
    /// Opens a cell, whose history has room for `length` entries, and gives its first seat. When out of memory it hands
    /// the object back.
    pub fn new(alloc: Global, object: O, length: u32) -> Result<(TurnCell<O>, Seat<O>), O>
        requires opens { O.opens object }
        ensures ok { IfOk result (λ p. IsOpened object length p.0 p.1) }
        ensures memory { IfErr result (λ o. o ≡ object) }
    {
        let (board, place) = Board::open(alloc, object, length)?;
        Ok((
            TurnCell { board },
            Seat {
                place,
                number: 0,
                splits: 0,
            },
        ))
    }

    // One try of a call.
    fn attempt(&self, seat: &mut Seat<O>, call: O::Call) -> Tried<O>
        requires cell { IsOf self.now seat.old }
        requires fit { O.fit self.now.terms.opening seat.old.number seat.old.mine call }
        ensures { TriesOn O.ready O.sound O.step O.opens O.fit self.now call seat.old seat.new result }
    {
        self.board.attempt(&mut seat.place, seat.number, call)
    }

    /// Does nothing: what a seat has seen is legal and fit at any time, and its own calls are those of its number there.
    pub fn facts(&self, seat: &Seat<O>)
        requires { IsOf self.now seat.now }
        ensures { IsGood O.ready O.sound O.step O.opens O.fit self.now seat.now }
    {
        let _ = &seat.place;
    }

    /// Makes a call: waits until it is ready, enters it into the history and gives its reply. Takes no memory.
    ///
    /// Where the object wants memory it is asked again later. A call that never gets ready waits for ever; no clause says
    /// that a call comes back. Alone on its processor a call costs some atomic steps beside the object's own work.
    pub fn call<R: Wait>(
        &self,
        rt: &R,
        seat: &mut Seat<O>,
        call: O::Call,
    ) -> Result<O::Reply, Worn<O::Call>>
        requires cell { IsOf self.now seat.old }
        requires fit { O.fit self.now.terms.opening seat.old.number seat.old.mine call }
        ensures ok { IfOk result (λ r. Calls O.ready O.sound O.step O.opens O.fit self.now call r seat.old seat.new) }
        ensures worn { IfErr result (λ w. (w.0 ≡ call) × WornOut O.ready O.sound O.step O.opens O.fit self.now seat.old seat.new) }
    {
        let mut watch = self.board.watch(&call);
        let mut call = call;
        for _ in rt.forever() {
            match self.attempt(seat, call) {
                Tried::Replied(reply) => {
                    self.board.settle(watch);
                    return Ok(reply);
                }
                Tried::Worn(back) => return Err(Worn(back)),
                Tried::NotYet(back, hold) => {
                    call = back;
                    watch = self.board.pause(rt, watch, hold);
                }
            }
        }
        unreachable!()
    }
}

impl<O: Object> TurnCell<O> {
    /// Splits the seat's next heir off, which has seen as much and has no calls of its own. Takes no memory. A seat that was
    /// split 2^32 - 1 times can't be split again.
    pub fn split(&self, seat: &mut Seat<O>) -> Result<Seat<O>, NoMemory>
        requires cell { IsOf self.now seat.old }
        requires heir { (m : ℕ) × (O.heir seat.old.number seat.old.splits ≡ Some m) }
        ensures ok { IfOk result (λ new. IsSplit O.heir seat.old seat.new new) }
        ensures spent { IsErr result ↔ (seat.old.splits ≡ 2 ^ 32 - 1) }
        ensures kept { OnErr result (seat.new ≡ seat.old) }
    {
        if seat.splits == u32::MAX {
            return Err(NoMemory);
        }
        let number = O::heir_of(seat.number, seat.splits).unwrap();
        let mut place = self.board.split(&mut seat.place);
        seat.splits += 1;
        self.board.hear(&mut place);
        Ok(Seat {
            place,
            number,
            splits: 0,
        })
    }

    /// Takes another seat in: its history, where it is the longer one, and its number, calls and splits. Takes no memory.
    pub fn join(&self, into: &mut Seat<O>, other: Seat<O>)
        requires { IsOf self.now into.old × IsOf self.now other }
        ensures { IsJoined into.old other into.new }
    {
        let Seat {
            place,
            number: _,
            splits: _,
        } = other;
        self.board.join(&mut into.place, place);
        self.board.hear(&mut into.place);
    }

    /// Tells the hearer what the teller has seen, so that its next call is after that. Takes no memory.
    pub fn meet(&self, teller: &mut Seat<O>, hearer: &mut Seat<O>)
        requires { IsOf self.now teller.old × IsOf self.now hearer.old }
        ensures teller { teller.new ≡ teller.old }
        ensures hearer { HasMet teller.old hearer.old hearer.new }
    {
        self.board.meet(&mut teller.place, &mut hearer.place);
        self.board.hear(&mut hearer.place);
    }

    /// Closes a cell whose every other seat was joined into this one, and gives the object and the one history.
    pub fn close(self, seat: Seat<O>) -> (O, List<Entry<O>>)
        requires cell { IsOf self seat }
        requires whole { IsWhole O.heir (numbers seat.number seat.splits seat.ended) }
        ensures good { Good O.ready O.sound O.step O.opens O.fit self.terms result.1.items }
        ensures seen { StartsWith result.1.items seat.seen }
        ensures mine { seat.mine ≡ of seat.number result.1.items }
        ensures ended { Each (λ d. d.calls ≡ of d.number result.1.items) seat.ended }
        // No other number has an entry.
        ensures others { (i : ℕ) → (Has i (numbers seat.number seat.splits seat.ended) → ⊥) → of i result.1.items ≡ [] }
        ensures object { result.0 ≡ replay O.step self.terms.opening result.1.items }
    {
        let (object, list) = self.end(seat);
        (object, List::from_vec(list))
    }

    // What comes out at the end.
    fn end(self, seat: Seat<O>) -> (O, Vec<Entry<O>>)
        requires cell { IsOf self seat }
        requires whole { IsWhole O.heir (numbers seat.number seat.splits seat.ended) }
        ensures history { IsWholeOf O.ready O.sound O.step O.opens O.fit self.terms seat.number seat.splits seat.seen seat.mine seat.ended result.1.items }
        ensures object { result.0 ≡ replay O.step self.terms.opening result.1.items }
    {
        let TurnCell { board } = self;
        let Seat {
            place,
            number: _,
            splits: _,
        } = seat;
        let Core { object, history } = board.close(place);
        let Log { list, length: _ } = history;
        (object, list)
    }
}
