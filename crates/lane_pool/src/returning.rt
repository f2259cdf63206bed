//! How passes are made of one another and come back, and how a pool ends.
ghost use Rattle.std.specs.Prelude.{◌≡◌, ◌<◌, ◌++◌, [], IfOk, IfErr, IsOk};
ghost use Rattle.turn_cell.specs.Calls.{IsOf, IsJoined};
ghost use Rattle.lane_pool.specs.Passes.{IsIn, IsLinked, IsUnlinked};
ghost use Rattle.lane_pool.specs.Turns.{Rests, Listens, Writes, HasEnded, heard_by};
ghost use Rattle.lane_pool.specs.Returning.{AreIn, AreSeen, left_by, AllBack, IsHistory, TakesIn, TakesAll};

use crate::passes::{ReaderPass, RootPass, SlotPass, WorkerPass, WriterPass};
use crate::pool::LanePool;
use lane_machine::Lanes;
use orb_base::List;
use turn_cell::{Entry, Seat, TurnCell};

impl LanePool {
    /// Makes the passes of the slot's next connection. Takes no memory, and always makes them; the answer of an error is there
    /// for the cell's sake, whose seats can be split 2^32 - 1 times, and no slot has more than 128 connections.
    #[tactic(auto, using(crate::proofs::Turns::writes_ok))]
    pub fn link(&self, pass: SlotPass) -> Result<(ReaderPass, WriterPass), SlotPass>
        requires rests { Rests self.now.cell pass }
        requires room { pass.nth < self.now.cell.terms.opening.per_slot }
        ensures linked { IsOk result }
        ensures ok { IfOk result (λ p. IsLinked pass p.0 p.1) }
        ensures reader { IfOk result (λ p. Listens self.now.cell p.0) }
        ensures unheard { IfOk result (λ p. heard_by p.0 ≡ 0) }
        ensures writer { IfOk result (λ p. Writes self.now.cell p.1) }
        ensures err { IfErr result (λ back. back ≡ pass) }
    {
        self.split_sides(pass)
    }

    /// Splits a seat for the writing side off the slot's.
    #[tactic(auto, using(crate::proofs::Turns::fresh_link))]
    fn split_sides(&self, pass: SlotPass) -> Result<(ReaderPass, WriterPass), SlotPass>
        requires rests { Rests self.now.cell pass }
        requires room { pass.nth < self.now.cell.terms.opening.per_slot }
        ensures linked { IsOk result }
        ensures ok { IfOk result (λ p. IsLinked pass p.0 p.1) }
        ensures err { IfErr result (λ back. back ≡ pass) }
    {
        let _ = &self.cell;
        let SlotPass {
            mut seat,
            slot,
            links,
        } = pass;
        match self.cell.split(&mut seat) {
            Ok(new) => Ok((
                ReaderPass {
                    seat,
                    slot,
                    nth: links,
                    closed: false,
                },
                WriterPass {
                    seat: new,
                    slot,
                    nth: links,
                },
            )),
            Err(_) => Err(SlotPass { seat, slot, links }),
        }
    }

    /// Makes the slot's pass of those of its connection. Takes no memory.
    pub fn unlink(&self, reader: ReaderPass, writer: WriterPass) -> SlotPass
        requires reader { HasEnded self.now.cell reader }
        requires writer { IsIn self.now.cell writer }
        ensures made { IsUnlinked reader writer result }
        ensures rests { Rests self.now.cell result }
    {
        self.join_sides(reader, writer)
    }

    /// Joins the writing side's seat into the slot's.
    fn join_sides(&self, reader: ReaderPass, writer: WriterPass) -> SlotPass
        requires { IsIn self.now.cell reader × IsIn self.now.cell writer }
        ensures { IsUnlinked reader writer result }
    {
        let ReaderPass {
            mut seat,
            slot,
            nth,
            closed: _,
        } = reader;
        let WriterPass {
            seat: other,
            slot: _,
            nth: _,
        } = writer;
        self.cell.join(&mut seat, other);
        SlotPass {
            seat,
            slot,
            links: nth + 1,
        }
    }
}

impl LanePool {
    /// Ends the pool, to whose root pass every other one comes back, and gives the one history of its calls. The work of
    /// taking the passes in grows with their number; the history is not copied.
    pub fn close(
        self,
        root: RootPass,
        slots: List<SlotPass>,
        workers: List<WorkerPass>,
    ) -> List<Entry<Lanes>>
        requires root { IsOf self.cell root × (root.ended ≡ []) }
        requires passes { AreIn self.cell slots.items × AreIn self.cell workers.items }
        requires whole { AllBack root (left_by slots.items ++ left_by workers.items) }
        ensures history { IsHistory self.cell root (left_by slots.items ++ left_by workers.items) result.items }
        ensures slots { AreSeen result.items slots.items }
        ensures workers { AreSeen result.items workers.items }
    {
        let LanePool { cell } = self;
        let RootPass { main } = root;
        end(cell, main, slots.into_vec(), workers.into_vec())
    }
}

/// Joins the seats of slots and workers into the first one, and closes the cell.
fn end(
    cell: TurnCell<Lanes>,
    main: Seat<Lanes>,
    slots: Vec<SlotPass>,
    workers: Vec<WorkerPass>,
) -> List<Entry<Lanes>>
    requires main { IsOf cell main × (main.number ≡ 0) × (main.ended ≡ []) }
    requires passes { AreIn cell slots.items × AreIn cell workers.items }
    requires whole { AllBack main (left_by slots.items ++ left_by workers.items) }
    ensures history { IsHistory cell main (left_by slots.items ++ left_by workers.items) result.items }
    ensures slots { AreSeen result.items slots.items }
    ensures workers { AreSeen result.items workers.items }
{
    let mut main = main;
    take_all(&cell, &mut main, slots, workers);
    let (_, history) = cell.close(main);
    history
}

/// Joins the seats of slots and workers into the first one.
fn take_all(
    cell: &TurnCell<Lanes>,
    main: &mut Seat<Lanes>,
    slots: Vec<SlotPass>,
    workers: Vec<WorkerPass>,
)
    requires main { IsOf cell.now main.old }
    requires passes { AreIn cell.now slots.items × AreIn cell.now workers.items }
    ensures in_cell { IsOf cell.now main.new }
    ensures taken { TakesAll cell.now slots.items workers.items main.old main.new }
{
    take_slots(cell, main, slots);
    take_workers(cell, main, workers);
}

/// Joins the seats of slots into the first one.
#[tactic(auto, using(crate::proofs::Giving::in_front, crate::proofs::Giving::in_last))]
fn take_slots(cell: &TurnCell<Lanes>, main: &mut Seat<Lanes>, slots: Vec<SlotPass>)
    requires main { IsOf cell.now main.old }
    requires slots { AreIn cell.now slots.items }
    ensures { TakesIn cell.now slots.items main.old main.new }
{
    let mut before = slots;
    match before.pop() {
        None => {}
        Some(pass) => {
            take_slots(cell, main, before);
            join_slot(cell, main, pass);
        }
    }
}

/// Joins a slot's seat into the first one.
fn join_slot(cell: &TurnCell<Lanes>, main: &mut Seat<Lanes>, pass: SlotPass)
    requires { IsOf cell.now main.old × IsIn cell.now pass }
    ensures { IsJoined main.old pass.seat main.new }
{
    cell.join(main, pass.seat);
}

/// Joins the seats of workers into the first one.
#[tactic(auto, using(crate::proofs::Giving::in_front, crate::proofs::Giving::in_last))]
fn take_workers(cell: &TurnCell<Lanes>, main: &mut Seat<Lanes>, workers: Vec<WorkerPass>)
    requires main { IsOf cell.now main.old }
    requires workers { AreIn cell.now workers.items }
    ensures { TakesIn cell.now workers.items main.old main.new }
{
    let mut before = workers;
    match before.pop() {
        None => {}
        Some(pass) => {
            take_workers(cell, main, before);
            join_worker(cell, main, pass);
        }
    }
}

/// Joins a worker's seat into the first one.
fn join_worker(cell: &TurnCell<Lanes>, main: &mut Seat<Lanes>, pass: WorkerPass)
    requires { IsOf cell.now main.old × IsIn cell.now pass }
    ensures { IsJoined main.old pass.seat main.new }
{
    cell.join(main, pass.seat);
}
