//! What goes on between two entries, and what an entry draws.
ghost use Rattle.std.specs.Prelude.{◌≡◌, ◌++◌, ◌∷◌, [], position, slice_get, slice_index, OnOk, Some, None};
ghost use Rattle.trace_picture.specs.Scenes as Spec;
ghost use Rattle.trace_picture.specs.declared.shape.WaitEnd.TheVariants as how;

use crate::going::{Running, Waiting};
use crate::layout::number_at;
use crate::shape::{Shape, WaitEnd};
use orb_base::{ConnId, Due, List, NoMemory};
use std::alloc::Global;
use std::marker::Model;
use trace_lines::{Action, CancelReply, CollectReply, OfferReply, OfferedRequest, PostReply};

/// What goes on between two entries.
#[derive(Drop)]
pub struct Scene {
    /// The lane of each request that was offered, by its number.
    lanes: List<u8>,
    /// What waits, in order of arrival.
    waiting: List<Waiting>,
    /// What threads carry out.
    running: List<Running>,
}

impl Model for Scene {
    ghost use Rattle.trace_picture.specs.Scenes.{ScenePlain};

    ghost Value = { ScenePlain };

    ghost view = { λ s. record {
      lanes = s.lanes.items;
      waiting = s.waiting.items;
      running = s.running.items;
    } };
}

/// Puts an item after the last one.
fn put<T: Drop>(list: &mut List<T>, item: T) -> Result<(), NoMemory>
    ensures { OnOk result (list.new.items ≡ list.old.items ++ item ∷ []) }
{
    match list.push(item) {
        Ok(()) => Ok(()),
        Err(_) => Err(NoMemory),
    }
}

/// The place of the waiting request of this number.
fn place_of(waiting: &[Waiting], number: usize) -> Option<usize>
    ensures { result ≡ position (Spec.has_number number) waiting.now }
{
    waiting.iter().position(|w| w.number == number)
}

/// Whether the request is one of the connection with this id, whose reply is still due.
fn may_withdraw(w: &Waiting, conn: ConnId, id: u32) -> bool
    ensures { result ≡ Spec.may_withdraw conn id w.now }
{
    matches!(w.request.due, Due::Late) && w.request.conn.is_same(conn) && w.request.id == id
}

/// The place of the earliest waiting request of the connection and id whose reply is still due.
fn place_to_withdraw(waiting: &[Waiting], conn: ConnId, id: u32) -> Option<usize>
    ensures { result ≡ position (Spec.may_withdraw conn id) waiting.now }
{
    waiting.iter().position(|w| may_withdraw(w, conn, id))
}

/// The place of what a thread carries out.
fn place_on(running: &[Running], thread: u8) -> Option<usize>
    ensures { result ≡ position (Spec.is_on thread) running.now }
{
    running.iter().position(|r| r.thread == thread)
}

/// The line of a request that waited up to this entry.
pub fn wait_to(n: u32, how: WaitEnd, w: &Waiting) -> Shape
    ensures { result ≡ Spec.wait_to n how w.now }
{
    Shape::Wait {
        lane: w.request.lane,
        request: w.number,
        start: w.since,
        end: n,
        how,
    }
}

/// The bar of a request that a thread carried out up to this entry.
pub fn bar_to(n: u32, r: &Running) -> Shape
    ensures { result ≡ Spec.bar_to n r.now }
{
    Shape::Bar {
        thread: r.thread,
        lane: r.lane,
        request: r.number,
        start: r.since,
        end: n,
    }
}

/// The shape of an answer of the reading side.
fn posted(n: u32, reply: PostReply) -> Option<Shape>
    ensures { result ≡ Spec.posted n reply }
{
    match reply {
        PostReply::Posted => None,
        PostReply::Closing => Some(Shape::Rule { at: n }),
    }
}

impl Scene {
    /// What goes on before the first entry. Takes no memory.
    pub fn new(alloc: Global) -> Scene
        ensures { result ≡ Spec.no_scene }
    {
        Scene {
            lanes: List::new(alloc),
            waiting: List::new(alloc),
            running: List::new(alloc),
        }
    }

    /// What waits.
    pub fn waiting(&self) -> &[Waiting]
        ensures { result.now ≡ self.now.waiting }
    {
        self.waiting.as_slice()
    }

    /// What threads carry out.
    pub fn running(&self) -> &[Running]
        ensures { result.now ≡ self.now.running }
    {
        self.running.as_slice()
    }

    /// The lane of the request of this number; 0 where there is none.
    fn lane_of(&self, number: usize) -> u8
        ensures { result ≡ slice_index self.now.lanes number }
    {
        number_at(&self.lanes, number)
    }

    /// Keeps a request that waits from this entry on.
    fn keep(&mut self, n: u32, request: OfferedRequest) -> Result<(), NoMemory>
        ensures { OnOk result (self.new ≡ Spec.with_waiting self.old n request) }
    {
        let number = self.lanes.len();
        put(&mut self.lanes, request.lane)?;
        let waiting = Waiting {
            number,
            request,
            since: n,
        };
        put(&mut self.waiting, waiting)
    }

    /// Draws an Offer.
    fn offer(
        &mut self,
        n: u32,
        request: OfferedRequest,
        reply: OfferReply,
    ) -> Result<Option<Shape>, NoMemory>
        ensures { Spec.Draws (Spec.offered self.old n request reply) self.new result }
    {
        let lane = request.lane;
        match reply {
            OfferReply::Kept => {
                self.keep(n, request)?;
                Ok(None)
            }
            OfferReply::Run(_) | OfferReply::Lent(_) => {
                put(&mut self.lanes, lane)?;
                Ok(None)
            }
            OfferReply::Full => {
                put(&mut self.lanes, lane)?;
                Ok(Some(Shape::Full { lane, at: n }))
            }
            OfferReply::Closing => {
                put(&mut self.lanes, lane)?;
                Ok(Some(Shape::Rule { at: n }))
            }
        }
    }

    /// A thread carries out the request of this number from this entry on.
    fn run(&mut self, n: u32, thread: u8, number: usize) -> Result<(), NoMemory>
        ensures { OnOk result (self.new ≡ Spec.with_running self.old n thread number) }
    {
        let running = Running {
            thread,
            number,
            lane: self.lane_of(number),
            since: n,
        };
        put(&mut self.running, running)
    }

    /// What waited at this place waits no more: its line.
    fn end_wait(&mut self, n: u32, how: WaitEnd, at: usize) -> Option<Shape>
        ensures scene { self.new ≡ Spec.without_waiting self.old at }
        ensures shape { result ≡ Spec.waited n how (slice_get self.old.waiting at) }
    {
        if at < self.waiting.len() {
            let waiting = self.waiting.remove(at);
            Some(wait_to(n, how, &waiting))
        } else {
            None
        }
    }

    /// Draws that a thread takes the request of this number.
    fn take(&mut self, n: u32, thread: u8, number: usize) -> Result<Option<Shape>, NoMemory>
        ensures { Spec.Draws (Spec.taken self.old n thread number (position (Spec.has_number number) self.old.waiting)) self.new result }
    {
        match place_of(self.waiting.as_slice(), number) {
            Some(at) => {
                let shape = self.end_wait(n, WaitEnd::Taken, at);
                self.run(n, thread, number)?;
                Ok(shape)
            }
            None => {
                self.run(n, thread, number)?;
                Ok(None)
            }
        }
    }

    /// Draws a withdrawal.
    fn withdraw(&mut self, n: u32, conn: ConnId, id: u32) -> Option<Shape>
        ensures { Spec.withdrawn self.old n (position (Spec.may_withdraw conn id) self.old.waiting) ≡ (self.new, result) }
    {
        match place_to_withdraw(self.waiting.as_slice(), conn, id) {
            Some(at) => self.end_wait(n, WaitEnd::Removed, at),
            None => None,
        }
    }

    /// Draws a Cancel.
    fn cancel(&mut self, n: u32, conn: ConnId, id: u32, reply: CancelReply) -> Option<Shape>
        ensures { Spec.cancelled self.old n conn id reply ≡ (self.new, result) }
    {
        match reply {
            CancelReply::Removed => self.withdraw(n, conn, id),
            CancelReply::Nothing => None,
            CancelReply::Closing => Some(Shape::Rule { at: n }),
        }
    }

    /// Draws that a thread has finished what it carried out.
    fn finish(&mut self, n: u32, thread: u8) -> Option<Shape>
        ensures { Spec.finished self.old n (position (Spec.is_on thread) self.old.running) ≡ (self.new, result) }
    {
        match place_on(self.running.as_slice(), thread) {
            Some(at) => self.end_run(n, at),
            None => None,
        }
    }

    /// What was carried out at this place is finished: its bar.
    fn end_run(&mut self, n: u32, at: usize) -> Option<Shape>
        ensures scene { self.new ≡ Spec.without_running self.old at }
        ensures shape { result ≡ Spec.carried n (slice_get self.old.running at) }
    {
        if at < self.running.len() {
            let running = self.running.remove(at);
            Some(bar_to(n, &running))
        } else {
            None
        }
    }

    /// The shape of a reply to the request of this number that is handed over.
    fn reply_dot(&self, n: u32, number: usize) -> Option<Shape>
        ensures { result ≡ Spec.reply_dot self.now n number }
    {
        let lane = self.lane_of(number);
        Some(Shape::Dot {
            lane: Some(lane),
            at: n,
        })
    }

    /// The shape of what a writing side is handed.
    fn handed(&self, n: u32, reply: CollectReply) -> Option<Shape>
        ensures { result ≡ Spec.handed self.now n reply }
    {
        match reply {
            CollectReply::Answered(number) => self.reply_dot(n, number),
            CollectReply::Early(number) => self.reply_dot(n, number),
            CollectReply::Transient(number) => self.reply_dot(n, number),
            CollectReply::Posted(_) => Some(Shape::Dot { lane: None, at: n }),
            CollectReply::Close | CollectReply::Error | CollectReply::Done => None,
        }
    }

    /// Draws the entry of this number. The work is that of what waits where a request ceases to, and of what runs where one is
    /// finished; else it is constant.
    pub fn draw(&mut self, n: u32, action: &Action) -> Result<Option<Shape>, NoMemory>
        ensures { Spec.Draws (Spec.draw self.old n action.now) self.new result }
    {
        match action {
            Action::Offer { request, reply } => self.offer(n, *request, *reply),
            Action::Post { reply, .. } => Ok(posted(n, *reply)),
            Action::Cancel { conn, id, reply } => Ok(self.cancel(n, *conn, *id, *reply)),
            Action::Take { thread, task } => match task {
                Some(number) => self.take(n, *thread, *number),
                None => Ok(None),
            },
            Action::Finish { thread, .. } => Ok(self.finish(n, *thread)),
            Action::Collect { reply, .. } => Ok(self.handed(n, *reply)),
            Action::End { .. } | Action::Leave { .. } => Ok(None),
        }
    }
}
