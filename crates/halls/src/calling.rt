//! The calls of a connection, one by one.
ghost use Rattle.std.specs.Prelude.{◌≡◌, ◌<◌, ◌∷◌, [], length};
ghost use Rattle.orb_base.specs.declared.due.Due.TheVariants as due;
ghost use Rattle.halls.specs.Calls.{Takes, IsThere};
ghost use Rattle.halls.specs.declared.call.HallCall.TheVariants.{Post, Invoke};

use crate::call::HallCall;
use crate::ends::Took;
use crate::hall::Hall;
use item_writer::write_item;
use orb_base::{Answer, Arc, Due, Item, Job, Notice, Sink};
use text_streams::WriteAll;

/// Writes an answer without an invocation.
#[tactic(auto, using(crate::proofs::Steps::noticed_all, crate::proofs::Steps::noticed_stopped))]
fn post<O: Sink, H: Hall>(sink: &mut O, hand: &H::Hand, notice: Notice) -> Took
    ensures { Takes result (Post notice ∷ []) (record { hand = H.held hand.now; sink = O.state sink.old })
        (record { hand = H.held hand.now; sink = O.state sink.new }) }
{
    match write_item(sink, &Item::Noticed(notice)) {
        WriteAll::Whole => Took::All,
        WriteAll::Failed => Took::Stopped,
    }
}

/// Makes an invocation of which no reply is due.
#[tactic(auto, using(crate::proofs::Steps::quiet_all))]
fn quietly<O: Sink, H: Hall>(sink: &mut O, hall: &H, hand: &mut H::Hand, job: Arc<Job>) -> Took
    requires of { H.is_of hall.now hand.old }
    requires spare { 0 < (H.held hand.old).spare }
    requires there { job.target < length (H.judged_by hall.now).objects }
    requires due { job.due ≡ due.Nothing }
    ensures of { H.is_of hall.now hand.new }
    ensures takes { Takes result (Invoke job ∷ []) (record { hand = H.held hand.old; sink = O.state sink.old })
        (record { hand = H.held hand.new; sink = O.state sink.new }) }
{
    let _ = sink;
    let _ = hall.invoke(hand, &job);
    Took::All
}

/// Writes the reply of an invocation, and then makes it.
#[tactic(auto, using(crate::proofs::Steps::early_all, crate::proofs::Steps::early_stopped))]
fn after_reply<O: Sink, H: Hall>(sink: &mut O, hall: &H, hand: &mut H::Hand, job: Arc<Job>) -> Took
    requires of { H.is_of hall.now hand.old }
    requires spare { 0 < (H.held hand.old).spare }
    requires there { job.target < length (H.judged_by hall.now).objects }
    requires due { job.due ≡ due.Early }
    ensures of { H.is_of hall.now hand.new }
    ensures takes { Takes result (Invoke job ∷ []) (record { hand = H.held hand.old; sink = O.state sink.old })
        (record { hand = H.held hand.new; sink = O.state sink.new }) }
{
    let reply = Item::Early(job);
    match write_item(sink, &reply) {
        WriteAll::Whole => {
            let Item::Early(job) = &reply else {
                unreachable!()
            };
            let _ = hall.invoke(hand, job);
            Took::All
        }
        WriteAll::Failed => Took::Stopped,
    }
}

/// Makes an invocation, and then writes its reply.
#[tactic(auto, using(crate::proofs::Steps::late_all, crate::proofs::Steps::late_stopped))]
fn before_reply<O: Sink, H: Hall>(sink: &mut O, hall: &H, hand: &mut H::Hand, job: Arc<Job>) -> Took
    requires of { H.is_of hall.now hand.old }
    requires spare { 0 < (H.held hand.old).spare }
    requires there { job.target < length (H.judged_by hall.now).objects }
    requires due { job.due ≡ due.Late }
    ensures of { H.is_of hall.now hand.new }
    ensures takes { Takes result (Invoke job ∷ []) (record { hand = H.held hand.old; sink = O.state sink.old })
        (record { hand = H.held hand.new; sink = O.state sink.new }) }
{
    let outcome = hall.invoke(hand, &job);
    match write_item(sink, &Item::Answered(Answer { job, outcome })) {
        WriteAll::Whole => Took::All,
        WriteAll::Failed => Took::Stopped,
    }
}

/// Makes an invocation, if the hand has one left.
#[tactic(auto, using(crate::proofs::Steps::none_left))]
fn invoke<O: Sink, H: Hall>(sink: &mut O, hall: &H, hand: &mut H::Hand, job: Arc<Job>) -> Took
    requires of { H.is_of hall.now hand.old }
    requires there { job.target < length (H.judged_by hall.now).objects }
    ensures of { H.is_of hall.now hand.new }
    ensures takes { Takes result (Invoke job ∷ []) (record { hand = H.held hand.old; sink = O.state sink.old })
        (record { hand = H.held hand.new; sink = O.state sink.new }) }
{
    if hall.spare(hand) == 0 {
        return Took::RunClosed;
    }
    match job.get().due {
        Due::Nothing => quietly(sink, hall, hand, job),
        Due::Early => after_reply(sink, hall, hand, job),
        Due::Late => before_reply(sink, hall, hand, job),
    }
}

/// Makes a call.
pub fn take<O: Sink, H: Hall>(sink: &mut O, hall: &H, hand: &mut H::Hand, call: HallCall) -> Took
    requires of { H.is_of hall.now hand.old }
    requires there { IsThere (length (H.judged_by hall.now).objects) call }
    ensures of { H.is_of hall.now hand.new }
    ensures takes { Takes result (call ∷ []) (record { hand = H.held hand.old; sink = O.state sink.old })
        (record { hand = H.held hand.new; sink = O.state sink.new }) }
{
    match call {
        HallCall::Post(notice) => post::<O, H>(sink, hand, notice),
        HallCall::Invoke(job) => invoke(sink, hall, hand, job),
    }
}
