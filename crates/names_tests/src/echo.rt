//! A hall that answers each request with its own body, and what it is tried on: setups and messages, laid out by hand.
ghost use Rattle.std.specs.Prelude.{◌≡◌, ◌≤◌, IfSome};
ghost use Rattle.orb_base.specs.Outcomes.{body_len};
ghost use Rattle.orb_base.specs.Outside.{IsNewSource, IsNewSink};
ghost use Rattle.orb_base.specs.declared.limits.TheConstants.{MAX_BODY};

use adapter_policies::{Setup, read_setup};
use halls::Hall;
use orb_base::limits::MAX_BODY;
use orb_base::{
    Answer, Arc, Completed, Job, List, MemSink, MemSource, Octets, Outcome, SharedOctets, Sink,
    Source, Sys, SysName, Told,
};
use std::alloc::Global;
use std::sync::Wait;
use std::sync::atomic::{AtomicU64, Ordering};
use std::thread;

/// Answers each request with its own body.
#[derive(Drop)]
pub struct Echo<'a, R> {
    pub rt: &'a R,
    pub alloc: Global,
    pub setup: &'a Setup,
}

/// A hand that counts what it may still do.
#[derive(Drop)]
pub struct Tally {
    pub slot: u8,
    pub left: u32,
    done: Told<Answer>,
}

impl Tally {
    /// A hand of this slot that may make so many invocations.
    pub fn new(slot: u8, left: u32) -> Tally {
        Tally {
            slot,
            left,
            done: Told::new(),
        }
    }
}

/// The answer where something can't be had.
fn refused() -> Outcome
    ensures { body_len result ≤ MAX_BODY }
{
    Outcome::System(Sys {
        name: SysName::NoMemory,
        minor: 1,
        completed: Completed::Maybe,
    })
}

/// The body of a job as its outcome.
fn echoed(alloc: Global, job: &Job) -> Outcome
    ensures { body_len result ≤ MAX_BODY }
{
    if job.body.len() > MAX_BODY {
        return refused();
    }
    match Vec::from_slice(alloc, job.body.as_slice()) {
        Ok(bytes) => match SharedOctets::new(alloc, Octets::from_vec(bytes)) {
            Ok(body) => Outcome::Returned(body),
            Err(_) => refused(),
        },
        Err(_) => refused(),
    }
}

/// A share of a job, which is tried until it is had.
fn share_job<R: Wait>(rt: &R, job: &Arc<Job>) -> Arc<Job>
    ensures { result ≡ job.now }
{
    for _ in rt.forever() {
        if let Ok(share) = job.share() {
            return share;
        }
    }
    unreachable!()
}

/// The same of an outcome.
fn share_outcome<R: Wait>(rt: &R, outcome: &Outcome) -> Outcome
    ensures { result ≡ outcome.now }
{
    for _ in rt.forever() {
        if let Ok(share) = outcome.share() {
            return share;
        }
    }
    unreachable!()
}

impl<'a, R: Wait> Hall for Echo<'a, R> {
    type Hand = Tally;

    ghost judged_by = { λ h. h.setup.now };

    ghost held = { λ t. record { slot = t.slot; done = t.done.items; spare = t.left } };

    ghost is_of = { λ h t. Unit {0} };

    fn setup(&self) -> &Setup {
        self.setup
    }

    fn slot(&self, hand: &Tally) -> u8 {
        hand.slot
    }

    fn spare(&self, hand: &Tally) -> u32 {
        hand.left
    }

    fn invoke(&self, hand: &mut Tally, job: &Arc<Job>) -> Outcome {
        let outcome = echoed(self.alloc, job.get());
        let kept = [Answer {
            job: share_job(self.rt, job),
            outcome: share_outcome(self.rt, &outcome),
        }];
        hand.left -= 1;
        hand.done = hand.done.and(&kept);
        outcome
    }
}

/// How often a hand looks for the other one.
const LOOKS: u64 = 100_000_000;

/// Answers as `Echo` does, but each invocation waits until two were begun.
#[derive(Drop)]
pub struct Meeting<'a, R> {
    pub echo: Echo<'a, R>,
    /// How many invocations were begun.
    pub begun: &'a AtomicU64,
    /// How many looked too often.
    pub missed: &'a AtomicU64,
}

impl<'a, R: Wait> Meeting<'a, R> {
    /// Waits until two invocations were begun, or until it looked too often.
    fn meet(&self) {
        self.begun.fetch_add(1, Ordering::SeqCst);
        for _ in 0..LOOKS {
            if self.begun.load(Ordering::SeqCst) >= 2 {
                return;
            }
            thread::yield_now();
        }
        self.missed.fetch_add(1, Ordering::SeqCst);
    }
}

impl<'a, R: Wait> Hall for Meeting<'a, R> {
    type Hand = Tally;

    ghost judged_by = { λ h. h.echo.setup.now };

    ghost held = { λ t. record { slot = t.slot; done = t.done.items; spare = t.left } };

    ghost is_of = { λ h t. Unit {0} };

    fn setup(&self) -> &Setup {
        self.echo.setup
    }

    fn slot(&self, hand: &Tally) -> u8 {
        hand.slot
    }

    fn spare(&self, hand: &Tally) -> u32 {
        hand.left
    }

    fn invoke(&self, hand: &mut Tally, job: &Arc<Job>) -> Outcome {
        self.meet();
        self.echo.invoke(hand, job)
    }
}

/// Two slots of two connections each, and `ping` under CLIENT_PROPAGATED.
pub const PLAIN: &[u8] =
    b"server = { slots = 2, per_slot = 2 }\npool = { static = 1, dynamic = 0, default_priority = 10 }\nadapter = [{ name = \"prop\", model = \"CLIENT_PROPAGATED\", priority = 10 }]\nobject = [{ key = \"ping\", adapter = \"prop\", interface = \"i\" }]\n";

/// Requests of id 1, 2 and 3 for `echo` of `ping` with a body of four bytes: the first asks for a reply at once, the second for one after
/// the invocation, and the third for none. CORBA 3.0.3, section 15.4.2.
pub const EARLY_1: &[u8] =
    b"GIOP\x01\x02\0\0\0\0\0\x28\0\0\0\x01\x01\0\0\0\0\0\0\0\0\0\0\x04ping\0\0\0\x05echo\0\0\0\0\0\0\0\0one\n";

pub const LATE_2: &[u8] =
    b"GIOP\x01\x02\0\0\0\0\0\x28\0\0\0\x02\x03\0\0\0\0\0\0\0\0\0\0\x04ping\0\0\0\x05echo\0\0\0\0\0\0\0\0two\n";

pub const QUIET_3: &[u8] =
    b"GIOP\x01\x02\0\0\0\0\0\x28\0\0\0\x03\0\0\0\0\0\0\0\0\0\0\0\x04ping\0\0\0\x05echo\0\0\0\0\0\0\0\0six\n";

/// The reply at once to id 1, without a body, and the one to id 2 with its body: section 15.4.3.
pub const REPLY_1: &[u8] = b"GIOP\x01\x02\0\x01\0\0\0\x0c\0\0\0\x01\0\0\0\0\0\0\0\0";

pub const REPLY_2: &[u8] = b"GIOP\x01\x02\0\x01\0\0\0\x10\0\0\0\x02\0\0\0\0\0\0\0\0two\n";

pub const CLOSE: &[u8] = b"GIOP\x01\x02\0\x05\0\0\0\0";

pub const ERROR: &[u8] = b"GIOP\x01\x02\0\x06\0\0\0\0";

/// The setup of a configuration.
pub fn setup_of(alloc: Global, config: &[u8]) -> Option<Setup> {
    match read_setup(alloc, config) {
        Ok(setup) => Some(setup),
        Err(_) => None,
    }
}

pub fn numbers(alloc: Global, all: &[u64]) -> Option<List<u64>> {
    match Vec::from_slice(alloc, all) {
        Ok(all) => Some(List::from_vec(all)),
        Err(_) => None,
    }
}

/// These parts, one after another.
pub fn joined(alloc: Global, parts: &[&[u8]]) -> Option<Octets> {
    let mut bytes = Octets::new(alloc);
    for part in parts {
        if bytes.append(part).is_err() {
            return None;
        }
    }
    Some(bytes)
}

/// A source of these parts, of which each read gives so many bytes at most, and these reads fail.
pub fn source_of(alloc: Global, parts: &[&[u8]], cut: usize, failing: &[u64]) -> Option<MemSource>
    ensures { IfSome result (λ s. IsNewSource (⟦<MemSource as Source>⟧.state s)) }
{
    let bytes = joined(alloc, parts)?;
    let failing = numbers(alloc, failing)?;
    match vec![in alloc; cut; bytes.len()] {
        Ok(cuts) => Some(MemSource::new(bytes, List::from_vec(cuts), failing)),
        Err(_) => None,
    }
}

/// An empty sink, of which these writes fail.
pub fn sink_of(alloc: Global, failing: &[u64]) -> Option<MemSink>
    ensures { IfSome result (λ s. IsNewSink (⟦<MemSink as Sink>⟧.state s)) }
{
    let failing = numbers(alloc, failing)?;
    Some(MemSink::new(alloc, List::new(alloc), failing))
}
