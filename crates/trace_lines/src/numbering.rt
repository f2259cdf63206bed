//! The numbers of the requests of a run.
ghost use Rattle.std.specs.Prelude.{◌≡◌, ◌≤◌, IfOk, OnOk, count_by, length};
ghost use Rattle.trace_lines.specs.Offers.{offered, offers};
ghost use Rattle.trace_lines.specs.Numbers.{is_offer, name_of as name_of_lem, number_in, IsNumbering, GoesBack, Keeps};

use crate::job_name::JobName;
use lane_machine::{LaneCall, Lanes};
use orb_base::{Job, NoMemory};
use std::alloc::Global;
use std::collections::HashMap;
use turn_cell::Entry;

/// The number of each request that a history offers: how many were offered before it.
#[derive(Drop)]
pub struct Numbering {
    first: HashMap<JobName, usize>,
    count: usize,
}

/// The name of a request.
fn name_of(job: &Job) -> JobName
    ensures { result ≡ name_of_lem job.now }
{
    JobName {
        slot: job.conn.slot,
        nth: job.conn.nth,
        serial: job.serial,
    }
}

/// Whether an entry offers a request.
#[tactic(auto, unfolding(crate::specs::Numbers::is_offer))]
fn offers_one(entry: &Entry<Lanes>) -> bool
    ensures { result ≡ is_offer entry.now }
{
    matches!(entry.call, LaneCall::Offer(_))
}

/// How many requests a history offers.
fn count_offers(history: &[Entry<Lanes>]) -> usize
    ensures { result ≡ count_by is_offer history.now }
{
    history.iter().filter(|entry| offers_one(entry)).count()
}

/// Keeps a number for a name.
fn keep_number(
    numbers: &mut HashMap<JobName, usize>,
    name: JobName,
    n: usize,
) -> Result<(), NoMemory>
    ensures { OnOk result (Keeps name n numbers.old numbers.new) }
{
    numbers.insert(name, n)?;
    Ok(())
}

/// Keeps the number of the request that an entry offers, where `n` is the number of the next one that is offered after it. Answers
/// that number, or `n` where the entry offers none.
fn number_entry(
    numbers: &mut HashMap<JobName, usize>,
    entry: &Entry<Lanes>,
    n: usize,
) -> Result<usize, NoMemory>
    requires { length (offered entry.now.call) ≤ n }
    ensures { IfOk result (λ here. GoesBack (offered entry.now.call) n here numbers.old numbers.new) }
{
    match &entry.call {
        LaneCall::Offer(job) => {
            let here = n - 1;
            keep_number(numbers, name_of(job.get()), here)?;
            Ok(here)
        }
        _ => Ok(n),
    }
}

impl Numbering {
    /// The numbers of the requests of a history. Two passes over it; memory grows with the requests.
    #[tactic(auto, using(crate::proofs::Numbered::all_numbered))]
    pub fn new(alloc: Global, history: &[Entry<Lanes>]) -> Result<Numbering, NoMemory>
        ensures { IfOk result (IsNumbering (offers history.now)) }
    {
        let count = count_offers(history);
        let mut first = HashMap::new(alloc);
        let mut next = count;
        let mut i = history.len();
        while i > 0 {
            i -= 1;
            next = number_entry(&mut first, &history[i], next)?;
        }
        Ok(Numbering { first, count })
    }

    /// The number of a request; how many are offered where none has its name. Constant work on average.
    pub fn number(&self, job: &Job) -> usize
        ensures { result ≡ number_in self.now job.now }
    {
        match self.first.get(&name_of(job)) {
            Some(n) => *n,
            None => self.count,
        }
    }
}
