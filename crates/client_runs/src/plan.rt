//! The call that words ask for.
ghost use Rattle.std.specs.Prelude.{◌≡◌, ◌↔◌, None, IfOk, IsTrue};
ghost use Rattle.idl_types.specs.Contents.{things_of};
ghost use Rattle.client_stub.specs.Asking.{arguments_fit, asked_of};
ghost use Rattle.client_stub.specs.Sending.{IsSendable};
ghost use Rattle.client_runs.specs.Judging.{Gives, asked_by, with_band};
ghost use Rattle.client_runs.specs.Plans.{asked_in, Binds, JudgedAs, Judges};

use crate::arguments::arguments_by;
use crate::call_end::{CallEnd, LocalFault};
use crate::call_words::CallWords;
use crate::operations::operation_by;
use crate::remotes::remote_by;
use cdr_values::IdlValue;
use client_calls::is_sendable;
use client_stub::{Asked, NoBand, Remote, band_for};
use idl_types::{Operation, Repository};
use orb_base::{Band, List, Priority};
use std::alloc::Global;

/// What a call is made of.
#[derive(Drop)]
pub struct Plan<'r> {
    pub remote: Remote,
    pub operation: &'r Operation,
    pub arguments: List<IdlValue>,
    pub priority: Option<Priority>,
    pub band: Option<Band>,
}

impl<'r> Plan<'r> {
    /// The call.
    pub fn asked(&self) -> Asked<'_>
        ensures { asked_of result ≡ asked_in self.now }
    {
        Asked {
            remote: &self.remote,
            operation: self.operation,
            arguments: &self.arguments,
            priority: self.priority,
            band: self.band,
        }
    }

    /// Whether its requests are short enough.
    fn is_short(&self) -> bool
        requires fits { IsTrue (arguments_fit (asked_in self.now)) }
        ensures { IsTrue result ↔ IsSendable (asked_in self.now) }
    {
        let asked = self.asked();
        is_sendable(&asked)
    }

    /// The band that it binds first.
    fn choose(&self) -> Result<Option<Band>, CallEnd>
        ensures { Binds result (asked_in self.now) }
    {
        match band_for(&self.remote, self.priority) {
            Ok(band) => Ok(band),
            Err(NoBand) => Err(CallEnd::Local(LocalFault::NoBand)),
        }
    }

    /// The same call with this band.
    fn with(self, band: Option<Band>) -> Plan<'r>
        ensures { asked_in result ≡ with_band band (asked_in self.entry) }
    {
        Plan {
            remote: self.remote,
            operation: self.operation,
            arguments: self.arguments,
            priority: self.priority,
            band,
        }
    }
}

/// The call that the words ask for, without a band.
fn unbound<'r>(
    alloc: Global,
    repository: &'r Repository,
    words: &CallWords,
) -> Result<Plan<'r>, CallEnd>
    ensures gives { Gives asked_in result (asked_by words.now (things_of repository.now)) }
    ensures fits { IfOk result (λ plan. IsTrue (arguments_fit (asked_in plan))) }
    ensures none { IfOk result (λ plan. (asked_in plan).band ≡ None) }
{
    let remote = remote_by(alloc, &words.reference)?;
    let operation = operation_by(repository, words, &remote)?;
    let arguments = arguments_by(alloc, words, operation)?;
    Ok(Plan {
        remote,
        operation,
        arguments,
        priority: words.priority,
        band: None,
    })
}

/// A plan with its band, where a band holds its priority.
#[tactic(auto, using(crate::proofs::Planned::band_fault, crate::proofs::Planned::band_found, crate::proofs::Planned::fits_with, crate::proofs::Planned::short_with))]
fn bound(plan: Plan<'_>) -> Result<Plan<'_>, CallEnd>
    requires fits { IsTrue (arguments_fit (asked_in plan)) }
    requires short { IsSendable (asked_in plan) }
    requires none { (asked_in plan).band ≡ None }
    ensures judges { JudgedAs result (asked_in plan.entry) }
    ensures fits { IfOk result (λ p. IsTrue (arguments_fit (asked_in p))) }
    ensures short { IfOk result (λ p. IsSendable (asked_in p)) }
{
    match plan.choose() {
        Ok(band) => Ok(plan.with(band)),
        Err(end) => Err(end),
    }
}

/// A plan with its band, where its requests are short enough and a band holds its priority.
fn judged(plan: Plan<'_>) -> Result<Plan<'_>, CallEnd>
    requires fits { IsTrue (arguments_fit (asked_in plan)) }
    requires none { (asked_in plan).band ≡ None }
    ensures judges { JudgedAs result (asked_in plan.entry) }
    ensures fits { IfOk result (λ p. IsTrue (arguments_fit (asked_in p))) }
    ensures short { IfOk result (λ p. IsSendable (asked_in p)) }
{
    if plan.is_short() {
        bound(plan)
    } else {
        Err(CallEnd::Local(LocalFault::BadArguments))
    }
}

/// The call that the words ask for, by the interfaces that are known: its reference is read first, and then its interface, its operation,
/// its arguments and the length of its requests, and its band are looked for, each with its own fault.
#[tactic(auto, using(crate::proofs::Planned::unbound_fault, crate::proofs::Planned::unbound_found))]
pub fn plan_of<'r>(
    alloc: Global,
    repository: &'r Repository,
    words: &CallWords,
) -> Result<Plan<'r>, CallEnd>
    ensures judges { Judges result words.now (things_of repository.now) }
    ensures fits { IfOk result (λ plan. IsTrue (arguments_fit (asked_in plan))) }
    ensures short { IfOk result (λ plan. IsSendable (asked_in plan)) }
{
    match unbound(alloc, repository, words) {
        Ok(plan) => judged(plan),
        Err(end) => Err(end),
    }
}
