//! The input of a load.
ghost use Rattle.std.specs.Prelude.{◌≡◌, ◌≤◌, ◌++◌, Some, IfOk, OnOk};
ghost use Rattle.cdr_core.specs.Cursor.{AreBytes};
ghost use Rattle.giop_frames.specs.Feeds.{joined_feeds};
ghost use Rattle.giop_frames.specs.Splitting.{IsUncut};
ghost use Rattle.orb_base.specs.declared.limits.TheConstants.{MAX_RUN_CALLS};
ghost use Rattle.load_runs.specs.Generated as Spec;
ghost use Rattle.load_runs.specs.Making.{AreShort, Sends, Puts, MadeSoFar, IsMade};

use crate::fragment_len::FragmentLen;
use crate::load_plan::LoadPlan;
use crate::pattern::Pattern;
use crate::request::{are_short, sent_level};
use adapter_policies::Setup;
use giop_frames::split;
use orb_base::{NoMemory, Octets, PoolSpec, PriorityModel};
use std::alloc::Global;

/// The most bytes that a request is sent as: its own, and the headers and ids of its pieces.
pub(crate) const MAX_SENT: usize = 496;

/// Puts pieces after the bytes.
fn put_pieces(pieces: &[Octets], into: &mut Octets) -> Result<(), NoMemory>
    ensures { OnOk result (into.new.items ≡ into.old.items ++ joined_feeds pieces.now) }
{
    for piece in pieces {
        into.append(piece.as_slice())?;
    }
    Ok(())
}

/// Puts a message in its pieces after the bytes.
fn put_split(
    alloc: Global,
    message: &[u8],
    fragment: FragmentLen,
    into: &mut Octets,
) -> Result<(), NoMemory>
    requires { IsUncut message.now }
    ensures { OnOk result (Sends (Some fragment) message.now into.old.items into.new.items) }
{
    let pieces = split(alloc, message, fragment.bytes())?;
    put_pieces(pieces.as_slice(), into)
}

/// Puts a message after the bytes, whole or in its pieces.
fn put_sent(
    alloc: Global,
    message: &[u8],
    fragment: Option<FragmentLen>,
    into: &mut Octets,
) -> Result<(), NoMemory>
    requires { IsUncut message.now }
    ensures { OnOk result (Sends fragment message.now into.old.items into.new.items) }
{
    match fragment {
        Some(fragment) => put_split(alloc, message, fragment, into),
        None => into.append(message),
    }
}

/// Tells that each of them is an octet.
fn see_bytes(bytes: &[u8])
    ensures { AreBytes bytes.now }
{}

/// After the first of so many requests makes room for the others, each of which is as long.
fn reserve_others(input: &mut Octets, i: u32, requests: u32) -> Result<(), NoMemory>
    ensures { input.new.items ≡ input.old.items }
{
    if i > 0 {
        return Ok(());
    }
    let others = requests.saturating_sub(1) as usize;
    input.reserve_exact(input.len().saturating_mul(others))
}

/// The requests of a plan to the object of a key under an adapter of this model. One of them is spelled, and the others are made by what
/// they have in common. All are of one length, so that the room for them is asked for once, after the first one.
fn requests(
    alloc: Global,
    object: &[u8],
    model: PriorityModel,
    pool: &PoolSpec,
    plan: &LoadPlan,
) -> Result<Octets, NoMemory>
    requires { AreShort object.now }
    ensures few { plan.now.count ≤ MAX_RUN_CALLS }
    ensures made { IfOk result (λ input. MadeSoFar plan.now.fragment
        (Spec.request_at (record { object = object.now; model = model }) pool.now plan.now.seed) plan.now.count input.items) }
{
    let count = plan.count.requests();
    let pattern = Pattern::new(alloc, object, model)?;
    let mut message = Octets::new(alloc);
    let mut input = Octets::new(alloc);
    for i in 0..count {
        let level = sent_level(model, pool, plan.seed, i);
        pattern.spell(i + 1, level, &mut message)?;
        see_bytes(message.as_slice());
        put_sent(alloc, message.as_slice(), plan.fragment, &mut input)?;
        reserve_others(&mut input, i, count)?;
    }
    Ok(input)
}

/// The load of a plan for a setup. That the setup has an object under an adapter, and that requests to it are short, is tested once
/// more. Work grows with the number of the requests.
#[tactic(auto, using(crate::proofs::Made::is_made))]
pub(crate) fn load_input(alloc: Global, setup: &Setup, plan: &LoadPlan) -> Result<Octets, NoMemory>
    ensures { IfOk result (λ input. IsMade setup.now plan.now input.items) }
{
    let Some(object) = setup.object(0) else {
        return Err(NoMemory);
    };
    let Some(adapter) = setup.adapter(object.adapter) else {
        return Err(NoMemory);
    };
    let key = object.key.as_slice();
    if !are_short(key) {
        return Err(NoMemory);
    }
    requests(alloc, key, adapter.model, setup.pool(), plan)
}
