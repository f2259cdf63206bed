//! What the requests of a load have in common.
ghost use Rattle.std.specs.Prelude.{◌≡◌, ◌≤◌, ◌+◌, ◌++◌, length, IfOk, OnOk, is_some};
ghost use Rattle.std.specs.Int.{w32};
ghost use Rattle.orb_base.specs.declared.order.Order.TheVariants.{Big};
ghost use Rattle.cdr_core.specs.Field.{number_bytes};
ghost use Rattle.load_runs.specs.Making.{AreShort, IsPattern, IsCut, carries, content, content_len};

use crate::request::{priority, request};
use cdr_core::bytes_of_u32;
use orb_base::{NoMemory, Octets, Order, Priority, PriorityModel};
use service_contexts::priority_context;
use std::alloc::Global;

/// Bytes before the id of a request.
const ID_AT: usize = 12;

/// Bytes of the id.
const ID_LEN: usize = 4;

/// Bytes of what a context says of a priority.
const CONTENT_LEN: usize = 4;

/// What all requests to the object of a key are spelled as, but for their ids and priorities, so that none but the first is spelled anew.
#[derive(Drop)]
pub(crate) struct Pattern {
    /// The bytes before the id.
    before: Octets,
    /// The bytes after the id, up to the priority's.
    after: Octets,
}

/// A priority that a request under this model may carry, or none.
fn some_level(model: PriorityModel) -> Option<Priority>
    ensures { is_some result ≡ carries model }
{
    match model {
        PriorityModel::ClientPropagated => Some(priority(0)),
        PriorityModel::ServerDeclared => None,
    }
}

/// How many bytes of a request say its priority.
fn content_len(model: PriorityModel) -> usize
    ensures { result ≡ content_len model }
{
    match model {
        PriorityModel::ClientPropagated => CONTENT_LEN,
        PriorityModel::ServerDeclared => 0,
    }
}

/// The parts of the bytes of a request: those before the id, and those after it up to the priority's.
fn parts(bytes: &[u8], content: usize) -> (&[u8], &[u8])
    requires { 16 + content ≤ length bytes.now }
    ensures { IsCut bytes.now content result.0.now result.1.now }
{
    let (before, rest) = bytes.split_at(ID_AT);
    let (_, after) = rest.split_at(ID_LEN);
    let (after, _) = after.split_at(after.len() - content);
    (before, after)
}

impl Pattern {
    /// The pattern of requests to the object of a key under an adapter of this model.
    #[tactic(auto, using(crate::proofs::Requests::short_message))]
    pub(crate) fn new(
        alloc: Global,
        object: &[u8],
        model: PriorityModel,
    ) -> Result<Pattern, NoMemory>
        requires { AreShort object.now }
        ensures { IfOk result (λ p. IsPattern object.now (carries model) p.before.items p.after.items) }
    {
        let first = request(alloc, 0, object, some_level(model))?;
        let (from, to) = parts(first.as_slice(), content_len(model));
        let mut before = Octets::new(alloc);
        before.append(from)?;
        let mut after = Octets::new(alloc);
        after.append(to)?;
        Ok(Pattern { before, after })
    }

    /// The bytes of the request under an id that carries this priority, in place of what is there.
    pub(crate) fn spell(
        &self,
        id: u32,
        level: Option<Priority>,
        into: &mut Octets,
    ) -> Result<(), NoMemory>
        ensures { OnOk result (into.new.items ≡ self.now.before.items ++ number_bytes Big w32 id ++ self.now.after.items ++ content level) }
    {
        into.clear();
        into.append(self.before.as_slice())?;
        into.append(&bytes_of_u32(Order::Big, id))?;
        into.append(self.after.as_slice())?;
        match level {
            Some(level) => into.append(&priority_context(Order::Big, level)),
            None => Ok(()),
        }
    }
}
