//! Messages in fragments, of which some pieces came.
ghost use Rattle.std.specs.Prelude.{◌≡◌, ◌==◌, ◌<◌, ◌^◌, length, sum_by, position};
ghost use Rattle.std.specs.Option.{option_copied};
ghost use Rattle.giop_frames.specs.Messages as Spec;
ghost use Rattle.giop_frames.specs.Steps.{Placed};

use orb_base::{Octets, Order};
use std::marker::Model;

/// An unfinished message: the offset of its first piece, and the bytes that came.
#[derive(Drop)]
pub(crate) struct Unfinished {
    pub at: u64,
    pub id: u32,
    pub order: Order,
    pub bytes: Octets,
}

impl Model for Unfinished {
    ghost use Rattle.std.specs.Prelude.{◌≤◌, length};
    ghost use Rattle.giop_frames.specs.Messages.{Partial};

    ghost Value = { Partial };

    ghost view = { λ u. record { at = u.at; id = u.id; order = u.order; bytes = u.bytes.items } };

    ghost invariant = { λ u. 12 ≤ length u.bytes.items };
}

/// The unfinished message of an id.
pub(crate) fn open_at(id: u32, partials: &[Unfinished]) -> Option<&Unfinished>
    ensures { option_copied result ≡ Spec.open_at id partials.now }
{
    partials.iter().find(|u| u.id == id)
}

/// The index of the unfinished message of an id.
fn position_of(id: u32, partials: &[Unfinished]) -> Option<usize>
    ensures { result ≡ position (λ u. u.id == id) partials.now }
{
    partials.iter().position(|u| u.id == id)
}

/// The index of the unfinished message of an id, with what is around it.
#[tactic(auto, using(crate::proofs::Places::placed))]
pub(crate) fn place_of(id: u32, partials: &[Unfinished]) -> Option<usize>
    ensures { Placed id partials.now result }
{
    position_of(id, partials)
}

/// The bytes of unfinished messages together.
pub(crate) fn bytes_of(partials: &[Unfinished]) -> usize
    requires { sum_by (λ u. length u.bytes) partials.now < 2 ^ 63 }
    ensures { result ≡ sum_by (λ u. length u.bytes) partials.now }
{
    partials.iter().map(|u| u.bytes.len()).sum()
}
