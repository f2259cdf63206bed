//! How many parameters go which way.
ghost use Rattle.std.specs.Prelude.{◌≡◌, map};
ghost use Rattle.idl_types.specs.Views.{param_of};
ghost use Rattle.idl_lines.specs.Counts as Spec;

use idl_types::{Param, Way};

/// Whether a parameter of this way goes from the client.
fn goes_in(way: Way) -> bool
    ensures { result ≡ Spec.goes_in way }
{
    match way {
        Way::Input | Way::Both => true,
        Way::Output => false,
    }
}

/// Whether a parameter of this way goes to the client.
fn goes_out(way: Way) -> bool
    ensures { result ≡ Spec.goes_out way }
{
    match way {
        Way::Output | Way::Both => true,
        Way::Input => false,
    }
}

/// How many parameters go from the client.
#[tactic(auto, using(crate::proofs::Counted::counted_as_seen))]
pub fn ins_of(params: &[Param]) -> usize
    ensures { result ≡ Spec.ins (map param_of params.now) }
{
    params.iter().filter(|p| goes_in(p.way)).count()
}

/// How many parameters go to the client.
#[tactic(auto, using(crate::proofs::Counted::counted_as_seen))]
pub fn outs_of(params: &[Param]) -> usize
    ensures { result ≡ Spec.outs (map param_of params.now) }
{
    params.iter().filter(|p| goes_out(p.way)).count()
}
