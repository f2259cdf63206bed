//! The requests of a run, and the lengths of the answers to them.
ghost use Rattle.std.specs.Prelude.{◌≡◌, ◌++◌, IfOk, OnOk, slice_index};
ghost use Rattle.trace_lines.specs.ReadBack.{jobs_of, offered_by};
ghost use Rattle.lane_audit.specs.Resolved.{HasOffers, LensAfter, IsLenSet};
ghost use Rattle.lane_audit.specs.Counting.{AreZeros};

use crate::asked::Asked;
use orb_base::{List, NoMemory};
use std::alloc::Global;
use trace_lines::{Action, TraceLine};

/// The requests that the lines of a run offer, by their numbers, with the length of the last answer to each so far.
#[derive(Drop)]
pub struct Offers {
    /// The requests.
    pub asked: List<Asked>,
    /// The lengths, 0 where none was answered.
    pub lens: List<usize>,
}

impl Offers {
    /// The requests of these lines, none of which is answered yet. One pass; memory grows with the requests.
    #[tactic(auto, using(crate::proofs::Asking::has_offers))]
    pub fn new(alloc: Global, lines: &[TraceLine]) -> Result<Offers, NoMemory>
        ensures { IfOk result (HasOffers lines.now) }
    {
        let asked = all_offered(alloc, lines)?;
        let lens = no_lens(alloc, asked.len())?;
        Ok(Offers { asked, lens })
    }

    /// The length of the last answer to the request of this number, 0 where there is none.
    pub fn last_len(&self, request: usize) -> usize
        ensures { result ≡ slice_index self.now.lens.items request }
    {
        match self.lens.get(request) {
            Some(len) => *len,
            None => 0,
        }
    }

    /// Notes how long an answer is.
    pub fn note(&mut self, action: &Action)
        ensures asked { self.new.asked ≡ self.old.asked }
        ensures lens { LensAfter self.old.lens.items self.new.lens.items action.now }
    {
        match action {
            Action::Finish {
                request,
                body_len,
                ..
            } => set_len(&mut self.lens, *request, *body_len),
            Action::Offer { .. } => {}
            Action::Post { .. } => {}
            Action::Cancel { .. } => {}
            Action::Take { .. } => {}
            Action::Collect { .. } => {}
            Action::End { .. } => {}
            Action::Leave { .. } => {}
        }
    }
}

/// The requests that lines offer, in order.
fn all_offered(alloc: Global, lines: &[TraceLine]) -> Result<List<Asked>, NoMemory>
    ensures { IfOk result (λ list. list.items ≡ jobs_of lines.now) }
{
    let mut asked = List::new(alloc);
    for line in lines {
        add_offered(&mut asked, &line.action)?;
    }
    Ok(asked)
}

/// Adds the request of a line that offers one.
fn add_offered(asked: &mut List<Asked>, action: &Action) -> Result<(), NoMemory>
    ensures { OnOk result (asked.new.items ≡ asked.old.items ++ offered_by action.now) }
{
    match action {
        Action::Offer { request, .. } => match asked.push(Asked::new(*request)) {
            Ok(()) => Ok(()),
            Err(_) => Err(NoMemory),
        },
        _ => Ok(()),
    }
}

/// So many zeros.
#[tactic(auto, using(crate::proofs::Cells::are_zeros))]
fn no_lens(alloc: Global, n: usize) -> Result<List<usize>, NoMemory>
    ensures { IfOk result (λ list. AreZeros list.items n) }
{
    Ok(List::from_vec(vec![in alloc; 0usize; n]?))
}

/// The length of the last answer to the request of this number, where there is one, is this from now on.
#[tactic(auto, using(crate::proofs::Asking::len_set, crate::proofs::Asking::len_kept))]
fn set_len(lens: &mut List<usize>, request: usize, len: usize)
    ensures { IsLenSet lens.old.items lens.new.items request len }
{
    if request < lens.len() {
        lens.replace(request, len);
    }
}
