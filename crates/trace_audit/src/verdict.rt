//! What an audit says of a run.
ghost use Rattle.std.specs.Prelude.{◌≡◌};
ghost use Rattle.trace_audit.specs.Lines as Spec;

use std::fmt;

/// What an audit says of a run. Own profile.
#[derive(Clone, Copy, Debug, PartialEq, Eq)]
pub struct Verdict {
    /// How many entries its history has.
    pub entries: u32,
    /// The first entry that the rules of the lane machine don't allow, counted from 0. None where the run is legal.
    pub first_wrong: Option<u32>,
    /// Whether the run is legal, and each call was its caller's to make.
    pub fit: bool,
    /// How many requests were given to a thread of a lower lane: of all entries of a legal run, and of those before the first wrong one
    /// of another.
    pub lent: u32,
    /// The most entries from one that keeps a request to the one that takes it, of the same entries; 0 where none is taken.
    pub longest: u32,
}

/// A yes or a no.
fn yes_no(is: bool) -> &'static str
    ensures { result.now ≡ Spec.yes_no is }
{
    if is { "yes" } else { "no" }
}

impl fmt::Display for Verdict {
    ghost use Rattle.std.specs.Prelude.{Some};

    ghost output = { λ v. Some (Spec.verdict_text v) };

    fn fmt<W: fmt::Write>(&self, f: &mut fmt::Formatter<W>) -> fmt::Result {
        let legal = yes_no(self.first_wrong.is_none());
        let fit = yes_no(self.fit);
        write!(
            f,
            "legal {legal} fit {fit} entries {} lent {} longest {}",
            self.entries, self.lent, self.longest
        )
    }
}
