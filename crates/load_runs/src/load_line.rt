//! The line that tells a load.
ghost use Rattle.std.specs.Prelude.{◌≡◌};
ghost use Rattle.load_runs.specs.Lines as Spec;

use std::fmt;
use trace_lines::{GivenText, Summary};

/// What a load came to, in numbers. Own profile.
#[derive(Clone, Copy, Debug, PartialEq, Eq)]
pub(crate) struct LoadLine {
    /// The requests that were given to a thread, waited first or were refused.
    pub requests: usize,
    /// What became of them when they came.
    pub given: Summary,
    /// The messages that were handed to the writing side.
    pub replies: usize,
    /// The bytes of the whole input.
    pub taken: usize,
    /// The bytes that were written to the connection. The number stands still at 2^64 - 1.
    pub written: u64,
}

/// How many bytes a load had, in and out.
#[derive(Clone, Copy)]
struct BytesText {
    line: LoadLine,
}

impl fmt::Display for BytesText {
    ghost use Rattle.std.specs.Prelude.{Some};

    ghost output = { λ t. Some (Spec.bytes_text t.line) };

    fn fmt<W: fmt::Write>(&self, f: &mut fmt::Formatter<W>) -> fmt::Result {
        write!(f, "in {} out {}", self.line.taken, self.line.written)
    }
}

impl fmt::Display for LoadLine {
    ghost use Rattle.std.specs.Prelude.{Some};

    ghost output = { λ l. Some (Spec.line_text l) };

    fn fmt<W: fmt::Write>(&self, f: &mut fmt::Formatter<W>) -> fmt::Result {
        let given = GivenText {
            summary: self.given,
        };
        let bytes = BytesText { line: *self };
        writeln!(
            f,
            "requests {} {given} replies {} {bytes}",
            self.requests, self.replies
        )
    }
}
