//! How long the pieces of a request are.
ghost use Rattle.std.specs.Prelude.{◌≡◌, ◌≤◌, ◌%◌};
ghost use Rattle.load_runs.specs.Counts as Spec;

use orb_base::limits::MAX_MESSAGE;
use std::marker::Model;

/// The fewest bytes that a piece of a request may have, unless it is the last one: a header, an id and eight more.
pub const MIN_FRAGMENT: usize = 24;

/// How many bytes a piece of a request has at most, `MIN_FRAGMENT` to `MAX_MESSAGE`, which are 24 and 262,144: a multiple of 8.
#[derive(Clone, Copy, Debug, PartialEq, Eq)]
pub struct FragmentLen {
    bytes: usize,
}

impl Model for FragmentLen {
    ghost use Rattle.std.specs.Prelude.{◌≡◌, ℕ, ◌≤◌, ◌%◌};
    ghost use Rattle.orb_base.specs.declared.limits.TheConstants.{MAX_MESSAGE};
    ghost use Rattle.load_runs.specs.declared.fragment_len.TheConstants.{MIN_FRAGMENT};

    ghost Value = { ℕ };

    ghost view = { λ f. f.bytes };

    ghost invariant = { λ f. (MIN_FRAGMENT ≤ f.bytes) × (f.bytes ≤ MAX_MESSAGE) × (f.bytes % 8 ≡ 0) };

    ghost inverse = { λ n. record { bytes = n } };
}

impl FragmentLen {
    ghost use Rattle.orb_base.specs.declared.limits.TheConstants.{MAX_MESSAGE};
    ghost use Rattle.load_runs.specs.declared.fragment_len.TheConstants.{MIN_FRAGMENT};

    /// So many bytes. None exactly where they aren't `MIN_FRAGMENT` to `MAX_MESSAGE`, or no multiple of 8.
    pub fn new(bytes: u32) -> Option<FragmentLen>
        ensures { result ≡ Spec.fragment_len bytes }
    {
        let bytes = bytes as usize;
        if bytes < MIN_FRAGMENT || bytes > MAX_MESSAGE || bytes % 8 != 0 {
            return None;
        }
        Some(FragmentLen { bytes })
    }

    /// The number of the bytes.
    pub fn bytes(self) -> usize
        ensures value { result ≡ self }
        ensures least { MIN_FRAGMENT ≤ result }
        ensures most { result ≤ MAX_MESSAGE }
        ensures eights { result % 8 ≡ 0 }
    {
        self.bytes
    }
}
