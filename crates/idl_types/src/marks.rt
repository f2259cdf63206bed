//! Marks on numbers, without memory.
ghost use Rattle.std.specs.Prelude.{◌≡◌, ℕ, ◌<◌, ◌||◌, ◌==◌, false};
ghost use Rattle.idl_types.specs.Marked.{is_marked};

/// How many numbers can be marked.
pub(crate) const MARKS: usize = 524_288;

/// The numbers below 524,288 that are marked: one bit each, 64 KiB on the stack.
#[derive(Drop)]
pub(crate) struct Marks {
    words: [u64; 8192],
}

impl Marks {
    /// No mark.
    pub(crate) fn none() -> Marks
        ensures { (n : ℕ) → is_marked result.words n ≡ false }
    {
        Marks { words: [0; 8192] }
    }

    /// Whether a number is marked.
    pub(crate) fn has(&self, n: usize) -> bool
        requires { n < 524288 }
        ensures { result ≡ is_marked self.now.words n }
    {
        (self.words[n / 64] >> (n % 64)) & 1 == 1
    }

    /// Marks a number.
    pub(crate) fn put(&mut self, n: usize)
        requires { n < 524288 }
        ensures { (k : ℕ) → is_marked self.new.words k ≡ ((n == k) || is_marked self.old.words k) }
    {
        self.words[n / 64] = self.words[n / 64] | (1u64 << (n % 64));
    }
}
