//! A set of threads, by their numbers.
ghost use Rattle.std.specs.Prelude.{◌≡◌, ◌<◌, ℕ, false};
ghost use Rattle.thread_borrowing.specs.Masks.{has, IsLeast, Gained, Lost};

use orb_base::limits::MAX_THREADS;

/// A set of numbers from 0 to 63, a bit for each.
#[derive(Clone, Copy, Debug)]
pub struct Mask {
    bits: u64,
}

impl Mask {
    /// The set without a number.
    pub fn empty() -> Mask
        ensures { IsLeast result None }
    {
        Mask { bits: 0 }
    }

    /// Its least number.
    pub fn first(&self) -> Option<u8>
        ensures { IsLeast self.now result }
    {
        if self.bits == 0 {
            None
        } else {
            Some(self.bits.trailing_zeros() as u8)
        }
    }

    /// Puts a number into it.
    pub fn put(&mut self, number: u8)
        requires { number < MAX_THREADS }
        ensures { Gained number self.old self.new }
    {
        self.bits |= 1 << number;
    }

    /// Takes a number out of it, where it has that.
    pub fn remove(&mut self, number: u8)
        requires { number < MAX_THREADS }
        ensures { Lost number self.old self.new }
    {
        let bits = self.bits;
        self.bits = bits & !(1 << number);
    }
}
