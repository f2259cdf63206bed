//! What a search finds.
ghost use Rattle.std.specs.Prelude.{◌≡◌};
ghost use Rattle.request_buffer.specs.Ranks.{is_ahead};

/// The place of a request in its queue, with what it weighs and its stamp.
#[derive(Clone, Copy, Debug)]
pub struct Found {
    /// The position, from 0.
    pub at: usize,
    /// The priority, or 0 where it doesn't count.
    pub weight: u16,
    /// The stamp of its arrival.
    pub stamp: usize,
}

/// The place of a request among all queues.
#[derive(Clone, Copy, Debug)]
pub struct Spot {
    /// The number of the queue, from 0.
    pub queue: usize,
    /// The place in it.
    pub found: Found,
}

impl Found {
    /// Whether it goes before the other: of greater weight, or of equal weight and no later.
    pub fn is_ahead(self, other: Found) -> bool
        ensures { result ≡ is_ahead self other }
    {
        other.weight < self.weight || (other.weight == self.weight && self.stamp <= other.stamp)
    }
}
