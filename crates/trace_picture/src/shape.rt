//! What a picture is made of.

/// How a request ceases to wait.
#[derive(Clone, Copy, Debug, PartialEq, Eq)]
pub enum WaitEnd {
    /// A thread took it.
    Taken,
    /// It was withdrawn.
    Removed,
    /// It still waits where the entries end that are drawn.
    Open,
}

/// What is drawn. `start`, `end` and `at` are numbers of entries, a request's number is how many were offered before it.
#[derive(Clone, Copy, Debug, PartialEq, Eq)]
pub enum Shape {
    /// A thread carries out a request: from its Take to its Finish.
    Bar {
        thread: u8,
        lane: u8,
        request: usize,
        start: u32,
        end: u32,
    },
    /// A request waits: from its Offer to what ends that.
    Wait {
        lane: u8,
        request: usize,
        start: u32,
        end: u32,
        how: WaitEnd,
    },
    /// A request is refused, since nothing more may wait.
    Full {
        lane: u8,
        at: u32,
    },
    /// A call isn't heard, since a limit of the run is met.
    Rule {
        at: u32,
    },
    /// A message is handed over to be sent: the reply to a request of this lane, or else an answer of the reading side.
    Dot {
        lane: Option<u8>,
        at: u32,
    },
}
