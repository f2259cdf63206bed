//! What is to be drawn of a run.

/// Entries that a picture shows at most.
pub const MAX_DRAWN: u32 = 2_000;

/// What is to be drawn: a run, by its number in the input, and so many of its entries, of which the first has this number.
#[derive(Clone, Copy, Debug, PartialEq, Eq)]
pub struct View {
    pub run: u32,
    pub from: u32,
    pub entries: u32,
}

/// What is said of a picture: the run, the number of its first entry and how many are shown, how many come before the first wrong one,
/// and how many there are.
#[derive(Clone, Copy)]
pub struct Title {
    pub run: u32,
    pub first: u32,
    pub count: usize,
    pub legal: usize,
    pub entries: usize,
}

/// What is counted of a picture: the requests that a thread took, those by a thread that is lent, those that waited, that were withdrawn
/// and that were refused.
#[derive(Clone, Copy)]
pub struct Counts {
    pub bars: usize,
    pub lent: usize,
    pub waits: usize,
    pub removed: usize,
    pub full: usize,
}
