//! Answers where an object is.

/// An answer where an object is: CORBA 3.0.3, section 15.4.6.
#[derive(Clone, Copy, Debug, PartialEq, Eq)]
pub struct Located {
    /// The number of the question.
    pub id: u32,
    /// 0 where the object is unknown, 1 where it is here; any number is kept.
    pub status: u32,
}
