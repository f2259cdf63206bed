//! Answers of plain values.

use orb_base::{Completed, Outcome, SysName};

/// What an answer is.
#[derive(Clone, Copy)]
pub enum Told {
    /// A result of these bytes.
    Returned(&'static [u8]),
    /// An exception of the service of these bytes.
    User(&'static [u8]),
    /// BAD_OPERATION, minor 1, completed NO.
    BadOperation,
    /// MARSHAL, minor 1, completed NO.
    Marshal,
    /// IMP_LIMIT, minor 1, completed MAYBE.
    Limited,
}

pub fn is_told(outcome: &Outcome, told: Told) -> bool {
    match (outcome, told) {
        (Outcome::Returned(body), Told::Returned(bytes)) => body.as_slice() == bytes,
        (Outcome::User(body), Told::User(bytes)) => body.as_slice() == bytes,
        (Outcome::System(s), Told::BadOperation) => s.name == SysName::BadOperation
            && s.minor == 1
            && s.completed == Completed::No,
        (Outcome::System(s), Told::Marshal) => s.name == SysName::Marshal
            && s.minor == 1
            && s.completed == Completed::No,
        (Outcome::System(s), Told::Limited) => s.name == SysName::ImpLimit
            && s.minor == 1
            && s.completed == Completed::Maybe,
        _ => false,
    }
}
