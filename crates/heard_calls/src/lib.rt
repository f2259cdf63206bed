//! What the messages of a connection mean to the lane machine of its server: CORBA 3.0.3, section 15.4, and Real-time CORBA
//! 1.2. Which messages end the reading, and that a request without a due reply is refused in silence, is own profile.
//!
//! `specs/Meaning.antt` says what one message means, `specs/Hearing.antt` what a list of them does.
#![tactic(auto)]

mod ending;
mod hearing;
mod input;
pub mod laws;
mod meaning;
mod means;

pub use ending::Ending;
pub use hearing::{Heard, hear};
pub use input::{Input, hear_input};
pub use meaning::meaning_of;
pub use means::Means;
