//! Types and values of IDL, and their spelling by the Common Data Representation: CORBA 3.0.3, section 15.3.
//!
//! What a value of a type is spelled as is there once, in `specs/Spelling.antt`, as the fields of `cdr_core`; reading,
//! writing and fitting are exact against it.
#![tactic(auto)]

mod choice;
mod copying;
mod decoding;
mod encoding;
mod fault;
mod fitting;
mod kind;
mod lawful;
mod laws;
mod length;
mod number;
mod spelled;
mod value;

pub use copying::{copy_members, copy_texts, copy_type, copy_value};
pub use decoding::decode;
pub use encoding::encode;
pub use fault::DecodeFault;
pub use fitting::fits;
pub use kind::{Case, IdlType, Member};
pub use lawful::{are_lawful, is_lawful};
pub use laws::{reads_back, reads_exactly, reads_one_way};
pub use length::spelled_end;
pub use value::IdlValue;
