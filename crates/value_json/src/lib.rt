//! Values of IDL types as JSON, both ways: own profile.
//!
//! What a value is as JSON is a function from values, in `specs/Shown.antt`, and what JSON means is a function from JSON,
//! in `specs/Meant.antt`. `to_json` and `from_json` are these functions, and two laws tie them. The arguments of an operation
//! are a JSON text, and so are its results, by `specs/Operations.antt`.
//!
//! | Type | JSON | Example |
//! |---|---|---|
//! | octet, integers | a number without fraction and exponent, exact to 64 bits | `-9223372036854775808` |
//! | boolean | a boolean | `true` |
//! | char | a string of one character, whose code is the byte | `"A"` |
//! | string | a string of the characters of its byte codes, from 1 to 255 | `"Zürich"` |
//! | enum | its label | `"GREEN"` |
//! | sequence, array | an array | `[1, 2, 3]` |
//! | struct | an object of its members, in any order; printed in ascending order of their names | `{"x": 1, "y": 2}` |
//! | union | an object of `case`, the discriminator, and `value`, where a member is chosen | `{"case": 2, "value": "a"}` |
//!
//! Of a key that occurs twice in an object the last value counts.
#![tactic(auto)]

mod arguments;
mod choice;
mod fault;
mod laws;
mod numerals;
mod objects;
mod reading;
mod results;
mod showing;
mod texts;

pub use arguments::arguments_from;
pub use fault::JsonError;
pub use laws::{means_of_type, reads_back};
pub use reading::from_json;
pub use results::results_json;
pub use showing::to_json;
