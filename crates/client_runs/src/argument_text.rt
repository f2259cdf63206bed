//! The text of arguments.
ghost use Rattle.std.specs.Prelude.{◌≡◌, IfOk};

use orb_base::NoMemory;
use std::alloc::Global;
use std::marker::Model;

/// A text that may be JSON.
#[derive(Drop)]
pub struct ArgumentText {
    text: String,
}

impl Model for ArgumentText {
    ghost use Rattle.std.specs.Prelude.{ℕ, List, string_bytes};

    ghost Value = { List ℕ };

    ghost view = { λ t. string_bytes t.text };
}

impl ArgumentText {
    /// A copy of a text.
    pub fn new(alloc: Global, text: &str) -> Result<ArgumentText, NoMemory>
        ensures { IfOk result (λ t. t ≡ text.now) }
    {
        Ok(ArgumentText {
            text: String::from_str(alloc, text)?,
        })
    }

    /// The text.
    pub fn as_str(&self) -> &str
        ensures { result.now ≡ self.now }
    {
        self.text.as_str()
    }
}
