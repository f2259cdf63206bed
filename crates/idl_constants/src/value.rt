//! Values of constants.
ghost use Rattle.std.specs.Prelude.{◌≡◌, pos, IfOk};
ghost use Rattle.idl_constants.specs.ConstValues.{label_of};
ghost use Rattle.idl_constants.specs.Views.{value_of};

use orb_base::{NoMemory, Text};
use std::alloc::Global;

/// What a literal or a constant's name stands for.
#[derive(Debug, Drop)]
pub enum ConstValue {
    Number(i128),
    Character(u8),
    Text(Text),
    Truth(bool),
    /// An enumerator: the id of its enum, and its number from 0.
    Choice(Text, u32),
}

impl ConstValue {
    /// The number by which a case of a union is given: FALSE is 0 and TRUE is 1, a char has its code and an enumerator its
    /// number. A text tells no case, and has 0.
    pub fn label(&self) -> i128
        ensures { result ≡ label_of (value_of self.now) }
    {
        match self {
            ConstValue::Number(z) => *z,
            ConstValue::Character(c) => i128::from(*c),
            ConstValue::Text(_) => 0,
            ConstValue::Truth(true) => 1,
            ConstValue::Truth(false) => 0,
            ConstValue::Choice(_, n) => i128::from(*n),
        }
    }

    /// An equal value.
    pub fn copy(&self, alloc: Global) -> Result<ConstValue, NoMemory>
        ensures { IfOk result (λ v. value_of v ≡ value_of self.now) }
    {
        match self {
            ConstValue::Number(z) => Ok(ConstValue::Number(*z)),
            ConstValue::Character(c) => Ok(ConstValue::Character(*c)),
            ConstValue::Text(text) => Ok(ConstValue::Text(text.copy(alloc)?)),
            ConstValue::Truth(b) => Ok(ConstValue::Truth(*b)),
            ConstValue::Choice(id, n) => Ok(ConstValue::Choice(id.copy(alloc)?, *n)),
        }
    }
}
