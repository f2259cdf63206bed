//! Numbers of 128 bits.
ghost use Rattle.std.specs.Prelude.{◌≡◌, ◌+ℤ◌, ◌-ℤ◌, ◌*ℤ◌, neg_ℤ};
ghost use Rattle.script_values.specs.Operations.{checked, divided, remainder, computed};

use crate::Limit;
use script_grammar::Binary;

#[tactic(auto, unfolding(crate::specs::Operations::checked))]
fn sum(a: i128, b: i128) -> Result<i128, Limit>
    ensures { result ≡ checked (a +ℤ b) }
{
    a.checked_add(b).ok_or(Limit::Arithmetic)
}

#[tactic(auto, unfolding(crate::specs::Operations::checked))]
fn difference(a: i128, b: i128) -> Result<i128, Limit>
    ensures { result ≡ checked (a -ℤ b) }
{
    a.checked_sub(b).ok_or(Limit::Arithmetic)
}

#[tactic(auto, unfolding(crate::specs::Operations::checked))]
fn product(a: i128, b: i128) -> Result<i128, Limit>
    ensures { result ≡ checked (a *ℤ b) }
{
    a.checked_mul(b).ok_or(Limit::Arithmetic)
}

/// The number with the other sign.
#[tactic(auto, unfolding(crate::specs::Operations::checked))]
pub fn negated(a: i128) -> Result<i128, Limit>
    ensures { result ≡ checked (neg_ℤ a) }
{
    a.checked_neg().ok_or(Limit::Arithmetic)
}

#[tactic(auto, unfolding(crate::specs::Operations::checked, crate::specs::Operations::divided))]
fn quotient(a: i128, b: i128) -> Result<i128, Limit>
    ensures { result ≡ divided a b }
{
    a.checked_div(b).ok_or(Limit::Arithmetic)
}

#[tactic(auto, unfolding(crate::specs::Operations::remainder))]
fn rest(a: i128, b: i128) -> Result<i128, Limit>
    ensures { result ≡ remainder a b }
{
    if b == 0 {
        return Err(Limit::Arithmetic);
    }
    if b == -1 {
        return Ok(0);
    }
    Ok(a % b)
}

/// What an operator makes of two numbers.
pub fn compute(op: Binary, a: i128, b: i128) -> Result<i128, Limit>
    ensures { result ≡ computed op a b }
{
    match op {
        Binary::Add => sum(a, b),
        Binary::Subtract => difference(a, b),
        Binary::Multiply => product(a, b),
        Binary::Divide => quotient(a, b),
        Binary::Remainder => rest(a, b),
        _ => Ok(0),
    }
}
