//! That the laws of reading hold for IDL.
ghost use Rattle.idl_grammar.specs.Plain.{IsPlainIdl};

use crate::{IdlFault, IdlLabel, Inner};
use grammar::Builder;

/// One token tells the rules of IDL apart, whatever is built along them, so that the laws of reading hold: the contract
/// of a call that does nothing.
pub fn rules_are_plain<B: Builder<Label = IdlLabel, Inner = Inner, Fault = IdlFault>>()
    ensures { IsPlainIdl B.act B.judge }
{}
