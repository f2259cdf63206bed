//! Tests of `idl_types`, `idl_tokens`, `grammar`, `idl_grammar`, `idl_scopes`, `idl_constants`, `idl_names`, `idl_reader`.
#![tactic(auto)]

#[cfg(test)]
mod grammar_tests;
#[cfg(test)]
mod idl_constants_tests;
#[cfg(test)]
mod idl_grammar_tests;
#[cfg(test)]
mod idl_names_tests;
#[cfg(test)]
mod idl_reader_tests;
#[cfg(test)]
mod idl_scopes_tests;
#[cfg(test)]
mod idl_tokens_tests;
#[cfg(test)]
mod idl_types_tests;
