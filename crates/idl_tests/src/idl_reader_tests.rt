//! Tests of `idl_reader`.
mod accepted_tests;
mod fault_tests;
mod tests;
