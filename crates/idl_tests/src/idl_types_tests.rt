//! Tests of `idl_types`.
mod kinship_tests;
mod lookup_tests;
mod names_tests;
mod ping_tests;
mod reference_tests;
mod refuse_tests;
mod samples;
