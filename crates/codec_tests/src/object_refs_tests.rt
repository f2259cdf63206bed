//! Tests of `object_refs`.
mod reference_tests;
mod tests;
mod vectors;
