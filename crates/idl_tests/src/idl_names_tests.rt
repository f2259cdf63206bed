//! Tests of `idl_names`.
mod tests;
mod text_tests;
