//! Tests of `cdr_core`.
mod tests;
mod vectors;
