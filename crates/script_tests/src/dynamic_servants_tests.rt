//! Tests of `dynamic_servants`.
mod samples;
mod tests;
