//! Tests of `giop_frames`.
mod load_tests;
mod split_tests;
mod tests;
