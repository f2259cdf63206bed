//! Tests of `giop_messages`.
mod exception_tests;
mod read_tests;
mod refuse_tests;
mod rows;
mod vectors;
mod write_tests;
