//! Tests of `adapter_policies`.
mod order_tests;
mod range_tests;
mod reference_tests;
mod tests;
mod text_tests;
mod transform_tests;
