//! Tests of `orb_command`.
mod at_tests;
mod call_tests;
mod config_tests;
mod format_tests;
mod hostile_tests;
mod lane_tests;
mod lies_tests;
mod load_tests;
mod names_tests;
mod rows;
mod script_tests;
mod serve_tests;
mod shared_call_tests;
mod tests;
mod tool_tests;
