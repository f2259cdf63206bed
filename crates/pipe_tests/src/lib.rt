//! Tests of `request_judge`, `heard_messages`, `heard_calls`, `item_writer`, `lane_driver`, `conn_engine`, `pipe_runs`.
#![tactic(auto)]

#[cfg(test)]
mod conn_engine_tests;
#[cfg(test)]
mod heard_calls_tests;
#[cfg(test)]
mod heard_messages_tests;
#[cfg(test)]
mod item_writer_tests;
#[cfg(test)]
mod lane_driver_tests;
#[cfg(test)]
mod pipe_runs_tests;
#[cfg(test)]
mod request_judge_tests;
#[cfg(test)]
mod samples;
