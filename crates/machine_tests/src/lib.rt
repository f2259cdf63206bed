//! Tests of `turn_cell`, `thread_borrowing`, `request_buffer`, `history_lines`, `lane_pool`, `trace_lines`; of the auditors `lane_audit`,
//! `fit_audit`, `trace_reading`, `trace_runs`, `trace_audit`, and the lane machine beside them; of `trace_picture`, `picture_runs`.
#![tactic(auto)]

#[cfg(test)]
mod calls;
#[cfg(test)]
mod fit_audit_tests;
#[cfg(test)]
mod history_lines_tests;
#[cfg(test)]
mod lane_audit_tests;
#[cfg(test)]
mod lane_machine_tests;
#[cfg(test)]
mod lane_pool_tests;
#[cfg(test)]
mod picture_tests;
#[cfg(test)]
mod replay;
#[cfg(test)]
mod request_buffer_tests;
#[cfg(test)]
mod thread_borrowing_tests;
#[cfg(test)]
mod trace_audit_tests;
#[cfg(test)]
mod trace_lines_tests;
#[cfg(test)]
mod trace_reading_tests;
#[cfg(test)]
mod trace_runs_tests;
#[cfg(test)]
mod turn_cell_tests;
