//! Tests of `text_streams`, `giop_dump`, `reference_lines`, `idl_lines`, `load_runs`, `command_options`, `command_words`,
//! `orb_command`, and of `system_devices`: its files, and requests over loopback.
#![tactic(auto)]

#[cfg(test)]
mod cause_tests;
#[cfg(test)]
mod command_options_tests;
#[cfg(test)]
mod command_words_tests;
#[cfg(test)]
mod giop_dump_tests;
#[cfg(test)]
mod idl_lines_tests;
#[cfg(test)]
mod load_runs_tests;
#[cfg(test)]
mod loopback_tests;
#[cfg(test)]
mod note_tests;
#[cfg(test)]
mod orb_command_tests;
#[cfg(test)]
mod reference_lines_tests;
#[cfg(test)]
mod text_streams_tests;
