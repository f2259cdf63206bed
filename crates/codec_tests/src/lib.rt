//! Tests of `orb_base`, `cdr_core`, `cdr_values`, `giop_frames`, `giop_messages`, `service_contexts`, `object_refs`.
#![tactic(auto)]

#[cfg(test)]
mod cdr_core_tests;
#[cfg(test)]
mod cdr_values_tests;
#[cfg(test)]
mod giop_frames_tests;
#[cfg(test)]
mod giop_messages_tests;
#[cfg(test)]
mod object_refs_tests;
#[cfg(test)]
mod orb_base_tests;
#[cfg(test)]
mod service_contexts_tests;
