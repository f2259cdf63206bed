//! Tests of the client: `value_json`, `client_stub`, its part of `banded_links`, `client_calls`, `client_runs`; and of a shared
//! link: `client_mux`, `shared_link`, `link_callers`, as stories over one link, in one thread, or in two where a caller waits;
//! `mux_runs`, as several callers over one link in memory, each in a thread of its own.
#![tactic(auto)]

#[cfg(test)]
mod bands_tests;
#[cfg(test)]
mod call_run_tests;
#[cfg(test)]
mod calls;
#[cfg(test)]
mod client_calls_tests;
#[cfg(test)]
mod client_stub_tests;
#[cfg(test)]
mod deeds;
#[cfg(test)]
mod devices;
#[cfg(test)]
mod many_callers;
#[cfg(test)]
mod one_after_another;
#[cfg(test)]
mod operations_tests;
#[cfg(test)]
mod request_len_tests;
#[cfg(test)]
mod rows;
#[cfg(test)]
mod short_request_tests;
#[cfg(test)]
mod stories;
#[cfg(test)]
mod value_json_tests;
