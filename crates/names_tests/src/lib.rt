//! Tests of `halls`, `name_map`, `name_calls`, `names_hall`, `names_runs`.
#![tactic(auto)]

#[cfg(test)]
mod answer_tests;
#[cfg(test)]
mod bodies;
#[cfg(test)]
mod echo;
#[cfg(test)]
mod hall_side_tests;
#[cfg(test)]
mod many_tests;
#[cfg(test)]
mod map_tests;
#[cfg(test)]
mod messages;
#[cfg(test)]
mod request_tests;
#[cfg(test)]
mod run_hall_tests;
#[cfg(test)]
mod run_tests;
