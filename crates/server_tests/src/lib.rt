//! Tests of `side_by_side`, `link_slots`, `orb_nets`, `conn_sides`, `orb_server`, `server_runs`.
#![tactic(auto)]

#[cfg(test)]
mod conn_sides_tests;
#[cfg(test)]
mod hostile_runs_tests;
#[cfg(test)]
mod link_slots_tests;
#[cfg(test)]
mod orb_nets_tests;
#[cfg(test)]
mod orb_server_tests;
#[cfg(test)]
mod server_runs_tests;
#[cfg(test)]
mod side_by_side_tests;
