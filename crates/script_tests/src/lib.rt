//! Tests of `script_grammar`, `servant_scripts`, `script_values`, `script_names`, `script_checks`, `dynamic_servants`.
#![tactic(auto)]

#[cfg(test)]
mod dynamic_servants_tests;
#[cfg(test)]
mod script_checks_tests;
#[cfg(test)]
mod script_grammar_tests;
#[cfg(test)]
mod script_names_tests;
#[cfg(test)]
mod script_values_tests;
#[cfg(test)]
mod servant_scripts_tests;
