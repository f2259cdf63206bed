//! A gate that holds nobody.

use orb_base::{Gate, Job};

/// A gate that holds nobody: what the program's workers pass.
#[derive(Clone, Copy, Debug, Drop)]
pub struct OpenGate;

impl Gate for OpenGate {
    fn enter(&self, _job: &Job) {}

    fn leave(&self, _job: &Job) {}
}
