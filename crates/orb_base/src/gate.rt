//! What happens before and after an invocation.

use crate::job::Job;

/// What a worker calls before and after each invocation. The program's gate does nothing; a test's may hold a worker.
pub trait Gate {
    /// Before the invocation. May wait.
    fn enter(&self, job: &Job);

    /// After it.
    fn leave(&self, job: &Job);
}
