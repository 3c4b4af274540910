//! What is told of each job before and after it is served.
/// Is told the numbers of jobs, in the thread that serves them.
pub trait Gate {
    /// The job with this number is about to be served.
    fn before(&self, job: u64);

    /// The job with this number was served.
    fn after(&self, job: u64);
}

/// A gate that holds nothing up.
#[derive(Clone, Copy)]
pub struct OpenGate;

impl Gate for OpenGate {
    fn before(&self, _job: u64) {}

    fn after(&self, _job: u64) {}
}
