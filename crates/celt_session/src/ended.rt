//! What the end of a file answers.
use celt_base::status::Fault;

/// What the end of a file gives.
#[derive(Clone, Copy, Debug, PartialEq, Eq)]
pub enum Ended {
    /// The file has no fault, and all of its stream was written.
    Done,
    /// This is the fault of a file that ends here. What no later byte would change was written.
    Fault(Fault),
    /// A write failed.
    WriteFault,
}
