//! The samples of a file, once they have begun.
use crate::plan::Plan;

/// How they are cut, and how many of their bytes are still to come; none where they go on to the end of the file.
#[derive(Clone, Copy, Debug, PartialEq, Eq)]
pub(crate) struct Recording {
    pub plan: Plan,
    pub left: Option<u64>,
}
