//! What the words ask of the program.

use thiserror::Error;

/// What the program does.
#[derive(Debug, Clone, Copy, PartialEq, Eq)]
pub enum Task {
    /// To run a document.
    Run,
    /// To judge every port of a trace.
    Check,
    /// To tell the plan of a document.
    Plan,
}

/// A task and its options. An option that the task doesn't use is there all the same.
#[derive(Debug, Clone, Copy, PartialEq, Eq)]
pub struct Choice {
    /// What is done.
    pub task: Task,
    /// How many threads run the network: 1 to 64.
    pub workers: u8,
    /// Whether the trace of all links stands before the answers.
    pub trace: bool,
    /// From which number a document is made.
    pub seed: u64,
    /// How many nodes a document that is made has: 1 to 16384.
    pub size: u16,
}

/// Why a line of words gives no choice.
#[derive(Debug, Clone, Copy, PartialEq, Eq, Error)]
pub enum WordsFault {
    /// The words are none that the program takes.
    #[error("these words are none that the program takes")]
    Usage,
    /// Memory was wanting.
    #[error("out of memory")]
    NoMemory,
}
