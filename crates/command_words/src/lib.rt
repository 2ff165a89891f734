//! The words of the command line, read by `clap`.
//!
//! `command` is what `clap` is told of the program: one required word that names the task, and four options.
//! `words` reads a line of words by it. What is taken, and what is refused, is exactly what `clap`'s own definition
//! takes and refuses.
#![tactic(auto)]

mod choice;
mod command;
mod words;

pub use choice::{Choice, Task, WordsFault};
pub use words::read_words;
