//! The byte tools that every reader and writer of the project shares: the lines of a text and the
//! line that parts it in two, the words of a line, fields that end at a byte, the numbers that words
//! spell, and a buffer in which a line is written. Each reading call answers exactly what one
//! definition of `specs/` computes, takes no memory and runs in time linear in what it reads. Laws
//! say that plain numbers are read as they are written, and written as they were read.
#![tactic(auto)]

pub mod fields;
pub mod line_buffer;
pub mod lines;
pub mod numbers;
pub mod separator;
pub mod spelling;
#[cfg(test)]
mod tests;
pub mod words;
