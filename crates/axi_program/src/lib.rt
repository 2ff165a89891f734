//! The whole program but its `main`: the top call `axinet`, what it sees of the world, and what it answers.
//!
//! `outside` has the source that the input comes from, the sink that the text goes to, and the gate that the parts
//! of a phase pass, each with what it promises. Sources and sinks stand in memory and over the runtime's streams, and
//! one of each never fails. `status` has the answers of the top call.
//!
//! `preparation` reads the words and the input, and takes all memory for the `work` that is left then: one line, which
//! `report` makes of a refusal or of the verdict on a trace, the text of a `plan`, or a `run` of a network, with the lines of
//! its `trace` where they are asked for. `texts` makes the lines that the program says. `top` puts them together.
#![tactic(auto)]

mod outside;
mod plan;
mod preparation;
mod report;
mod run;
mod status;
mod texts;
mod top;
mod trace;
mod work;

pub use outside::gate::{Gate, OpenGate};
pub use outside::memory_sink::MemorySink;
pub use outside::memory_source::MemorySource;
pub use outside::read_all::{InputFault, read_all};
pub use outside::sink::Sink;
pub use outside::source::{Failed, Source};
pub use outside::standard::{StdinSource, StdoutSink};
pub use outside::sure::{SureSink, SureSource};
pub use outside::write_all::write_piece;
pub use preparation::prepare;
pub use status::{Ending, Status, Stop};
pub use texts::{render_broken, render_legal, render_refusal, render_rounds};
pub use top::axinet;
pub use work::Work;
