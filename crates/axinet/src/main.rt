//! The program: the words, the streams and the exit code of the process around the top call.
#![tactic(auto)]

ghost use Rattle.std.specs.Prelude.{◌≡◌};
ghost use Rattle.std.specs.Process.{exit_status};
ghost use Rattle.axi_program.specs.Status.{exit_code};

use axi_program::{OpenGate, Status, StdinSource, StdoutSink, axinet};
use std::env::{self, Env};
use std::io;
use std::process::ExitCode;

/// What the top call answers of this process's words and streams. Words that can't be had as text
/// are none that the program takes.
fn call(rt: &(impl Alloc<A = std::alloc::Global> + Env + Input + Print)) -> Status {
    let words = match env::args(rt) {
        Ok(words) => words,
        Err(_) => return Status::Usage,
    };
    let words = match words.collect::<Vec<String>>(rt.alloc()) {
        Ok(words) => words,
        Err(_) => return Status::NoMemory,
    };
    let mut source = StdinSource::new(rt.reader());
    let mut sink = StdoutSink::new(io::writer(rt));
    axinet(rt.alloc(), &words, &mut source, &mut sink, &OpenGate)
}

/// The line that a status has on standard error, where it has one.
fn complaint(status: &Status) -> Option<&'static str> {
    match status {
        Status::Usage => Some("usage: axinet run|check|plan [options]"),
        Status::ReadFault => Some("axinet: read failed"),
        Status::WriteFault => Some("axinet: write failed"),
        Status::NoMemory => Some("axinet: out of memory"),
        Status::Done | Status::Refused(_) | Status::Broken(_) => None,
    }
}

/// How the process ends for a status.
fn exit(status: &Status) -> ExitCode
    ensures { exit_status result ≡ exit_code status.now }
{
    ExitCode::from(status.code())
}

fn main(rt: HostRuntime) -> ExitCode {
    let status = call(&rt);
    if let Some(line) = complaint(&status) {
        // Where standard error fails there is nobody left to tell.
        let _ = rt.eprintln(line);
    }
    exit(&status)
}
