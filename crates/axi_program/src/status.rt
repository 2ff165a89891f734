//! What the top call answers.

ghost use Rattle.std.specs.Prelude.{◌≡◌};
ghost use Rattle.axi_program.specs.Status.{exit_code, status_of_ending, status_of_stop};

use axi_beats::NoMemory;
use refusals::Refusal;
use trace_judge::TraceFault;

/// How a command ended.
#[derive(Debug, Clone, Copy, PartialEq, Eq)]
pub enum Status {
    /// The whole text was written.
    Done,
    /// The words of the command line are none that the program takes.
    Usage,
    /// The input is refused. One line was written.
    Refused(Refusal),
    /// The trace breaks a rule of a port. One line was written.
    Broken(TraceFault),
    /// The source failed. Nothing was written.
    ReadFault,
    /// The sink failed. What was written is the front of the text.
    WriteFault,
    /// Memory was wanting. Nothing was written.
    NoMemory,
}

impl Status {
    /// The exit code of the program.
    pub fn code(&self) -> u8
        ensures { result ≡ exit_code self.now }
    {
        match self {
            Status::Done => 0,
            Status::Usage => 2,
            Status::Refused(_) => 3,
            Status::Broken(_) => 4,
            Status::ReadFault => 5,
            Status::WriteFault => 6,
            Status::NoMemory => 7,
        }
    }
}

/// How a command ends whose text was written whole.
#[derive(Debug, Clone, Copy, PartialEq, Eq)]
pub enum Ending {
    /// What was asked is done.
    Done,
    /// The input is refused.
    Refused(Refusal),
    /// The trace breaks a rule of a port.
    Broken(TraceFault),
}

impl Ending {
    /// The status of the top call.
    pub fn status(self) -> Status
        ensures { result ≡ status_of_ending self }
    {
        match self {
            Ending::Done => Status::Done,
            Ending::Refused(refusal) => Status::Refused(refusal),
            Ending::Broken(fault) => Status::Broken(fault),
        }
    }
}

/// Why nothing is written.
#[derive(Debug, Clone, Copy, PartialEq, Eq)]
pub enum Stop {
    /// The words of the command line are none that the program takes. Nothing was read.
    Usage,
    /// The source failed.
    ReadFault,
    /// Memory was wanting.
    NoMemory,
}

impl Stop {
    /// The status of the top call.
    pub fn status(self) -> Status
        ensures { result ≡ status_of_stop self }
    {
        match self {
            Stop::Usage => Status::Usage,
            Stop::ReadFault => Status::ReadFault,
            Stop::NoMemory => Status::NoMemory,
        }
    }
}

impl From<NoMemory> for Stop {
    ghost use Rattle.axi_program.specs.declared.status.Stop.TheVariants.{NoMemory};

    ghost from_gives = { λ _ stop. stop ≡ NoMemory };

    fn from(_error: NoMemory) -> Stop {
        Stop::NoMemory
    }
}
