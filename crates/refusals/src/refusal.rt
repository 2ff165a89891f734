//! What is said of an input that is refused.

ghost use Rattle.std.specs.Prelude.{◌≡◌};
ghost use Rattle.refusals.specs.Cause.{cause_of_code};
ghost use Rattle.refusals.specs.Refusal.{CodesTellCauses, refused_at, refused_burst, refused_for};

use crate::cause::Cause;
use thiserror::Error;

/// Why an input is refused, and where.
#[derive(Debug, Clone, Copy, PartialEq, Eq)]
pub struct Refusal {
    /// The code of the cause, as [`Cause::code`] tells it.
    pub code: u8,
    /// The number from 1 of the line or the node that the cause is found at, or 0 where none is named.
    /// Of a topology's tables, 0 is the top level.
    pub place: u32,
    /// The first broken rule of a burst, 1 to 4, or 0 where the cause is another one.
    pub rule: u8,
}

impl Refusal {
    /// The whole input is refused for this cause.
    pub fn new(cause: Cause) -> Refusal
        ensures { result ≡ refused_for cause }
    {
        Refusal {
            code: cause.code(),
            place: 0,
            rule: 0,
        }
    }

    /// The input is refused for what stands at this place.
    pub fn at(cause: Cause, place: u32) -> Refusal
        ensures { result ≡ refused_at cause place }
    {
        Refusal {
            code: cause.code(),
            place,
            rule: 0,
        }
    }

    /// The line of traffic asks for a burst whose first broken rule is this one. (Arm IHI 0022, burst
    /// size, burst length and burst type.)
    pub fn illegal_burst(line: u32, rule: u8) -> Refusal
        ensures { result ≡ refused_burst line rule }
    {
        Refusal {
            code: Cause::IllegalBurst.code(),
            place: line,
            rule,
        }
    }

    /// The cause; `None` where no cause has the code.
    pub fn cause(&self) -> Option<Cause>
        ensures { result ≡ cause_of_code self.now.code }
    {
        Cause::from_code(self.code)
    }
}

/// Why a document can't be read.
#[derive(Debug, Clone, Copy, PartialEq, Eq, Error)]
pub enum DocFault {
    /// The document is refused.
    #[error("the document is refused")]
    Refused(Refusal),
    /// Memory was wanting. This says nothing of the document.
    #[error("out of memory")]
    NoMemory,
}

/// A code is that of one cause alone.
pub fn codes_tell_causes()
    ensures { CodesTellCauses }
{}

#[cfg(test)]
mod tests {
    use super::Refusal;
    use crate::cause::Cause;
    use std::test::Fail;

    #[test]
    fn a_cycle_at_the_third_node(rt: HostRuntime) {
        let refusal = Refusal::at(Cause::Cycle, 3);
        assert_eq!(rt; refusal.code, 10);
        assert_eq!(rt; refusal.place, 3);
        assert_eq!(rt; refusal.rule, 0);
        assert!(rt; refusal.cause() == Some(Cause::Cycle));
        assert_eq!(rt; Cause::Cycle.name(), "Cycle");
        assert!(rt; Cause::Cycle.names_place());
        assert!(rt; !Cause::NoTrace.names_place());
    }
}
