//! Which calls of an object in memory fail, and the counts of its calls and of its faults.

ghost use Rattle.std.specs.Prelude.{◌≡◌, ◌≤◌};
ghost use Rattle.axi_program.specs.Devices.{new_call_faults, is_due, after_call};

use std::marker::Model;

/// What fails of an object's calls: which of them fail, by their numbers from 1.
///
/// A clause sees it as the numbers of the calls that are to fail, the calls that were made and those that failed.
#[derive(Drop)]
pub struct CallFaults {
    failing: Vec<u64>,
    calls: u64,
    faults: u64,
}

impl Model for CallFaults {
    ghost use Rattle.axi_program.specs.Devices.{CallFaultsView};

    ghost Value = { CallFaultsView };

    ghost view = { λ p. record { failing = p.failing.items; calls = p.calls; faults = p.faults } };
}

impl CallFaults {
    /// By which these calls fail, before the first call.
    pub fn new(failing: Vec<u64>) -> CallFaults
        ensures { result ≡ new_call_faults failing.items }
    {
        CallFaults {
            failing,
            calls: 0,
            faults: 0,
        }
    }

    /// Whether the next call is one that is to fail.
    pub fn is_due(&self) -> bool
        ensures { result ≡ is_due self.now }
    {
        match self.calls.checked_add(1) {
            Some(number) => self.failing.contains(&number),
            None => false,
        }
    }

    /// Counts one more call.
    pub fn count(&mut self, fails: bool)
        ensures after { self.new ≡ after_call self.old fails }
        ensures later { self.old.faults ≤ self.new.faults }
    {
        self.calls = self.calls.saturating_add(1);
        if fails {
            self.faults = self.faults.saturating_add(1);
        }
    }
}
