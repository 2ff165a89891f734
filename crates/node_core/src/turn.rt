//! `Turn`, seen in clauses as its ports and the one that was picked last.

ghost use Rattle.std.specs.Prelude.{◌≡◌, ◌<◌, ◌≤◌, ◌==◌, ◌-◌, IfSome};
ghost use Rattle.std.specs.Int.{bit_at};
ghost use Rattle.std.specs.List.{find, range_with_len};
ghost use Rattle.node_core.specs.Turn.{TurnState, first_in_turn, new_turn, turned_to};

use std::marker::Model;

/// Whose turn it is among the ports of a node: the port after the one that was picked last, in a
/// circle.
#[derive(Drop)]
pub struct Turn {
    ports: u8,
    last: u8,
}

impl Model for Turn {
    ghost use Rattle.node_core.specs.Turn.{TurnState};

    ghost Value = { TurnState };

    ghost use Rattle.node_core.specs.TurnInside.{turn_view, IsTurnInside};

    ghost view = { turn_view };

    ghost invariant = { IsTurnInside };
}

impl Turn {
    /// The turn among `ports` ports, 1 to 17, of which port 0 is tried first.
    pub fn new(ports: u8) -> Turn
        requires some { 0 < ports }
        requires most { ports ≤ 17 }
        ensures { result ≡ new_turn ports }
    {
        Turn {
            ports,
            last: ports - 1,
        }
    }

    /// The port whose turn it is, of the ports whose bit of `ready` is set (bit n is port n): the ports
    /// behind the one that was picked last are tried first, and then those from port 0 up to that one.
    /// None exactly where no port's bit is set.
    pub fn first(&self, ready: u32) -> Option<u8>
        ensures port { result ≡ first_in_turn (λ port. bit_at ready port == 1) self.now }
        ensures within { IfSome result (λ port. port < self.now.ports) }
    {
        let behind = first_of(ready, self.last + 1, self.ports);
        if behind.is_some() {
            return behind;
        }
        first_of(ready, 0, self.last + 1)
    }

    /// Notes that this port's beat is moved, so that the port behind it is tried first.
    pub fn picked(&mut self, port: u8)
        requires { port < self.old.ports }
        ensures { self.new ≡ turned_to port self.old }
    {
        self.last = port;
    }
}

/// The first port from `start` on and below `end` whose bit is set.
fn first_of(ready: u32, start: u8, end: u8) -> Option<u8>
    requires order { start ≤ end }
    requires few { end ≤ 32 }
    ensures { result ≡ find (λ port. bit_at ready port == 1) (range_with_len start (end - start)) }
{
    for port in start..end {
        if ready >> port & 1 == 1 {
            return Some(port);
        }
    }
    None
}
