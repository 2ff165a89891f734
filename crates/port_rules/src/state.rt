//! What a checker keeps of the rounds of its port, and what it tells of a round.
ghost use Rattle.std.specs.Prelude.{◌≡◌, ◌≢◌, ◌+◌, ◌<◌, ◌≤◌, ◌^◌, [], true, length};
ghost use Rattle.std.specs.List.{list_all};
ghost use Rattle.axi_beats.specs.Bus.{IsBusWidth};
ghost use Rattle.port_rules.specs.Unpaired.{is_usable};

use crate::outstanding::Waits;
use crate::reads::Reads;
use crate::writes::Writes;
use axi_beats::WBeat;
use axi_history::{PortKind, RawAddr};
use std::collections::VecDeque;

/// Why a round isn't accepted.
#[derive(Clone, Copy, Debug, PartialEq, Eq)]
pub enum RuleFault {
    /// The rounds break a rule: the least channel (1 AW, 2 W, 3 B, 4 AR, 5 R) and its least rule, from
    /// 1 to 12, on AXI4-Lite from 1 to 6.
    Broken { rule: u8, channel: u8 },
    /// There was no memory for the round, which wasn't added.
    NoMemory,
}

/// What rules 9 and 10 need of earlier rounds. The n-th write burst belongs to the n-th address, and
/// either may be offered first: what is kept are the addresses that still lack beats, and the beats
/// that still lack their address. There are never both.
#[derive(Drop)]
pub(crate) struct Bursts {
    pub(crate) bus: u8,
    /// The addresses whose burst isn't whole, oldest first.
    pub(crate) addresses: VecDeque<RawAddr>,
    /// How many beats were offered of the oldest one's burst.
    pub(crate) passed: u32,
    /// The beats that have no address, oldest first.
    pub(crate) beats: VecDeque<WBeat>,
    ghost width: { IsBusWidth bus },
    ghost usable: { list_all (is_usable bus) addresses.items ≡ true },
    ghost fresh: { addresses.items ≡ [] → passed ≡ 0 },
    ghost parted: { addresses.items ≢ [] → beats.items ≡ [] },
}

/// A checker that was given the rounds of one port, from its first round on.
#[derive(Drop)]
pub struct PortChecker {
    pub(crate) port: PortKind,
    /// How many rounds it was given.
    pub(crate) rounds: u32,
    /// The channel and the rule that were broken first. The fields below change no more from then on.
    pub(crate) fault: Option<(u8, u8)>,
    pub(crate) waits: Waits,
    /// Empty on an AXI4-Lite port, where no rule asks for both an address and its data.
    pub(crate) bursts: Bursts,
    pub(crate) writes: Writes,
    pub(crate) reads: Reads,
    ghost bus: { bursts.bus ≡ port.bus },
    ghost surplus: { writes.surplus ≤ rounds },
    ghost writes_within: { length writes.issued.items + length writes.whole.items ≤ rounds },
    ghost reads_within: { length reads.reads.items ≤ rounds },
    ghost rounds_within: { rounds < 2 ^ 32 },
}
