//! `Script`, seen in clauses as the list of its transactions, each with its bytes.

ghost use Rattle.std.specs.Prelude.{◌≡◌, ◌<◌, ◌^◌, ◌++◌, ◌∷◌, [], length, slice_get, OnOk};
ghost use Rattle.std.specs.Prelude.{OnErr, Some};
ghost use Rattle.std.specs.Option.{option_map};
ghost use Rattle.burst_address.specs.Legal.{IsLegal};
ghost use Rattle.manager_node.specs.Script.{CanPush, IsScript, sent_bytes};

use axi_beats::{Addr, NoMemory};
use burst_address::burst_count;
use std::alloc::Global;
use std::marker::Model;

/// A byte that a write names: its value, and whether it is written.
#[derive(Clone, Copy, Debug, PartialEq, Eq, Default)]
pub struct WriteByte {
    /// The value to write; a byte without a strobe is sent as 0.
    pub value: u8,
    /// Whether the byte's strobe is set; a byte without one stays as it is in the memory.
    pub strobed: bool,
}

/// A transaction of a manager.
#[derive(Clone, Copy, Debug, PartialEq, Eq, Default)]
pub struct Txn {
    /// The number that its beats carry in their tags.
    pub number: u32,
    /// Whether it is a write; else it is a read.
    pub write: bool,
    /// The request, whose tag is not used.
    pub request: Addr,
    /// How many of the script's first transactions are answered before this one is issued: all that
    /// stand before it, or as many as the one before it waits for.
    pub after: u32,
}

impl Txn {
    /// How many bytes it sends: a write those of the valid lanes of its beats, and a read none. Its
    /// burst is legal on the widest bus and starts below 2^63.
    pub fn sent_count(&self) -> usize
        requires start { self.now.request.addr < 2 ^ 63 }
        requires legal { IsLegal self.now.request 128 }
        ensures { result ≡ sent_bytes self.now }
    {
        if self.write {
            burst_count(&self.request)
        } else {
            0
        }
    }
}

/// A transaction and its bytes.
#[derive(Drop)]
struct Item {
    txn: Txn,
    bytes: Vec<WriteByte>,
}

/// The transactions of one manager, in the order in which it issues those of a direction.
#[derive(Drop)]
pub struct Script {
    items: Vec<Item>,
    alloc: Global,
}

impl Model for Script {
    ghost use Rattle.std.specs.Prelude.{List};
    ghost use Rattle.manager_node.specs.Script.{ScriptItem, IsScript};

    ghost Value = { List ScriptItem };

    ghost use Rattle.manager_node.specs.ScriptInside.{script_view};

    ghost view = { script_view };

    ghost invariant = { λ s. IsScript (script_view s) };
}

impl Script {
    /// A script without transactions.
    pub fn new(alloc: Global) -> Script
        ensures { result ≡ [] }
    {
        Script {
            items: Vec::new(alloc),
            alloc,
        }
    }

    /// Adds a transaction with its bytes, [`Txn::sent_count`] of them: for a write those of the valid
    /// lanes of its beats, beat by beat and lowest lane first, and none for a read. Its burst is legal
    /// on the widest bus and starts below 2^63. The script is unchanged where there is no memory.
    pub fn push(&mut self, txn: Txn, bytes: &[WriteByte]) -> Result<(), NoMemory>
        requires { CanPush self.old txn bytes.now }
        ensures ok { OnOk result
            (self.new ≡ self.old ++ record { txn = txn; bytes = bytes.now } ∷ []) }
        ensures err { OnErr result (self.new ≡ self.old) }
    {
        let bytes = Vec::from_slice(self.alloc, bytes)?;
        match self.items.push(Item { txn, bytes }) {
            Ok(()) => Ok(()),
            Err(_) => Err(NoMemory),
        }
    }

    /// The number of transactions.
    pub fn len(&self) -> u32
        ensures value { result ≡ length self.now }
        ensures script { IsScript self.now }
    {
        self.items.len() as u32
    }

    /// The transaction at place `n`, counted from 0, which is below the length.
    pub fn txn(&self, n: u32) -> &Txn
        requires { n < length self.now }
        ensures { option_map (λ item. item.txn) (slice_get self.now n) ≡ Some result.now }
    {
        &self.items[n as usize].txn
    }

    /// The request of the transaction at place `n`, which is below the length.
    pub(crate) fn request(&self, n: u32) -> &Addr
        requires { n < length self.now }
        ensures value { option_map (λ item. item.txn.request) (slice_get self.now n)
            ≡ Some result.now }
        ensures start { result.now.addr < 2 ^ 63 }
        ensures legal { IsLegal result.now 128 }
    {
        &self.items[n as usize].txn.request
    }

    /// The bytes that were pushed with the transaction at place `n`, which is below the length.
    pub fn bytes(&self, n: u32) -> &[WriteByte]
        requires { n < length self.now }
        ensures value { option_map (λ item. item.bytes) (slice_get self.now n) ≡ Some result.now }
        ensures count { option_map (λ item. sent_bytes item.txn) (slice_get self.now n)
            ≡ Some (length result.now) }
    {
        self.items[n as usize].bytes.as_slice()
    }
}
